//! A site's words in the root, by its leaves and segments as they come.
ghost use Rattle.std.specs.Prelude.{◌≡◌, ◌+◌, ◌<◌, ◌++◌, ◌∷◌, [], get_or, length, cond, IfOk};
ghost use Rattle.std.specs.List.{flat_map};
ghost use Rattle.pdn_level.specs.declared.staged.Level.TheVariants as level;
ghost use Rattle.pdn_level.specs.Levels.{level_of_node, leaves_of};
ghost use Rattle.pdn_level.specs.Cutting.{slice_column};
ghost use Rattle.pdn_tree.specs.Meaning.{mean, table_of};
ghost use Rattle.pdn_tree.specs.Shapes.{kinds};
ghost use Rattle.pdn_site.specs.Engines.{no_segment};
ghost use Rattle.pdn_site.specs.SiteRows.{entered, is_of, plain_rows, slice_words};
ghost use Rattle.pdn_site.specs.RootLengths.{leaf_rows};
ghost use Rattle.pdn_site.specs.RootWords.{is_segment, slices_in, words_in, StandsFrom, tree_words};

use crate::entering::{entered, kinds_of};
use crate::narrowing::narrowed;
use crate::root_lengths::leaf_rows;
use crate::unit::value_of;
use crate::{Unit, UnitKind, Units};
use pdn_base::{Memory, Site, Tables, Value, Word};
use pdn_level::{Leaf, Level, Segment, Staged, level_of};
use pdn_plain::run_local;
use pdn_schema::Schema;
use pdn_tree::{Below, Node};
use std::alloc::Global;
use std::marker::Model;

/// A site's side of a query: its own tables, and what is public.
#[derive(Drop)]
pub struct OwnSide<'a> {
    pub site: Site,
    pub schema: &'a Schema,
    pub tables: &'a Tables,
    pub staged: &'a Staged,
    pub units: &'a Units,
}

/// A site's words of a tree in the root, and which segment comes next after it.
#[derive(Debug, Drop)]
pub struct TreeWords {
    pub words: Vec<Word>,
    pub segments: usize,
}

impl Model for TreeWords {
    ghost use Rattle.pdn_site.specs.SiteRows.{OwnRoot};

    ghost Value = { OwnRoot };

    ghost view = { λ w. record { words = w.words.items; segments = w.segments } };
}

/// A leaf of the root: the site's rows that a Local tree means.
fn leaf_words(
    alloc: Global,
    schema: &Schema,
    tables: &Tables,
    node: &Node,
) -> Result<Vec<Word>, Memory>
    ensures { IfOk result (λ words. words.items
        ≡ entered (mean (table_of tables.now) node.now) (kinds schema.now node.now) (leaf_rows
        schema.now node.now)) }
{
    let rows = run_local(alloc, schema, node, tables)?;
    let kinds = kinds_of(alloc, schema, node)?;
    entered(alloc, rows, kinds.as_slice(), leaf_rows(schema, node))
}

/// What a plain unit of the site puts in: its rows, as they enter.
fn plain_words(
    alloc: Global,
    side: &OwnSide<'_>,
    top: &Node,
    leaves: &[Leaf],
    value: &Value,
    len: u32,
) -> Result<Vec<Word>, Memory>
    requires { leaves.now ≡ leaves_of side.now.schema.now top.now (slice_column side.now.schema.now
        top.now) }
    ensures { IfOk result (λ words. words.items
        ≡ entered (plain_rows side.now.schema.now side.now.tables.now value.now top.now) (kinds
        side.now.schema.now top.now) len) }
{
    let tree = narrowed(alloc, top, leaves, value)?;
    let rows = run_local(alloc, side.schema, &tree, side.tables)?;
    let kinds = kinds_of(alloc, side.schema, top)?;
    entered(alloc, rows, kinds.as_slice(), len)
}

/// Whether a unit is plain, and of this site.
fn is_of(site: Site, kind: UnitKind) -> bool
    ensures { result ≡ is_of site kind }
{
    match (site, kind) {
        (Site::A, UnitKind::Plain(Site::A)) => true,
        (Site::A, UnitKind::Plain(Site::B)) => false,
        (Site::B, UnitKind::Plain(Site::A)) => false,
        (Site::B, UnitKind::Plain(Site::B)) => true,
        (_, UnitKind::Secure) => false,
        (_, UnitKind::Root) => false,
    }
}

fn is_segment(segment: usize, of: Option<u32>) -> bool
    ensures { result ≡ is_segment segment of }
{
    match of {
        None => false,
        Some(number) => number as usize == segment,
    }
}

/// What a site puts in for a unit, where it is one of the segment.
#[tactic(auto, using(crate::proofs::UnitWordLaws::words_mine, crate::proofs::UnitWordLaws::words_elsewhere, crate::proofs::UnitWordLaws::words_others))]
fn unit_words(
    alloc: Global,
    side: &OwnSide<'_>,
    top: &Node,
    leaves: &[Leaf],
    segment: usize,
    unit: &Unit,
) -> Result<Vec<Word>, Memory>
    requires { leaves.now ≡ leaves_of side.now.schema.now top.now (slice_column side.now.schema.now
        top.now) }
    ensures { IfOk result (λ words. words.items
        ≡ words_in side.now.site side.now.schema.now side.now.tables.now top.now segment
        unit.now) }
{
    if is_segment(segment, unit.segment) && is_of(side.site, unit.kind) {
        let value = value_of(unit);
        plain_words(alloc, side, top, leaves, &value, unit.len)
    } else {
        Ok(Vec::new(alloc))
    }
}

/// A segment of the root: for each of its units in order, the site's rows where the unit is plain
/// and the site's own.
#[tactic(auto, using(crate::proofs::UnitWordLaws::words_next))]
fn segment_words(
    alloc: Global,
    side: &OwnSide<'_>,
    top: &Node,
    leaves: &[Leaf],
    segment: usize,
) -> Result<Vec<Word>, Memory>
    requires { leaves.now ≡ leaves_of side.now.schema.now top.now (slice_column side.now.schema.now
        top.now) }
    ensures { IfOk result (λ words. words.items
        ≡ flat_map (words_in side.now.site side.now.schema.now side.now.tables.now top.now segment)
        side.now.units.now) }
{
    let units = side.units;
    let mut words = Vec::new(alloc);
    for unit in &units.units {
        let mut more = unit_words(alloc, side, top, leaves, segment, unit)?;
        words.append(&mut more)?;
    }
    Ok(words)
}

fn segment_at(staged: &Staged, number: usize) -> &Segment
    requires { number < length staged.now }
    ensures { result.now ≡ get_or staged.now number no_segment }
{
    &staged.segments[number]
}

/// The number that comes after a segment's.
fn next_number(staged: &Staged, number: usize) -> usize
    requires { number < length staged.now }
    ensures { result ≡ number + 1 }
{
    let count = staged.segments.len();
    if count <= number { number } else { number + 1 }
}

/// The leaves to which a segment's slice column is traced.
#[tactic(auto, using(crate::proofs::Standing::leaves_stand, crate::proofs::Standing::stands_within))]
fn leaves_at<'a>(schema: &Schema, staged: &'a Staged, top: &Node, segment: usize) -> &'a [Leaf]
    requires level { level_of_node schema.now top.now ≡ level.Sliced }
    requires stands { StandsFrom schema.now staged.now top.now segment }
    ensures leaves { result.now ≡ leaves_of schema.now top.now (slice_column schema.now top.now) }
    ensures within { segment < length staged.now }
{
    let found = segment_at(staged, segment);
    found.leaves.as_slice()
}

fn next_of(own: &TreeWords) -> usize
    ensures { result ≡ own.now.segments }
{
    own.segments
}

/// The words of two trees, one after the other.
fn both(left: TreeWords, right: TreeWords) -> Result<TreeWords, Memory>
    ensures { IfOk result (λ own. own ≡ record {
      words = left.words ++ right.words;
      segments = right.segments;
    }) }
{
    let mut words = left.words;
    let mut more = right.words;
    words.append(&mut more)?;
    Ok(TreeWords {
        words,
        segments: right.segments,
    })
}

/// A site's words of a tree in the root, where number `segment` is the first of its segments: a
/// leaf's rows, a segment's plain units of the site, and of any other node what it reads, left to
/// right.
pub fn tree_words(
    alloc: Global,
    side: &OwnSide<'_>,
    node: &Node,
    segment: usize,
) -> Result<TreeWords, Memory>
    requires { StandsFrom side.now.schema.now side.now.staged.now node.now segment }
    ensures { IfOk result (λ own. own
        ≡ tree_words side.now.site side.now.schema.now side.now.tables.now
        (slices_in (length side.now.staged.now) side.now.units.now) node.now segment) }
{
    match level_of(alloc, node, side.schema)? {
        Level::Local => {
            return Ok(TreeWords {
                words: leaf_words(alloc, side.schema, side.tables, node)?,
                segments: segment,
            })
        }
        Level::Sliced => {
            let leaves = leaves_at(side.schema, side.staged, node, segment);
            return Ok(TreeWords {
                words: segment_words(alloc, side, node, leaves, segment)?,
                segments: next_number(side.staged, segment),
            });
        }
        Level::Secure => {}
    }
    match node.below() {
        Below::Nothing => Ok(TreeWords {
            words: Vec::new(alloc),
            segments: segment,
        }),
        Below::One(child) => tree_words(alloc, side, child, segment),
        Below::Two(left, right) => {
            let l = tree_words(alloc, side, left, segment)?;
            let r = tree_words(alloc, side, right, next_of(&l))?;
            both(l, r)
        }
    }
}
