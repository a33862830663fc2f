//! What a site does of a query alone, from its own rows and what is public.
ghost use Rattle.std.specs.Prelude.{◌≡◌, ◌<◌, ◌-◌, ◌^◌, ℕ, [], length, get_or, IfOk, IfErr, MatchOption};
ghost use Rattle.std.specs.List.{All};
ghost use Rattle.pdn_base.specs.Operators.{Rows as RowsModel};
ghost use Rattle.pdn_schema.specs.Rows.{AreValid};
ghost use Rattle.pdn_level.specs.Levels.{segments_of};
ghost use Rattle.pdn_site.specs.Engines.{IsEngine, IsNoEngine, IsFirstRefused, segment_of, no_unit, segment_number, value_of, IsOfSegment, slice_rows, secure_words};
ghost use Rattle.pdn_site.specs.Directories.{directory};
ghost use Rattle.pdn_site.specs.RootWords.{root_inputs, unit_inputs};
ghost use Rattle.pdn_site.specs.declared.unit.UnitKind.TheVariants as kind;
ghost use Rattle.pdn_site.specs.declared.engine.SiteErr.TheVariants.{Memory};

use crate::directories::directory;
use crate::entering::entered_words;
use crate::holding::tables_held;
use crate::narrowing::narrowed;
use crate::numbers::numbers_held;
use crate::root::{OwnSide, tree_words};
use crate::segments::node_at;
use crate::unit::value_of;
use crate::{Unit, UnitKind, Units};
use pdn_base::{Memory, Rows, RowsErr, Site, Tables, Value, Word, sort_rows};
use pdn_level::{Segment, Staged};
use pdn_plain::run_local;
use pdn_schema::{Schema, valid_rows};
use pdn_tree::{Node, Plan};
use std::alloc::Global;
use std::marker::Model;

/// Why there is no engine: the first table, in the order of the schema, whose rows aren't valid, and why; or memory ran out.
#[derive(Debug, Drop)]
pub enum SiteErr {
    Rows { table: u32, cause: RowsErr },
    Memory,
}

impl From<Memory> for SiteErr {
    ghost from_gives = { λ _ e. e ≡ Memory };

    fn from(_: Memory) -> SiteErr {
        SiteErr::Memory
    }
}

/// A site with its valid tables and a query's plan. Contracts see what it was made from.
#[derive(Debug, Drop)]
pub struct SiteEngine {
    site: Site,
    schema: Schema,
    root: Node,
    staged: Staged,
    tables: Tables,
}

impl Model for SiteEngine {
    ghost use Rattle.pdn_site.specs.Engines.{EngineModel, IsEngine};
    ghost use Rattle.pdn_tree.specs.contracts.node.Node as tree;
    ghost use Rattle.std.specs.Coded.{codes};

    ghost Value = { EngineModel };

    ghost coded = { Prim.hlevel (codes, tree.the_row.coded) };

    ghost view = { λ e. record { site = e.site; schema = e.schema; root = e.root; staged = e.staged; tables = e.tables } };

    ghost invariant = { λ e. IsEngine (record { site = e.site; schema = e.schema; root = e.root; staged = e.staged; tables = e.tables }) };
}

/// The first table, in the order of the schema, whose rows aren't valid, and why.
pub fn first_refused(schema: &Schema, tables: &Tables) -> Option<(u32, RowsErr)>
    requires count { length tables.now ≡ length schema.now.tables }
    requires few { All (λ (rows : RowsModel). length rows < 2 ^ 32 - 1) tables.now }
    ensures { MatchOption result (AreValid schema.now tables.now)
        (λ first. IsFirstRefused schema.now tables.now first.0 first.1) }
{
    // what a schema keeps is known once it is looked at
    let _floor = schema.floor;
    for (i, rows) in tables.lists.iter().enumerate() {
        let table = i as u32;
        if let Err(cause) = valid_rows(schema, table, rows) {
            return Some((table, cause));
        }
    }
    None
}

fn unit_at(units: &Units, unit: u64) -> &Unit
    requires { unit < length units.now }
    ensures { result.now ≡ get_or units.now unit no_unit }
{
    &units.units[unit as usize]
}

fn segment_number(unit: &Unit) -> usize
    ensures { result ≡ segment_number unit.now }
{
    unit.segment.unwrap_or(0) as usize
}

impl SiteEngine {
    /// The engine of a site, with copies of what it is made from.
    ///
    /// The first table, in the order of the schema, whose rows aren't valid is refused with its first cause.
    pub fn new(
        alloc: Global,
        site: Site,
        schema: &Schema,
        plan: &Plan,
        staged: &Staged,
        tables: Tables,
    ) -> Result<SiteEngine, SiteErr>
        requires staged { staged.now ≡ segments_of schema.now plan.now.root [] }
        requires count { length tables ≡ length schema.now.tables }
        requires few { All (λ (rows : RowsModel). length rows < 2 ^ 32 - 1) tables }
        ensures made { IfOk result (λ engine. engine
            ≡ record {
              site = site;
              schema = schema.now;
              root = plan.now.root;
              staged = staged.now;
              tables = tables;
            }) }
        ensures is { IfOk result IsEngine }
        ensures refused { IfErr result (IsNoEngine schema.now tables) }
    {
        if let Some((table, cause)) = first_refused(schema, &tables) {
            return Err(SiteErr::Rows { table, cause });
        }
        tables_held(alloc, schema, &tables)?;
        numbers_held(&plan.root);
        let schema = schema.copy(alloc)?;
        let root = plan.root.copy(alloc)?;
        let staged = staged.copy(alloc)?;
        Ok(SiteEngine {
            site,
            schema,
            root,
            staged,
            tables,
        })
    }

    /// The site's directory of a segment: the values of the segment's traced columns in the site's unfiltered tables, ascending,
    /// each once.
    pub fn directory(&self, alloc: Global, segment: u32) -> Result<Vec<Value>, Memory>
        requires { segment < length self.now.staged }
        ensures { IfOk result (λ values. values.items
            ≡ directory self.now.tables (segment_of self.now segment).leaves) }
    {
        directory(
            alloc,
            &self.tables,
            self.staged.segments[segment as usize].leaves.as_slice(),
        )
    }

    fn segment(&self, segment: usize) -> &Segment
        requires { segment < length self.now.staged }
        ensures { result.now ≡ segment_of self.now segment }
    {
        &self.staged.segments[segment]
    }

    /// The rows that a segment means at a value over the site's own rows, in ascending order of all columns.
    fn slice(&self, alloc: Global, segment: usize, value: &Value) -> Result<Rows, Memory>
        requires { segment < length self.now.staged }
        ensures { IfOk result (λ rows. rows ≡ slice_rows self.now segment value.now) }
    {
        let segment = self.segment(segment);
        let top = node_at(&self.root, segment.path.as_slice());
        let tree = narrowed(alloc, top, segment.leaves.as_slice(), value)?;
        let rows = run_local(alloc, &self.schema, &tree, &self.tables)?;
        sort_rows(rows, &[])
    }

    /// The rows of a plain unit: what its segment means at its value over the site's own rows, in ascending order of all
    /// columns.
    pub fn plain_slice(&self, alloc: Global, units: &Units, unit: u64) -> Result<Rows, Memory>
        requires in_range { unit < length units.now }
        requires of_segment { IsOfSegment self.now (get_or units.now unit no_unit) }
        ensures { IfOk result (λ rows. rows
            ≡ slice_rows self.now (segment_number (get_or units.now unit no_unit)) (value_of
            (get_or units.now unit no_unit))) }
    {
        let unit = unit_at(units, unit);
        self.slice(alloc, segment_number(unit), &value_of(unit))
    }

    /// The site's words in the secure unit of a segment and a value.
    fn secure_words(
        &self,
        alloc: Global,
        segment: usize,
        value: &Value,
    ) -> Result<Vec<Word>, Memory>
        requires { segment < length self.now.staged }
        ensures { IfOk result (λ words. words.items ≡ secure_words self.now segment value.now) }
    {
        let segment = self.segment(segment);
        let top = node_at(&self.root, segment.path.as_slice());
        entered_words(
            alloc,
            &self.schema,
            &self.tables,
            top,
            segment.leaves.as_slice(),
            value,
        )
    }

    /// The site's input words of a secure unit: leaf by leaf the rows that the leaf means over the site's own rows at the unit's
    /// value, in ascending order of all columns from the first place on.
    pub fn secure_inputs(
        &self,
        alloc: Global,
        units: &Units,
        unit: u64,
    ) -> Result<Vec<Word>, Memory>
        requires in_range { unit < length units.now }
        requires of_segment { IsOfSegment self.now (get_or units.now unit no_unit) }
        ensures { IfOk result (λ words. words.items
            ≡ secure_words self.now (segment_number (get_or units.now unit no_unit)) (value_of
            (get_or units.now unit no_unit))) }
    {
        let unit = unit_at(units, unit);
        self.secure_words(alloc, segment_number(unit), &value_of(unit))
    }

    /// The site's words in the root: leaf by leaf its own rows, and at a segment, unit by unit, the rows of the plain units that
    /// are its own.
    fn root_words(&self, alloc: Global, units: &Units) -> Result<Vec<Word>, Memory>
        ensures { IfOk result (λ words. words.items ≡ root_inputs self.now units.now) }
    {
        let side = OwnSide {
            site: self.site,
            schema: &self.schema,
            tables: &self.tables,
            staged: &self.staged,
            units,
        };
        let own = tree_words(alloc, &side, &self.root, 0)?;
        Ok(own.words)
    }

    /// The site's input words of a unit: of a secure one those of `secure_inputs`, of the root its own leaves and plain units;
    /// a plain unit has no circuit, and takes none.
    pub fn unit_inputs(&self, alloc: Global, units: &Units, unit: u64) -> Result<Vec<Word>, Memory>
        requires in_range { unit < length units.now }
        requires of_segment { (get_or units.now unit no_unit).kind ≡ kind.Secure
            → IsOfSegment self.now (get_or units.now unit no_unit) }
        ensures { IfOk result (λ words. words.items
            ≡ unit_inputs self.now units.now (get_or units.now unit no_unit)) }
    {
        match unit_at(units, unit).kind {
            UnitKind::Plain(_) => Ok(Vec::new(alloc)),
            UnitKind::Secure => self.secure_inputs(alloc, units, unit),
            UnitKind::Root => self.root_words(alloc, units),
        }
    }
}
