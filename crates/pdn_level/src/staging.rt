//! The levels of a plan's nodes, and its segments.

ghost use Rattle.std.specs.Prelude.{◌≡◌, ◌||◌, IfOk, ◌++◌, ◌∷◌, [], ◌≤◌, false, map, length, get_or};
ghost use Rattle.std.specs.List.{list_any, AllByRecursion};
ghost use Rattle.pdn_level.specs.Cutting.{IsSound};
ghost use Rattle.pdn_level.specs.Links.{slice_at};
ghost use Rattle.pdn_level.specs.Slices.{among, linked};
ghost use Rattle.pdn_level.specs.Levels.{is_secure, sliced_if, kept_level, first_slice, graded, level_of_node, leaf_of, leaves_of, segments_of};

use crate::links::{link_at, links};
use crate::slices::{linked, no_slices, partition_slices, scan_slices, slices_at, with_count};
use crate::{Leaf, Level, Segment, Staged};
use pdn_base::{Cond, Memory};
use pdn_schema::Schema;
use pdn_tree::{Node, Plan};
use std::alloc::Global;
use std::marker::Model;

/// The slice columns of a tree, one truth value a column, and its level.
#[derive(Drop)]
struct Grades {
    slices: Vec<bool>,
    level: Level,
}

impl Model for Grades {
    ghost use Rattle.pdn_level.specs.Models.{Graded};

    ghost Value = { Graded };

    ghost view = { λ g. record { slices = g.slices.items; level = g.level } };
}

fn is_secure(level: Level) -> bool
    ensures { result ≡ is_secure level }
{
    match level {
        Level::Local => false,
        Level::Sliced => false,
        Level::Secure => true,
    }
}

fn has_slices(slices: &[bool]) -> bool
    ensures { result ≡ list_any (λ s. s) slices.now }
{
    slices.iter().any(
        |is: &bool| -> bool
            ensures { result ≡ is.now }
        { *is },
    )
}

fn sliced_if(slices: &[bool], secure_below: bool) -> Level
    ensures { result ≡ sliced_if slices.now secure_below }
{
    if has_slices(slices) && !secure_below {
        Level::Sliced
    } else {
        Level::Secure
    }
}

fn kept_level(slices: &[bool], below: Level) -> Level
    ensures { result ≡ kept_level slices.now below }
{
    match below {
        Level::Local => Level::Local,
        Level::Sliced => sliced_if(slices, false),
        Level::Secure => sliced_if(slices, true),
    }
}

/// A node above another that keeps its level where it still has slice columns.
fn kept(below: Grades) -> Grades
    ensures { result ≡ record {
      slices = below.slices;
      level = kept_level below.slices below.level;
    } }
{
    let level = kept_level(below.slices.as_slice(), below.level);
    Grades {
        slices: below.slices,
        level,
    }
}

/// Any other node above what is read.
fn over(slices: Vec<bool>, secure_below: bool) -> Grades
    ensures { result ≡ record {
      slices = slices.items;
      level = sliced_if slices.items secure_below;
    } }
{
    let level = sliced_if(slices.as_slice(), secure_below);
    Grades { slices, level }
}

fn project_grades(alloc: Global, below: Grades, columns: &[u32]) -> Result<Grades, Memory>
    ensures { IfOk result (λ g. g ≡ record {
      slices = map (slice_at below.slices) columns.now;
      level = kept_level (map (slice_at below.slices) columns.now) below.level;
    }) }
{
    let slices = slices_at(alloc, below.slices.as_slice(), columns)?;
    Ok(kept(Grades {
        slices,
        level: below.level,
    }))
}

fn join_grades(alloc: Global, left: Grades, right: Grades, on: &Cond) -> Result<Grades, Memory>
    ensures { IfOk result (λ g. g ≡ record {
      slices = linked left.slices right.slices on.now;
      level = sliced_if (linked left.slices right.slices on.now)
          (is_secure left.level || is_secure right.level);
    }) }
{
    let slices = linked(alloc, left.slices.as_slice(), right.slices.as_slice(), on)?;
    Ok(over(slices, is_secure(left.level) || is_secure(right.level)))
}

/// A node whose last column is a count or a place.
fn counted(slices: Vec<bool>, below: Level) -> Result<Grades, Memory>
    ensures { IfOk result (λ g. g ≡ record {
      slices = slices.items ++ false ∷ [];
      level = sliced_if (slices.items ++ false ∷ []) (is_secure below);
    }) }
{
    Ok(over(with_count(slices)?, is_secure(below)))
}

fn group_grades(alloc: Global, below: Grades, keys: &[u32]) -> Result<Grades, Memory>
    ensures { IfOk result (λ g. g ≡ record {
      slices = map (slice_at below.slices) keys.now ++ false ∷ [];
      level = sliced_if (map (slice_at below.slices) keys.now ++ false ∷ [])
          (is_secure below.level);
    }) }
{
    counted(
        slices_at(alloc, below.slices.as_slice(), keys)?,
        below.level,
    )
}

fn number_grades(alloc: Global, below: Grades, partition: &[u32]) -> Result<Grades, Memory>
    ensures { IfOk result (λ g. g ≡ record {
      slices = among partition.now below.slices ++ false ∷ [];
      level = sliced_if (among partition.now below.slices ++ false ∷ [])
          (is_secure below.level);
    }) }
{
    counted(
        partition_slices(alloc, below.slices.as_slice(), partition)?,
        below.level,
    )
}

fn top_grades(alloc: Global, below: Grades) -> Result<Grades, Memory>
    ensures { IfOk result (λ g. g ≡ record {
      slices = map (λ s. false) below.slices;
      level = sliced_if (map (λ s. false) below.slices) (is_secure below.level);
    }) }
{
    let slices = no_slices(alloc, below.slices.as_slice())?;
    Ok(over(slices, is_secure(below.level)))
}

/// The slice columns and the level of a tree.
fn grades_of(alloc: Global, schema: &Schema, node: &Node) -> Result<Grades, Memory>
    ensures { IfOk result (λ g. g ≡ graded schema.now node.now) }
{
    match node {
        Node::Scan { table } => Ok(Grades {
            slices: scan_slices(alloc, schema, *table)?,
            level: Level::Local,
        }),
        Node::Filter { child, .. } => Ok(kept(grades_of(alloc, schema, child.get())?)),
        Node::Project { child, columns } => {
            let below = grades_of(alloc, schema, child.get())?;
            project_grades(alloc, below, columns.as_slice())
        }
        Node::Join { left, right, on } => {
            let l = grades_of(alloc, schema, left.get())?;
            join_grades(alloc, l, grades_of(alloc, schema, right.get())?, on)
        }
        Node::Group { child, keys, .. } => {
            let below = grades_of(alloc, schema, child.get())?;
            group_grades(alloc, below, keys.as_slice())
        }
        Node::Count { child } => {
            counted(
                Vec::new(alloc),
                grades_of(alloc, schema, child.get())?.level,
            )
        }
        Node::Distinct { child } => {
            let below = grades_of(alloc, schema, child.get())?;
            Ok(over(below.slices, is_secure(below.level)))
        }
        Node::Number {
            child,
            partition,
            ..
        } => {
            let below = grades_of(alloc, schema, child.get())?;
            number_grades(alloc, below, partition.as_slice())
        }
        Node::Top { child, .. } => top_grades(alloc, grades_of(alloc, schema, child.get())?),
    }
}

/// The level of a tree. Its one error is Memory.
pub fn level_of(alloc: Global, node: &Node, schema: &Schema) -> Result<Level, Memory>
    ensures { IfOk result (λ level. level ≡ level_of_node schema.now node.now) }
{
    Ok(grades_of(alloc, schema, node)?.level)
}

fn leaf(alloc: Global, table: u32, column: usize) -> Result<Vec<Leaf>, Memory>
    ensures { IfOk result (λ leaves. leaves.items ≡ leaf_of table column) }
{
    let Ok(column) = u32::try_from(column) else {
        return Err(Memory);
    };
    let mut leaves = Vec::new(alloc);
    leaves.push(Leaf { table, column })?;
    Ok(leaves)
}

fn named(columns: &[u32], at: usize) -> usize
    ensures { result ≡ get_or columns.now at 0 }
{
    match columns.get(at) {
        Some(column) => *column as usize,
        None => 0,
    }
}

/// The leaves to which a slice column is traced.
fn trace(alloc: Global, schema: &Schema, node: &Node, column: usize) -> Result<Vec<Leaf>, Memory>
    ensures { IfOk result (λ leaves. leaves.items ≡ leaves_of schema.now node.now column) }
{
    match node {
        Node::Scan { table } => leaf(alloc, *table, column),
        Node::Project { child, columns } => {
            trace(
                alloc,
                schema,
                child.get(),
                named(columns.as_slice(), column),
            )
        }
        Node::Join { left, right, on } => {
            let l = grades_of(alloc, schema, left.get())?;
            let r = grades_of(alloc, schema, right.get())?;
            let all = links(alloc, l.slices.as_slice(), r.slices.as_slice(), on)?;
            let link = link_at(all.as_slice(), l.slices.len(), column);
            let mut leaves = trace(alloc, schema, left.get(), link.left)?;
            let mut more = trace(alloc, schema, right.get(), link.right)?;
            leaves.append(&mut more)?;
            Ok(leaves)
        }
        Node::Group { child, keys, .. } => {
            trace(alloc, schema, child.get(), named(keys.as_slice(), column))
        }
        Node::Filter { child, .. }
        | Node::Count { child }
        | Node::Distinct { child }
        | Node::Number { child, .. }
        | Node::Top { child, .. } => trace(alloc, schema, child.get(), column),
    }
}

fn first_slice(slices: &[bool]) -> usize
    ensures first { result ≡ first_slice slices.now }
    ensures within { result ≤ length slices.now }
{
    match slices.split_first() {
        None => 0,
        Some((is, rest)) => { if *is { 0 } else { 1 + first_slice(rest) } }
    }
}

/// The way one step further.
fn longer(alloc: Global, path: &[u8], way: u8) -> Result<Vec<u8>, Memory>
    ensures { IfOk result (λ out. out.items ≡ path.now ++ way ∷ []) }
{
    let mut out = Vec::from_slice(alloc, path)?;
    out.push(way)?;
    Ok(out)
}

/// A segment whose top stands at a path.
fn segment(
    alloc: Global,
    schema: &Schema,
    top: &Node,
    slices: &[bool],
    path: &[u8],
) -> Result<Vec<Segment>, Memory>
    ensures { IfOk result (λ out. out.items
        ≡ record {
          path = path.now;
          leaves = leaves_of schema.now top.now
              (first_slice slices.now);
        } ∷ []) }
{
    let path = Vec::from_slice(alloc, path)?;
    let leaves = trace(alloc, schema, top, first_slice(slices))?;
    let mut out = Vec::new(alloc);
    out.push(Segment { path, leaves })?;
    Ok(out)
}

/// The segments of a tree that stands at a path, in post-order.
#[tactic(auto, using(crate::proofs::Surveys::local_segments, crate::proofs::Surveys::sliced_segments))]
pub fn segments(
    alloc: Global,
    schema: &Schema,
    node: &Node,
    path: &[u8],
) -> Result<Vec<Segment>, Memory>
    ensures { IfOk result (λ out. out.items ≡ segments_of schema.now node.now path.now) }
{
    let here = grades_of(alloc, schema, node)?;
    match here.level {
        Level::Local => return Ok(Vec::new(alloc)),
        Level::Sliced => return segment(alloc, schema, node, here.slices.as_slice(), path),
        Level::Secure => {}
    }
    let only = longer(alloc, path, 0)?;
    match node {
        Node::Scan { .. } => Ok(Vec::new(alloc)),
        Node::Join { left, right, .. } => {
            let mut out = segments(alloc, schema, left.get(), only.as_slice())?;
            let other = longer(alloc, path, 1)?;
            let mut more = segments(alloc, schema, right.get(), other.as_slice())?;
            out.append(&mut more)?;
            Ok(out)
        }
        Node::Filter { child, .. }
        | Node::Project { child, .. }
        | Node::Group { child, .. }
        | Node::Count { child }
        | Node::Distinct { child }
        | Node::Number { child, .. }
        | Node::Top { child, .. } => segments(alloc, schema, child.get(), only.as_slice()),
    }
}

/// The segments of a plan: each largest Sliced part of its tree, in post-order. Of each it is known that its slices add up:
/// whatever the tables hold, the rows of its top are, as a bag, those of its slices, one for each value of its leaves' columns. Its one error is Memory.
pub fn levels(alloc: Global, schema: &Schema, plan: &Plan) -> Result<Staged, Memory>
    ensures segments { IfOk result (λ staged. staged ≡ segments_of schema.now plan.now.root []) }
    ensures sound { IfOk result (λ staged. AllByRecursion (IsSound schema.now plan.now.root)
        staged) }
{
    Ok(Staged {
        segments: segments(alloc, schema, &plan.root, &[])?,
    })
}
