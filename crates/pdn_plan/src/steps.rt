//! What a block does with the rows that it chose: which columns it keeps, its one step, and its items.

ghost use Rattle.std.specs.Prelude.{◌≡◌, ◌++◌, ◌+◌, [], length, map, IfOk};
ghost use Rattle.std.specs.List.{flat_map};
ghost use Rattle.pdn_tree.specs.Columns.{place_in};
ghost use Rattle.pdn_plan.specs.Names.{place};
ghost use Rattle.pdn_plan.specs.Steps.{firsts, is_count, counts, window_key, window_step, step_of, what_columns, items_columns, what_at, items_at, key_at};
ghost use Rattle.pdn_plan.specs.Planning.{named, kept, step_node, step_columns, step_width};
ghost use Rattle.pdn_plan.specs.declared.steps.Step.TheVariants as step;

use crate::Node;
use crate::names::{place, placed, places};
use crate::scope::{Bound, Seen};
use crate::split::{clauses_columns, has, left_over, needed_below, ons_columns, place_in};
use pdn_base::{Key, Memory};
use pdn_sql::{Block, Col, Item, OrderCol, What};
use pdn_tree::{make_count, make_group, make_number};
use sqlite_items::Items;
use std::alloc::Global;

/// What is done between the rows chosen and the items. Columns are named by their places in the row of all sources.
#[derive(Debug, Drop)]
pub enum Step {
    /// Each of these keys that occurs and how often, where that is at least `having`.
    Grouped {
        keys: Items<u32>,
        having: Option<u32>,
    },
    /// How many rows there are.
    Counted,
    /// Each row with its place among the rows of its partition.
    Numbered {
        partition: Items<u32>,
        order: Items<Key>,
    },
    /// Nothing.
    Unchanged,
}

fn is_count(what: &What) -> bool
    ensures { result ≡ is_count what.now }
{
    match what {
        What::Column(_) => false,
        What::Count => true,
        What::Number {
            partition: _,
            order: _,
        } => false,
    }
}

/// Whether an item is a count.
pub fn counts(items: &[Item]) -> bool
    ensures { result ≡ counts items.now }
{
    items.iter().any(
        |item: &Item| -> bool
            ensures { result ≡ is_count item.now.what }
        { is_count(&item.what) },
    )
}

fn window_keys(alloc: Global, scope: &[Seen], order: &[OrderCol]) -> Result<Vec<Key>, Memory>
    ensures { IfOk result (λ out. out.items ≡ map (window_key (place scope.now)) order.now) }
{
    let mut out = Vec::new(alloc);
    for by in order {
        let column = place(scope, &by.col)?;
        out.push(Key {
            column,
            down: by.down,
        })?;
    }
    Ok(out)
}

fn numbered(
    alloc: Global,
    scope: &[Seen],
    partition: &[Col],
    order: &[OrderCol],
) -> Result<Step, Memory>
    ensures { IfOk result (λ s. s ≡ step.Numbered (map (place scope.now) partition.now)
        (map (window_key (place scope.now)) order.now)) }
{
    let partition = places(alloc, scope, partition)?;
    let order = window_keys(alloc, scope, order)?;
    Ok(Step::Numbered {
        partition: Items::from_vec(partition),
        order: Items::from_vec(order),
    })
}

fn window_step(alloc: Global, scope: &[Seen], items: &[Item]) -> Result<Step, Memory>
    ensures { IfOk result (λ s. s ≡ window_step (place scope.now) items.now) }
{
    match items.split_first() {
        None => Ok(Step::Unchanged),
        Some((item, rest)) => match &item.what {
            What::Column(_) => window_step(alloc, scope, rest),
            What::Count => window_step(alloc, scope, rest),
            What::Number { partition, order } => {
                numbered(alloc, scope, partition.as_slice(), order.as_slice())
            }
        },
    }
}

fn firsts_after(before: Vec<u32>, columns: &[u32]) -> Result<Vec<u32>, Memory>
    ensures { IfOk result (λ out. out.items ≡ before.items
        ++ firsts (λ c. c) before.items columns.now) }
{
    match columns.split_first() {
        None => Ok(before),
        Some((column, rest)) => {
            if has(before.as_slice(), *column) {
                return firsts_after(before, rest);
            }
            let mut before = before;
            before.push(*column)?;
            firsts_after(before, rest)
        }
    }
}

/// Columns, each at its first mention.
pub fn firsts(alloc: Global, columns: &[u32]) -> Result<Vec<u32>, Memory>
    ensures { IfOk result (λ out. out.items ≡ firsts (λ c. c) [] columns.now) }
{
    firsts_after(Vec::new(alloc), columns)
}

/// The one step of a block.
pub fn step_of(alloc: Global, scope: &[Seen], block: &Block) -> Result<Step, Memory>
    ensures { IfOk result (λ s. s ≡ step_of (place scope.now) block.now) }
{
    let mentioned = places(alloc, scope, block.group.as_slice())?;
    if !mentioned.is_empty() {
        let keys = firsts(alloc, mentioned.as_slice())?;
        return Ok(Step::Grouped {
            keys: Items::from_vec(keys),
            having: block.having,
        });
    }
    if counts(block.items.as_slice()) {
        return Ok(Step::Counted);
    }
    window_step(alloc, scope, block.items.as_slice())
}

fn order_columns(alloc: Global, scope: &[Seen], order: &[OrderCol]) -> Result<Vec<u32>, Memory>
    ensures { IfOk result (λ out. out.items ≡ map (λ o. place scope.now o.col) order.now) }
{
    let mut out = Vec::new(alloc);
    for by in order {
        out.push(place(scope, &by.col)?)?;
    }
    Ok(out)
}

fn what_columns(alloc: Global, scope: &[Seen], what: &What) -> Result<Vec<u32>, Memory>
    ensures { IfOk result (λ out. out.items ≡ what_columns (place scope.now) what.now) }
{
    match what {
        What::Column(col) => {
            let mut out = Vec::new(alloc);
            out.push(place(scope, col)?)?;
            Ok(out)
        }
        What::Count => Ok(Vec::new(alloc)),
        What::Number { partition, order } => {
            let mut out = places(alloc, scope, partition.as_slice())?;
            let mut more = order_columns(alloc, scope, order.as_slice())?;
            out.append(&mut more)?;
            Ok(out)
        }
    }
}

fn items_columns(alloc: Global, scope: &[Seen], items: &[Item]) -> Result<Vec<u32>, Memory>
    ensures { IfOk result (λ out. out.items ≡ items_columns (place scope.now) items.now) }
{
    let mut out = Vec::new(alloc);
    for item in items {
        let mut more = what_columns(alloc, scope, &item.what)?;
        out.append(&mut more)?;
    }
    Ok(out)
}

/// The columns that are named in ON, in the WHERE clauses that no source takes, in GROUP BY and in items.
pub fn named_columns(
    alloc: Global,
    scope: &[Seen],
    bounds: &[Bound],
    block: &Block,
) -> Result<Vec<u32>, Memory>
    ensures { IfOk result (λ out. out.items ≡ named scope.now bounds.now block.now) }
{
    let asked = placed(alloc, scope, block.filter.as_slice())?;
    let left = left_over(alloc, 0, asked, bounds)?;
    let mut of_items = items_columns(alloc, scope, block.items.as_slice())?;
    let mut of_group = places(alloc, scope, block.group.as_slice())?;
    of_group.append(&mut of_items)?;
    let mut of_left = clauses_columns(alloc, &left)?;
    of_left.append(&mut of_group)?;
    let mut out = ons_columns(alloc, bounds)?;
    out.append(&mut of_left)?;
    Ok(out)
}

/// How many there are.
pub fn count_of<T>(list: &[T]) -> Result<u32, Memory>
    ensures { IfOk result (λ n. n ≡ length list.now) }
{
    match u32::try_from(list.len()) {
        Ok(n) => Ok(n),
        Err(_) => Err(Memory),
    }
}

/// The columns of all sources that are kept.
pub fn kept_columns(
    alloc: Global,
    scope: &[Seen],
    bounds: &[Bound],
    block: &Block,
) -> Result<Vec<u32>, Memory>
    ensures { IfOk result (λ out. out.items ≡ kept scope.now bounds.now block.now) }
{
    let needed = named_columns(alloc, scope, bounds, block)?;
    needed_below(alloc, needed.as_slice(), count_of(scope)?)
}

fn places_in(alloc: Global, kept: &[u32], columns: &[u32]) -> Result<Vec<u32>, Memory>
    ensures { IfOk result (λ out. out.items ≡ map (place_in kept.now) columns.now) }
{
    let mut out = Vec::new(alloc);
    for column in columns {
        out.push(place_in(kept, *column)?)?;
    }
    Ok(out)
}

fn keys_in(alloc: Global, kept: &[u32], order: &[Key]) -> Result<Vec<Key>, Memory>
    ensures { IfOk result (λ out. out.items ≡ map (key_at (place_in kept.now)) order.now) }
{
    let mut out = Vec::new(alloc);
    for key in order {
        let column = place_in(kept, key.column)?;
        out.push(Key {
            column,
            down: key.down,
        })?;
    }
    Ok(out)
}

/// A step above the tree that gives the columns that are kept.
pub fn make_step(alloc: Global, kept: &[u32], step: &Step, n: Node) -> Result<Node, Memory>
    ensures { IfOk result (λ tree. tree ≡ step_node kept.now step.now n) }
{
    match step {
        Step::Grouped { keys, having } => {
            let keys = places_in(alloc, kept, keys.as_slice())?;
            make_group(alloc, n, keys.as_slice(), *having)
        }
        Step::Counted => make_count(alloc, n),
        Step::Numbered { partition, order } => {
            let partition = places_in(alloc, kept, partition.as_slice())?;
            let order = keys_in(alloc, kept, order.as_slice())?;
            make_number(alloc, n, partition.as_slice(), order.as_slice())
        }
        Step::Unchanged => Ok(n),
    }
}

/// The places of which a step gives the columns first.
pub fn step_columns(alloc: Global, kept: &[u32], step: &Step) -> Result<Vec<u32>, Memory>
    ensures { IfOk result (λ out. out.items ≡ step_columns kept.now step.now) }
{
    match step {
        Step::Grouped { keys, having: _ } => Ok(Vec::from_slice(alloc, keys.as_slice())?),
        Step::Counted => Ok(Vec::new(alloc)),
        Step::Numbered {
            partition: _,
            order: _,
        } => Ok(Vec::from_slice(alloc, kept)?),
        Step::Unchanged => Ok(Vec::from_slice(alloc, kept)?),
    }
}

fn one_more(list: &[u32]) -> Result<u32, Memory>
    ensures { IfOk result (λ n. n ≡ length list.now + 1) }
{
    match count_of(list)?.checked_add(1) {
        Some(n) => Ok(n),
        None => Err(Memory),
    }
}

/// How many columns a step gives.
pub fn step_width(kept: &[u32], step: &Step) -> Result<u32, Memory>
    ensures { IfOk result (λ n. n ≡ step_width kept.now step.now) }
{
    match step {
        Step::Grouped { keys, having: _ } => one_more(keys.as_slice()),
        Step::Counted => Ok(1),
        Step::Numbered {
            partition: _,
            order: _,
        } => one_more(kept),
        Step::Unchanged => count_of(kept),
    }
}

fn what_at(scope: &[Seen], columns: &[u32], new: u32, what: &What) -> Result<u32, Memory>
    ensures { IfOk result (λ at. at ≡ what_at (λ c. place_in columns.now (place scope.now c)) new
        what.now) }
{
    match what {
        What::Column(col) => place_in(columns, place(scope, col)?),
        What::Count => Ok(new),
        What::Number {
            partition: _,
            order: _,
        } => Ok(new),
    }
}

/// Where each item stands in what a step gives: these columns, and then what is new.
pub fn items_at(
    alloc: Global,
    scope: &[Seen],
    columns: &[u32],
    items: &[Item],
) -> Result<Vec<u32>, Memory>
    ensures { IfOk result (λ out. out.items
        ≡ items_at (λ c. place_in columns.now (place scope.now c)) (length columns.now) items.now) }
{
    let new = count_of(columns)?;
    let mut out = Vec::new(alloc);
    for item in items {
        out.push(what_at(scope, columns, new, &item.what)?)?;
    }
    Ok(out)
}
