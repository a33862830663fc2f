//! Why a block is refused once its sources stand, and the refusals of names that a block gives.

ghost use Rattle.std.specs.Prelude.{◌≡◌, ◌||◌, ◌&&◌, IfOk, List, ℕ, [], ◌∷◌, map, count_by, is_some};
ghost use Rattle.std.specs.Str.{bytes_eq};
ghost use Rattle.std.specs.List.{list_any};
ghost use Rattle.pdn_schema.specs.Names.{is_among};
ghost use Rattle.pdn_tree.specs.Columns.{has};
ghost use Rattle.pdn_plan.specs.Names.{first, first_of, or_else, refuse_if, by_count, col_refusal, place};
ghost use Rattle.pdn_plan.specs.Steps.{is_number, what_name, output_name};
ghost use Rattle.pdn_plan.specs.Binding.{what_refusal, items_refusal, is_loose, is_some_of, is_grouped, loose_refusal, is_counted, is_wide, after_given, repeat_refusal, order_refusal};

use crate::names::{by_count, col_refusal, cols_refusal, cond_refusal, place, places, refuse_if};
use crate::scope::{Bound, Refusal, Seen};
use crate::split::has;
use crate::steps::{counts, kept_columns, step_of, step_width};
use pdn_base::Memory;
use pdn_sql::{Block, Col, Item, Named, OrderCol, OrderName, Text, What};
use std::alloc::Global;

fn window_refusal(
    alloc: Global,
    scope: &[Seen],
    order: &[OrderCol],
) -> Result<Option<Refusal>, Memory>
    ensures { IfOk result (λ r. r ≡ first_of (λ o. col_refusal scope.now o.col) order.now) }
{
    match order.split_first() {
        None => Ok(None),
        Some((by, rest)) => {
            let here = col_refusal(alloc, scope, &by.col)?;
            if here.is_some() {
                return Ok(here);
            }
            window_refusal(alloc, scope, rest)
        }
    }
}

fn what_refusal(alloc: Global, scope: &[Seen], what: &What) -> Result<Option<Refusal>, Memory>
    ensures { IfOk result (λ r. r ≡ what_refusal scope.now what.now) }
{
    match what {
        What::Column(col) => col_refusal(alloc, scope, col),
        What::Count => Ok(None),
        What::Number { partition, order } => {
            let of_partition = cols_refusal(alloc, scope, partition.as_slice())?;
            if of_partition.is_some() {
                return Ok(of_partition);
            }
            window_refusal(alloc, scope, order.as_slice())
        }
    }
}

fn items_refusal(alloc: Global, scope: &[Seen], items: &[Item]) -> Result<Option<Refusal>, Memory>
    ensures { IfOk result (λ r. r ≡ items_refusal scope.now items.now) }
{
    match items.split_first() {
        None => Ok(None),
        Some((item, rest)) => {
            let here = what_refusal(alloc, scope, &item.what)?;
            if here.is_some() {
                return Ok(here);
            }
            items_refusal(alloc, scope, rest)
        }
    }
}

fn is_some_of<T>(list: &[T]) -> bool
    ensures { result ≡ is_some_of list.now }
{
    match list.split_first() {
        None => false,
        Some(_) => true,
    }
}

fn is_grouped(block: &Block) -> bool
    ensures { result ≡ is_grouped block.now }
{
    is_some_of(block.group.as_slice()) || counts(block.items.as_slice())
}

fn is_number(what: &What) -> bool
    ensures { result ≡ is_number what.now }
{
    match what {
        What::Column(_) => false,
        What::Count => false,
        What::Number {
            partition: _,
            order: _,
        } => true,
    }
}

fn numbers(items: &[Item]) -> bool
    ensures { result ≡ list_any (λ i. is_number i.what) items.now }
{
    items.iter().any(
        |item: &Item| -> bool
            ensures { result ≡ is_number item.now.what }
        { is_number(&item.what) },
    )
}

/// Whether a block has a COUNT, GROUP BY or ROW_NUMBER.
pub fn is_counted(block: &Block) -> bool
    ensures { result ≡ is_counted block.now }
{
    is_grouped(block) || numbers(block.items.as_slice())
}

fn what_name(alloc: Global, what: &What) -> Result<Text, Memory>
    ensures { IfOk result (λ name. name ≡ what_name what.now) }
{
    match what {
        What::Column(col) => Ok(col.name.text.copy(alloc)?),
        What::Count => Ok(Text::of(Vec::from_slice(alloc, b"count".as_slice())?)),
        What::Number {
            partition: _,
            order: _,
        } => Ok(Text::of(Vec::from_slice(alloc, b"row_number".as_slice())?)),
    }
}

/// The name of an item in what the block gives.
pub fn output_name(alloc: Global, item: &Item) -> Result<Text, Memory>
    ensures { IfOk result (λ name. name ≡ output_name item.now) }
{
    match &item.alias {
        None => what_name(alloc, &item.what),
        Some(alias) => Ok(alias.text.copy(alloc)?),
    }
}

/// The name of each item in what the block gives.
pub fn output_names(alloc: Global, items: &[Item]) -> Result<Vec<Text>, Memory>
    ensures { IfOk result (λ out. out.items ≡ map output_name items.now) }
{
    let mut out = Vec::new(alloc);
    for item in items {
        out.push(output_name(alloc, item)?)?;
    }
    Ok(out)
}

fn is_loose(scope: &[Seen], keys: &[Col], mentioned: &[u32], what: &What) -> Result<bool, Memory>
    requires { mentioned.now ≡ map (place scope.now) keys.now }
    ensures { IfOk result (λ b. b ≡ is_loose scope.now keys.now what.now) }
{
    match what {
        What::Column(col) => Ok(!has(mentioned, place(scope, col)?)),
        What::Count => Ok(false),
        What::Number {
            partition: _,
            order: _,
        } => Ok(true),
    }
}

fn loose_item(
    alloc: Global,
    scope: &[Seen],
    keys: &[Col],
    mentioned: &[u32],
    item: &Item,
) -> Result<Option<Refusal>, Memory>
    requires { mentioned.now ≡ map (place scope.now) keys.now }
    ensures { IfOk result (λ r. r ≡ refuse_if (is_loose scope.now keys.now item.now.what) 6
        (output_name item.now)) }
{
    let cause = is_loose(scope, keys, mentioned, &item.what)?;
    let name = output_name(alloc, item)?;
    refuse_if(alloc, cause, 6, &name)
}

fn loose_items(
    alloc: Global,
    scope: &[Seen],
    keys: &[Col],
    mentioned: &[u32],
    items: &[Item],
) -> Result<Option<Refusal>, Memory>
    requires { mentioned.now ≡ map (place scope.now) keys.now }
    ensures { IfOk result (λ r. r
        ≡ first_of (λ i. refuse_if (is_loose scope.now keys.now i.what) 6
        (output_name i)) items.now) }
{
    match items.split_first() {
        None => Ok(None),
        Some((item, rest)) => {
            let here = loose_item(alloc, scope, keys, mentioned, item)?;
            if here.is_some() {
                return Ok(here);
            }
            loose_items(alloc, scope, keys, mentioned, rest)
        }
    }
}

fn loose_refusal(alloc: Global, scope: &[Seen], block: &Block) -> Result<Option<Refusal>, Memory>
    ensures { IfOk result (λ r. r ≡ loose_refusal (is_grouped block.now) scope.now block.now) }
{
    if !is_grouped(block) {
        return Ok(None);
    }
    let keys = block.group.as_slice();
    let mentioned = places(alloc, scope, keys)?;
    loose_items(
        alloc,
        scope,
        keys,
        mentioned.as_slice(),
        block.items.as_slice(),
    )
}

fn is_wide(alloc: Global, scope: &[Seen], bounds: &[Bound], block: &Block) -> Result<bool, Memory>
    ensures { IfOk result (λ b. b ≡ is_wide scope.now bounds.now block.now) }
{
    let kept = kept_columns(alloc, scope, bounds, block)?;
    let step = step_of(alloc, scope, block)?;
    let width = step_width(kept.as_slice(), &step)?;
    Ok(16 < kept.len() || (16 < width || 16 < block.items.len()))
}

fn after_names(
    alloc: Global,
    scope: &[Seen],
    bounds: &[Bound],
    block: &Block,
    joins: bool,
) -> Result<Option<Refusal>, Memory>
    ensures { IfOk result (λ r. r ≡ first (loose_refusal (is_grouped block.now) scope.now block.now
        ∷ refuse_if (is_counted block.now && joins) 5 [] ∷ refuse_if (is_wide scope.now bounds.now
        block.now) 9 [] ∷ [])) }
{
    let loose = loose_refusal(alloc, scope, block)?;
    if loose.is_some() {
        return Ok(loose);
    }
    let nameless = Text::of(Vec::new(alloc));
    let joined = refuse_if(alloc, is_counted(block) && joins, 5, &nameless)?;
    if joined.is_some() {
        return Ok(joined);
    }
    let wide = is_wide(alloc, scope, bounds, block)?;
    refuse_if(alloc, wide, 9, &nameless)
}

/// Why a block is refused, its sources apart: its names, what can't stand beside a count, a count where `joins` says that a
/// Join is below, or a node of more than 16 columns. The plans of the sources are not looked at.
pub fn after_sources(
    alloc: Global,
    scope: &[Seen],
    bounds: &[Bound],
    block: &Block,
    joins: bool,
) -> Result<Option<Refusal>, Memory>
    ensures { IfOk result (λ r. r ≡ after_given joins scope.now bounds.now block.now) }
{
    let asked = cond_refusal(alloc, scope, block.filter.as_slice())?;
    if asked.is_some() {
        return Ok(asked);
    }
    let keys = cols_refusal(alloc, scope, block.group.as_slice())?;
    if keys.is_some() {
        return Ok(keys);
    }
    let items = items_refusal(alloc, scope, block.items.as_slice())?;
    if items.is_some() {
        return Ok(items);
    }
    after_names(alloc, scope, bounds, block, joins)
}

/// Whether a name is one of these.
pub fn is_among(names: &[Text], name: &Text) -> bool
    ensures { result ≡ is_among names.now name.now }
{
    names.iter().any(
        |other: &Text| -> bool
            ensures { result ≡ bytes_eq name.entry.now other.now }
        { name.as_bytes() == other.as_bytes() },
    )
}

fn repeat_after(alloc: Global, before: Vec<Text>, names: &[Text]) -> Result<Option<Refusal>, Memory>
    ensures { IfOk result (λ r. r ≡ repeat_refusal before.items names.now) }
{
    match names.split_first() {
        None => Ok(None),
        Some((name, rest)) => {
            let taken = is_among(before.as_slice(), name);
            let here = refuse_if(alloc, taken, 3, name)?;
            if here.is_some() {
                return Ok(here);
            }
            let mut before = before;
            before.push(name.copy(alloc)?)?;
            repeat_after(alloc, before, rest)
        }
    }
}

/// The first name that was there before.
pub fn repeat_refusal(alloc: Global, names: &[Text]) -> Result<Option<Refusal>, Memory>
    ensures { IfOk result (λ r. r ≡ repeat_refusal [] names.now) }
{
    repeat_after(alloc, Vec::new(alloc), names)
}

fn count_named(outputs: &[Text], name: &Text) -> usize
    ensures { result ≡ count_by (bytes_eq name.now) outputs.now }
{
    outputs
        .iter()
        .filter(
            |output: &&Text| -> bool
                ensures { result ≡ bytes_eq name.entry.now output.now.now }
            { name.as_bytes() == output.as_bytes() },
        )
        .count()
}

fn order_refusal(alloc: Global, outputs: &[Text], by: &OrderName) -> Result<Option<Refusal>, Memory>
    ensures { IfOk result (λ r. r ≡ order_refusal outputs.now by.now) }
{
    let name = by.name.text.copy(alloc)?;
    Ok(by_count(count_named(outputs, &by.name.text), name))
}

/// The first name of an order that isn't exactly one output name.
pub fn order_refusals(
    alloc: Global,
    outputs: &[Text],
    order: &[OrderName],
) -> Result<Option<Refusal>, Memory>
    ensures { IfOk result (λ r. r ≡ first_of (order_refusal outputs.now) order.now) }
{
    match order.split_first() {
        None => Ok(None),
        Some((by, rest)) => {
            let here = order_refusal(alloc, outputs, by)?;
            if here.is_some() {
                return Ok(here);
            }
            order_refusals(alloc, outputs, rest)
        }
    }
}

/// A block of WITH has no order and no limit.
pub fn kind_seven(alloc: Global, named: &Named) -> Result<Option<Refusal>, Memory>
    ensures { IfOk result (λ r. r
        ≡ refuse_if (is_some_of named.now.block.order || is_some
        named.now.block.limit) 7 named.now.name.text) }
{
    let listed = is_some_of(named.block.order.as_slice()) || named.block.limit.is_some();
    refuse_if(alloc, listed, 7, &named.name.text)
}
