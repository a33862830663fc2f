//! The columns of an answer: their names, kinds and labels, and the first that may not be shown.

ghost use Rattle.std.specs.Prelude.{◌≡◌, ◌++◌, ◌∷◌, [], None, slice_get, map, IfOk, MatchResult};
ghost use Rattle.pdn_tree.specs.Shapes.{labels};
ghost use Rattle.pdn_tree.specs.Columns.{has};
ghost use Rattle.pdn_plan.specs.Steps.{output_name, name_place, order_key, order_keys, firsts};
ghost use Rattle.pdn_plan.specs.Planning.{seen_text, shown_as, what_kind, out_columns};
ghost use Rattle.pdn_tree.specs.Plans.{forbidden};
ghost use Rattle.pdn_plan.specs.Keeping.{Forbids};

use crate::Node;
use crate::block::what_kind;
use crate::names::place;
use crate::plan_err::PlanErr;
use crate::refusals::output_name;
use crate::scope::Seen;
use crate::split::has;
use pdn_base::{ColumnName, Key, Label, Memory, Name};
use pdn_schema::Schema;
use pdn_sql::{Item, OrderName, Text, What};
use pdn_tree::{OutColumn, is_public, label_at, labels_of};
use std::alloc::Global;

/// A name as a refusal or a plan speaks it. One that is no UTF-8, which no query has, is answered as want of memory.
pub fn shown(alloc: Global, text: &Text) -> Result<ColumnName, Memory>
    ensures { IfOk result (λ name. name ≡ text.now) }
{
    match str::from_utf8(text.as_bytes()) {
        Ok(text) => Name::new(alloc, text),
        Err(_) => Err(Memory),
    }
}

fn seen_text(alloc: Global, scope: &[Seen], at: u32) -> Result<Text, Memory>
    ensures { IfOk result (λ text. text ≡ seen_text (slice_get scope.now at)) }
{
    match scope.get(at as usize) {
        None => Ok(Text::of(Vec::new(alloc))),
        Some(seen) => {
            let mut bytes = Vec::from_slice(alloc, seen.of.as_bytes())?;
            bytes.push(46)?;
            bytes.extend_from_slice(seen.name.as_bytes())?;
            Ok(Text::of(bytes))
        }
    }
}

fn shown_as(alloc: Global, scope: &[Seen], what: &What, name: &Text) -> Result<Text, Memory>
    ensures { IfOk result (λ text. text ≡ shown_as scope.now what.now name.now) }
{
    match what {
        What::Column(col) => seen_text(alloc, scope, place(scope, col)?),
        What::Count => Ok(name.copy(alloc)?),
        What::Number {
            partition: _,
            order: _,
        } => Ok(name.copy(alloc)?),
    }
}

fn out_column(alloc: Global, scope: &[Seen], label: Label, item: &Item) -> Result<OutColumn, Memory>
    ensures { IfOk result (λ c. c ≡ record {
      name = output_name item.now;
      source = shown_as scope.now item.now.what (output_name
          item.now);
      kind = what_kind scope.now item.now.what;
      label = label;
    }) }
{
    let output = output_name(alloc, item)?;
    let source = shown_as(alloc, scope, &item.what, &output)?;
    let name = shown(alloc, &output)?;
    Ok(OutColumn {
        name,
        source: shown(alloc, &source)?,
        kind: what_kind(scope, &item.what),
        label,
    })
}

fn out_columns(
    alloc: Global,
    scope: &[Seen],
    labels: &[Label],
    at: u32,
    items: &[Item],
) -> Result<Vec<OutColumn>, Memory>
    ensures { IfOk result (λ out. out.items ≡ out_columns scope.now labels.now at items.now) }
{
    match items.split_first() {
        None => Ok(Vec::new(alloc)),
        Some((item, rest)) => {
            let mut out = Vec::new(alloc);
            out.push(out_column(alloc, scope, label_at(labels, at), item)?)?;
            if at == u32::MAX {
                return Err(Memory);
            }
            let mut more = out_columns(alloc, scope, labels, at + 1, rest)?;
            out.append(&mut more)?;
            Ok(out)
        }
    }
}

/// The columns of the answer that a tree gives.
pub fn answer_columns(
    alloc: Global,
    schema: &Schema,
    scope: &[Seen],
    root: &Node,
    items: &[Item],
) -> Result<Vec<OutColumn>, Memory>
    ensures { IfOk result (λ out. out.items ≡ out_columns scope.now (labels schema.now root.now) 0
        items.now) }
{
    let labels = labels_of(alloc, schema, root)?;
    out_columns(alloc, scope, labels.as_slice(), 0, items)
}

fn copy_name(alloc: Global, name: &ColumnName) -> Result<ColumnName, Memory>
    ensures { IfOk result (λ n. n ≡ name.now) }
{
    Name::new(alloc, name.as_str())
}

/// Stops at the first column that isn't public.
pub fn released(alloc: Global, columns: &[OutColumn]) -> Result<(), PlanErr>
    ensures { MatchResult result (λ _. forbidden columns.now ≡ None)
        (Forbids (forbidden columns.now)) }
{
    match columns.split_first() {
        None => Ok(()),
        Some((column, rest)) => {
            if is_public(column.label) {
                return released(alloc, rest);
            }
            let source = copy_name(alloc, &column.source)?;
            Err(PlanErr::Forbidden {
                column: source,
                label: column.label,
            })
        }
    }
}

fn name_place(outputs: &[Text], name: &Text) -> Result<u32, Memory>
    ensures { IfOk result (λ at. at ≡ name_place outputs.now name.now) }
{
    match outputs.split_first() {
        None => Ok(0),
        Some((output, rest)) => {
            if name.as_bytes() == output.as_bytes() {
                return Ok(0);
            }
            let after = name_place(rest, name)?;
            if after == u32::MAX {
                return Err(Memory);
            }
            Ok(after + 1)
        }
    }
}

fn keys_after(
    alloc: Global,
    outputs: &[Text],
    before: Vec<u32>,
    order: &[OrderName],
) -> Result<Vec<Key>, Memory>
    ensures { IfOk result (λ out. out.items ≡ firsts (λ k. k.column) before.items
        (map (order_key outputs.now) order.now)) }
{
    match order.split_first() {
        None => Ok(Vec::new(alloc)),
        Some((by, rest)) => {
            let column = name_place(outputs, &by.name.text)?;
            if has(before.as_slice(), column) {
                return keys_after(alloc, outputs, before, rest);
            }
            let mut before = before;
            before.push(column)?;
            let mut out = Vec::new(alloc);
            out.push(Key {
                column,
                down: by.down,
            })?;
            let mut more = keys_after(alloc, outputs, before, rest)?;
            out.append(&mut more)?;
            Ok(out)
        }
    }
}

/// The columns by which an answer is ordered, each at its first mention.
pub fn order_keys(alloc: Global, outputs: &[Text], order: &[OrderName]) -> Result<Vec<Key>, Memory>
    ensures { IfOk result (λ out. out.items ≡ order_keys outputs.now order.now) }
{
    keys_after(alloc, outputs, Vec::new(alloc), order)
}
