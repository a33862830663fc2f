//! The values by which a segment is sliced at a site.
ghost use Rattle.std.specs.Prelude.{◌≡◌, ◌≤◌, ◌∷◌, ◌++◌, map, take, drop, length, IfOk, OnOk, IfSome, MatchOption};
ghost use Rattle.pdn_base.specs.Values.{cell};
ghost use Rattle.pdn_site.specs.Directories.{placed, ascending, traced_by, traced, directory};

use pdn_base::{Memory, Rows, Tables, Value};
use pdn_level::Leaf;
use std::alloc::Global;
use std::cmp::Ordering;

/// Where among ascending values a value is to be put; nowhere, where it is there.
fn place_of(values: &[Value], value: &Value) -> Option<usize>
    ensures place { MatchOption result (placed value.now values.now ≡ values.now)
        (λ i. placed value.now values.now ≡ take i values.now ++ value.now ∷ drop i values.now) }
    ensures within { IfSome result (λ i. i ≤ length values.now) }
{
    for i in 0..values.len() {
        match value.cmp(&values[i]) {
            Ordering::Less => return Some(i),
            Ordering::Equal => return None,
            Ordering::Greater => {}
        }
    }
    Some(values.len())
}

/// Puts a value at its place among ascending ones, where it isn't there yet.
fn place(values: &mut Vec<Value>, value: &Value) -> Result<(), Memory>
    ensures { OnOk result (values.new.items ≡ placed value.now values.old.items) }
{
    if let Some(i) = place_of(values.as_slice(), value) {
        values.insert(i, *value)?;
    }
    Ok(())
}

/// The values that occur, in ascending order, each once.
pub fn ascending(alloc: Global, values: &[Value]) -> Result<Vec<Value>, Memory>
    ensures { IfOk result (λ out. out.items ≡ ascending values.now) }
{
    let mut out = Vec::new(alloc);
    for i in 0..values.len() {
        place(&mut out, &values[values.len() - 1 - i])?;
    }
    Ok(out)
}

/// Adds the values that rows have in a column.
fn add_column(values: &mut Vec<Value>, rows: &Rows, column: u32) -> Result<(), Memory>
    ensures { OnOk result (values.new.items ≡ values.old.items
        ++ map (λ row. cell row column) rows.now) }
{
    for row in rows.as_slice() {
        values.push(row.cell(column))?;
    }
    Ok(())
}

/// Adds the values of a traced column.
fn add_leaf(values: &mut Vec<Value>, tables: &Tables, leaf: &Leaf) -> Result<(), Memory>
    ensures { OnOk result (values.new.items ≡ values.old.items ++ traced_by tables.now leaf.now) }
{
    match tables.lists.get(leaf.table as usize) {
        Some(rows) => add_column(values, rows, leaf.column),
        None => Ok(()),
    }
}

/// The values of traced columns in a site's tables.
#[tactic(auto, using(crate::proofs::DirectoryLaws::traced_next))]
fn traced(alloc: Global, tables: &Tables, leaves: &[Leaf]) -> Result<Vec<Value>, Memory>
    ensures { IfOk result (λ out. out.items ≡ traced tables.now leaves.now) }
{
    let mut values = Vec::new(alloc);
    for leaf in leaves {
        add_leaf(&mut values, tables, leaf)?;
    }
    Ok(values)
}

/// A site's directory of a segment with these leaves, from the site's unfiltered tables.
pub fn directory(alloc: Global, tables: &Tables, leaves: &[Leaf]) -> Result<Vec<Value>, Memory>
    ensures { IfOk result (λ out. out.items ≡ directory tables.now leaves.now) }
{
    let values = traced(alloc, tables, leaves)?;
    ascending(alloc, values.as_slice())
}
