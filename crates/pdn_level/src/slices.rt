//! The slice columns of a tree, and the leaves to which one of them is traced.

ghost use Rattle.std.specs.Prelude.{◌≡◌, IfOk, map, ◌++◌, ◌&&◌, ◌==◌, ◌∷◌, [], false};
ghost use Rattle.std.specs.List.{list_any};
ghost use Rattle.pdn_tree.specs.Shapes.{is_public, table_columns};
ghost use Rattle.pdn_tree.specs.Columns.{has};
ghost use Rattle.pdn_level.specs.Links.{slice_at, names_column};
ghost use Rattle.pdn_level.specs.Slices.{linked, among};

use crate::links::{is_linked, links, slice_at};
use pdn_base::{Cond, Label, Memory};
use pdn_schema::{Column, Schema};
use pdn_tree::Node;
use std::alloc::Global;

fn is_public(label: Label) -> bool
    ensures { result ≡ is_public label }
{
    match label {
        Label::Public => true,
        Label::Protected => false,
        Label::Private => false,
    }
}

fn public_columns(alloc: Global, columns: &[Column]) -> Result<Vec<bool>, Memory>
    ensures { IfOk result (λ out. out.items ≡ map (λ c. is_public c.mark) columns.now) }
{
    Ok(
        columns
            .iter()
            .map(
                |column: &Column| -> bool
                    ensures { result ≡ is_public column.now.mark }
                { is_public(column.mark) },
            )
            .collect(alloc)?,
    )
}

pub fn scan_slices(alloc: Global, schema: &Schema, table: u32) -> Result<Vec<bool>, Memory>
    ensures { IfOk result (λ out. out.items ≡ map (λ c. is_public c.mark)
        (table_columns schema.now table)) }
{
    match schema.tables.get(table as usize) {
        None => Ok(Vec::new(alloc)),
        Some(t) => public_columns(alloc, t.columns.as_slice()),
    }
}

pub fn slices_at(alloc: Global, slices: &[bool], columns: &[u32]) -> Result<Vec<bool>, Memory>
    ensures { IfOk result (λ out. out.items ≡ map (slice_at slices.now) columns.now) }
{
    Ok(
        columns
            .iter()
            .map(
                |column: &u32| -> bool
                    ensures { result ≡ slice_at slices.entry.now column.now }
                { slice_at(slices, *column as usize) },
            )
            .collect(alloc)?,
    )
}

pub fn linked(alloc: Global, left: &[bool], right: &[bool], on: &Cond) -> Result<Vec<bool>, Memory>
    ensures { IfOk result (λ out. out.items ≡ linked left.now right.now on.now) }
{
    let links = links(alloc, left, right, on)?;
    let all = links.as_slice();
    let Some(total) = left.len().checked_add(right.len()) else {
        return Err(Memory);
    };
    let width = left.len();
    Ok(
        (0..total)
            .map(
                |column: usize| -> bool
                    ensures { result ≡ list_any (names_column width column) all.entry.now }
                { is_linked(all, width, column) },
            )
            .collect(alloc)?,
    )
}

fn has(columns: &[u32], column: usize) -> bool
    ensures { result ≡ has columns.now column }
{
    columns.iter().any(
        |c: &u32| -> bool
            ensures { result ≡ (c.now == column) }
        { *c as usize == column },
    )
}

pub fn partition_slices(
    alloc: Global,
    slices: &[bool],
    partition: &[u32],
) -> Result<Vec<bool>, Memory>
    ensures { IfOk result (λ out. out.items ≡ among partition.now slices.now) }
{
    Ok(
        (0..slices.len())
            .map(
                |column: usize| -> bool
                    ensures { result
                        ≡ (has partition.entry.now column && slice_at slices.entry.now column) }
                { has(partition, column) && slice_at(slices, column) },
            )
            .collect(alloc)?,
    )
}

pub fn no_slices(alloc: Global, slices: &[bool]) -> Result<Vec<bool>, Memory>
    ensures { IfOk result (λ out. out.items ≡ map (λ s. false) slices.now) }
{
    Ok(
        slices
            .iter()
            .map(
                |_: &bool| -> bool
                    ensures { result ≡ false }
                { false },
            )
            .collect(alloc)?,
    )
}

/// A last column, with a count or a place, which is no slice column.
pub fn with_count(slices: Vec<bool>) -> Result<Vec<bool>, Memory>
    ensures { IfOk result (λ out. out.items ≡ slices.items ++ false ∷ []) }
{
    let mut out = slices;
    out.push(false)?;
    Ok(out)
}
