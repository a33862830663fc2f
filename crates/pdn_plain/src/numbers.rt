//! The places of rows in their order.
ghost use Rattle.std.specs.Prelude.{◌≡◌, ◌<◌, ◌+◌, IfOk, count_by, length, take, slice_index_or, []};
ghost use Rattle.pdn_base.specs.Values.{same_row, cut};
ghost use Rattle.pdn_base.specs.Bags.{times};
ghost use Rattle.pdn_base.specs.Bounds.{IsShort};
ghost use Rattle.pdn_base.specs.Operators.{number_rows, top_rows, before_in, place_of, numbered_row};

use crate::groups::with_number;
use pdn_base::{Key, Memory, Row, Rows, rows_order, sort_rows};
use std::alloc::Global;
use std::cmp::Ordering;

/// The rows in their order, the first `limit` of them, all where there is no limit.
pub fn top(rows: Rows, order: &[Key], limit: Option<u32>) -> Result<Rows, Memory>
    ensures { IfOk result (λ first. first ≡ top_rows order.now limit rows) }
{
    let mut rows = sort_rows(rows, order)?.rows;
    if let Some(limit) = limit {
        rows.truncate(limit as usize);
    }
    Ok(Rows { rows })
}

/// Each row with its place among the rows of its partition; among equal rows the earlier in the list comes first.
pub fn number(alloc: Global, rows: &Rows, partition: &[u32], order: &[Key]) -> Result<Rows, Memory>
    requires short { IsShort rows.now }
    ensures { IfOk result (λ numbered. numbered ≡ number_rows partition.now order.now rows.now) }
{
    let rows = rows.as_slice();
    let mut numbered = Vec::new(alloc);
    for at in 0..rows.len() {
        numbered.push(numbered_at(alloc, rows, at, partition, order)?)?;
    }
    Ok(Rows { rows: numbered })
}

fn numbered_at(
    alloc: Global,
    rows: &[Row],
    at: usize,
    partition: &[u32],
    order: &[Key],
) -> Result<Row, Memory>
    requires within { at < length rows.now }
    requires short { IsShort rows.now }
    ensures { IfOk result (λ row. row ≡ numbered_row partition.now order.now rows.now
        (take at rows.now) (slice_index_or rows.now at [])) }
{
    let place = place_at(rows, at, partition, order);
    with_number(rows[at].copy(alloc)?, place)
}

fn place_at(rows: &[Row], at: usize, partition: &[u32], order: &[Key]) -> u32
    requires within { at < length rows.now }
    requires short { IsShort rows.now }
    ensures { result ≡ place_of partition.now order.now rows.now (take at rows.now)
        (slice_index_or rows.now at []) }
{
    1 + rows_before(rows, at, partition, order) as u32
}

/// How many rows come before one of them in its partition, earlier equal ones included.
fn rows_before(rows: &[Row], at: usize, partition: &[u32], order: &[Key]) -> usize
    requires within { at < length rows.now }
    ensures sum { let row = slice_index_or rows.now at [] in
        result ≡ count_by (before_in partition.now order.now
        row) rows.now + times same_row row (take at rows.now) }
    ensures bound { result < length rows.now }
{
    let row = &rows[at];
    let before = rows
        .iter()
        .filter(|other| comes_before(partition, order, other, row))
        .count();
    let equal = rows[..at].iter().filter(|other| row == *other).count();
    before + equal
}

/// Whether one row is of another's partition and comes before it.
fn comes_before(partition: &[u32], order: &[Key], row: &Row, other: &Row) -> bool
    ensures { result ≡ before_in partition.now order.now other.now row.now }
{
    same_cells(partition, other, row) && rows_order(order, row, other) == Ordering::Less
}

fn same_cells(columns: &[u32], x: &Row, y: &Row) -> bool
    ensures { result ≡ same_row (cut columns.now x.now) (cut columns.now y.now) }
{
    for column in columns {
        if x.cell(*column) != y.cell(*column) {
            return false;
        }
    }
    true
}
