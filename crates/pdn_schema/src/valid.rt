//! Which rows a table may hold.

ghost use Rattle.std.specs.Prelude.{◌≡◌, ◌<◌, ◌≤◌, ◌^◌, ◌-◌, ◌↔◌, ℕ, length, IsTrue, IsOk, IfErr, MatchOption};
ghost use Rattle.std.specs.List.{All};
ghost use Rattle.pdn_schema.specs.Models.{table_of};
ghost use Rattle.pdn_schema.specs.Rows.{value_kind, HasKinds, DifferAt, KeepEach, IsFirstWrong, IsFirstOver, IsValid, IsRefused, standing};

use crate::schema::{Column, Schema};
use pdn_base::{Kind, Label, Row, Rows, RowsErr, Value};

fn is_of_kind(value: &Value, kind: Kind) -> bool
    ensures { IsTrue result ↔ (value_kind value.now ≡ kind) }
{
    match (value, kind) {
        (Value::Int(_), Kind::Int) | (Value::Code(_), Kind::Code) => true,
        _ => false,
    }
}

/// The first column whose value has the wrong kind, or is missing or too many.
fn wrong_column(columns: &[Column], values: &[Value]) -> Option<u32>
    requires { length columns.now ≤ 8 }
    ensures { MatchOption result (HasKinds columns.now values.now)
        (DifferAt columns.now values.now) }
{
    for (i, column) in columns.iter().enumerate() {
        let Some(value) = values.get(i) else {
            return Some(i as u32);
        };
        if !is_of_kind(value, column.kind) {
            return Some(i as u32);
        }
    }
    if columns.len() < values.len() {
        return Some(columns.len() as u32);
    }
    None
}

/// In how many rows a number stands in a column.
pub fn count_of(rows: &[Row], column: u32, number: u64) -> usize
    ensures is { result ≡ standing column number rows.now }
    ensures within { result ≤ length rows.now }
{
    let mut count = 0;
    for row in rows {
        if row.cell(column).number() == number {
            count += 1;
        }
    }
    count
}

/// Whether some value of a column stands in more rows than these.
fn is_over(rows: &[Row], column: u32, per: u32) -> bool
    ensures { IsTrue result ↔ ((number : ℕ) × (per < standing column number rows.now)) }
{
    for row in rows {
        if (per as usize) < count_of(rows, column, row.cell(column).number()) {
            return true;
        }
    }
    false
}

/// The first public column with a value that stands in too many rows.
fn column_over(columns: &[Column], rows: &[Row]) -> Option<u32>
    requires { length columns.now ≤ 8 }
    ensures { MatchOption result (KeepEach columns.now rows.now)
        (IsFirstOver columns.now rows.now) }
{
    for (i, column) in columns.iter().enumerate() {
        if column.mark == Label::Public && is_over(rows, i as u32, column.per) {
            return Some(i as u32);
        }
    }
    None
}

/// The first row that doesn't have the columns' width and kinds, and the first column that differs.
fn wrong_row(columns: &[Column], rows: &[Row]) -> Option<(u32, u32)>
    requires columns_few { length columns.now ≤ 8 }
    requires rows_few { length rows.now < 2 ^ 32 - 1 }
    ensures { MatchOption result (All (HasKinds columns.now) rows.now)
        (λ at. IsFirstWrong columns.now rows.now at.0 at.1) }
{
    for (i, row) in rows.iter().enumerate() {
        if let Some(column) = wrong_column(columns, row.values()) {
            return Some((i as u32, column));
        }
    }
    None
}

/// Whether rows are valid for a table of a schema: each has the table's width and kinds, there are not more than the
/// table's bound, and no value of a public column stands in more than that column's. It takes no memory.
///
/// The first row with a wrong type is answered before too many rows, and these before the first column with a value
/// that stands in too many.
pub fn valid_rows(schema: &Schema, table: u32, rows: &Rows) -> Result<(), RowsErr>
    requires in_range { table < length schema.now.tables }
    requires rows_few { length rows.now < 2 ^ 32 - 1 }
    ensures ok { IsOk result ↔ IsValid (table_of schema.now table) rows.now }
    ensures refused { IfErr result (IsRefused (table_of schema.now table) rows.now) }
{
    let table = schema.table(table);
    if let Some((row, column)) = wrong_row(&table.columns, &rows.rows) {
        return Err(RowsErr::WrongType { row, column });
    }
    if (table.rows as usize) < rows.rows.len() {
        return Err(RowsErr::TooMany);
    }
    if let Some(column) = column_over(&table.columns, &rows.rows) {
        return Err(RowsErr::PerValue(column));
    }
    Ok(())
}
