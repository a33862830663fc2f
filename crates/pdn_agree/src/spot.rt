//! Where two lists of tables differ in what is public of them.
ghost use Rattle.std.specs.Prelude.{◌≡◌, ◌≤◌, ◌<◌, ◌↔◌, ℕ, [], true, false, length, get_or, option_map};
ghost use Rattle.std.specs.Prelude.{IsTrue, MatchOption};
ghost use Rattle.pdn_schema.specs.Models.{table_of};
ghost use Rattle.pdn_tree.specs.Shapes.{is_public};
ghost use Rattle.pdn_site.specs.Directories.{stands_in};
ghost use Rattle.pdn_agree.specs.Agreement.{SameValues};
ghost use Rattle.pdn_agree.specs.Spots.{IsSpot, as_leaf};
ghost use Rattle.pdn_agree.specs.Columns.{column_values, all_stand, SameIfPublic, IsFirstColumn};

use pdn_base::{Row, Tables, Value};
use pdn_schema::{Column, Schema};
use pdn_tree::is_public;

/// A place of a schema: a table, and a column of it.
#[derive(Clone, Copy, Debug, PartialEq, Eq)]
pub struct Spot {
    pub table: u32,
    pub column: u32,
}

// Whether a value stands in a column.
fn stands_in(rows: &[Row], column: u32, value: &Value) -> bool
    ensures { result ≡ stands_in (column_values rows.now column) value.now }
{
    for row in rows {
        if *value == row.cell(column) {
            return true;
        }
    }
    false
}

// Whether all values of a column of these rows stand in that column of the others.
fn all_stand(rows: &[Row], others: &[Row], column: u32) -> bool
    ensures { result ≡
        all_stand (column_values rows.now column) (column_values others.now column) }
{
    for row in rows {
        let value = row.cell(column);
        if !stands_in(others, column, &value) {
            return false;
        }
    }
    true
}

// Whether a column has the same set of values in both.
fn same_values(first: &[Row], second: &[Row], column: u32) -> bool
    ensures { IsTrue result ↔
        SameValues (column_values first.now column) (column_values second.now column) }
{
    all_stand(first, second, column) && all_stand(second, first, column)
}

// Whether a column is public and its values differ.
fn differs(column: &Column, first: &[Row], second: &[Row], at: u32) -> bool
    ensures public { result ≡ true → is_public column.now.mark ≡ true }
    ensures differs { result ≡ true →
        SameValues (column_values first.now at) (column_values second.now at) → ⊥ }
    ensures same { result ≡ false → is_public column.now.mark ≡ true →
        SameValues (column_values first.now at) (column_values second.now at) }
{
    is_public(column.mark) && !same_values(first, second, at)
}

// The first public column whose values differ.
fn first_column(columns: &[Column], first: &[Row], second: &[Row]) -> Option<u32>
    requires few { length columns.now ≤ 8 }
    ensures { MatchOption result
        ((i : ℕ) → SameIfPublic columns.now first.now second.now i)
        (IsFirstColumn columns.now first.now second.now) }
{
    for (i, column) in columns.iter().enumerate() {
        if differs(column, first, second, i as u32) {
            return Some(i as u32);
        }
    }
    None
}

fn table_count(schema: &Schema) -> u32
    ensures { result ≡ length schema.now.tables }
{
    schema.tables.len() as u32
}

fn columns_of(schema: &Schema, table: u32) -> &[Column]
    requires { table < length schema.now.tables }
    ensures are { result.now ≡ (table_of schema.now table).columns }
    ensures few { length result.now ≤ 8 }
{
    schema.table(table).columns.as_slice()
}

fn rows_of(tables: &Tables, table: u32) -> &[Row]
    requires { table < length tables.now }
    ensures { result.now ≡ get_or tables.now table [] }
{
    tables.lists[table as usize].as_slice()
}

/// The first public column, by table and in a table by column, in which the sets of values of two
/// lists of tables differ; none exactly where they are equal in every public column. How often a
/// value stands there is not compared. Each has one list of rows for each table of the schema.
pub fn disagree(schema: &Schema, first: &Tables, second: &Tables) -> Option<Spot>
    requires first { length first.now ≡ length schema.now.tables }
    requires second { length second.now ≡ length schema.now.tables }
    ensures { IsSpot schema.now first.now second.now (option_map as_leaf result) }
{
    for table in 0..table_count(schema) {
        let columns = columns_of(schema, table);
        let (left, right) = (rows_of(first, table), rows_of(second, table));
        if let Some(column) = first_column(columns, left, right) {
            return Some(Spot { table, column });
        }
    }
    None
}
