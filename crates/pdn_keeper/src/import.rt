//! The rows of a CSV text.
ghost use Rattle.std.specs.Prelude.{◌≡◌, ◌<◌, ◌≤◌, ◌-◌, ◌^◌, ◌+◌, map, length, Ok, Some, option_map, IfOk, MatchResult};
ghost use Rattle.std.specs.List.{All};
ghost use Rattle.std.specs.Str.{bytes_eq};
ghost use Rattle.csv.specs.Reading.{records as records_of, default_config, strip_bom};
ghost use Rattle.csv.specs.Records.{fields_of, field_at};
ghost use Rattle.pdn_base.specs.Bounds.{IsShort};
ghost use Rattle.pdn_schema.specs.Models.{table_of};
ghost use Rattle.pdn_schema.specs.Rows.{HasKinds};
ghost use Rattle.pdn_keeper.specs.Import.{value_in, row_in, row_or_cause, rows_after, is_header, imported, OrMemory};

use crate::cause::{Cause, CsvErr};
use crate::records::records;
use csv::ByteRecord;
use pdn_base::{Code, Kind, Memory, Row, Rows, Value, number};
use pdn_schema::{Column, Schema};
use std::alloc::Global;

/// The rows of a CSV text for a table of a schema. Fields are separated by commas and may stand in double quotes; a byte
/// order mark at the start and empty lines are passed over.
///
/// The first record is the table's column names in order; each later one is a row, with a field for each column: an int
/// is 1 to 10 decimal digits up to 4294967295, a code its text. The first record that can't stand is refused, with the
/// least cause there.
pub fn import_csv(alloc: Global, schema: &Schema, table: u32, bytes: &[u8]) -> Result<Rows, CsvErr>
    requires in_range { table < length schema.now.tables }
    requires short { IsShort bytes.now }
    ensures rows { MatchResult result (λ rows. imported (table_of schema.now table).columns
        (records_of default_config (strip_bom bytes.now)) ≡ Ok rows)
        (OrMemory (imported (table_of schema.now table).columns (records_of default_config (strip_bom bytes.now)))) }
    ensures kinds { IfOk result (λ rows. All (HasKinds (table_of schema.now table).columns) rows) }
    ensures few { IfOk result (λ rows. IsShort rows) }
{
    let records = records(alloc, bytes)?;
    rows_of(alloc, &schema.table(table).columns, &records)
}

/// The rows of a table's records, of which the first is the header.
fn rows_of(alloc: Global, columns: &[Column], records: &[ByteRecord]) -> Result<Rows, CsvErr>
    requires columns_few { length columns.now ≤ 8 }
    requires short { length records.now < 2 ^ 32 }
    ensures rows { MatchResult result (λ rows. imported columns.now (map fields_of records.now)
        ≡ Ok rows)
        (OrMemory (imported columns.now (map fields_of records.now))) }
    ensures kinds { IfOk result (λ rows. All (HasKinds columns.now) rows) }
    ensures few { IfOk result (λ rows. length rows + 1 ≤ length records.now) }
{
    let refused = CsvErr::At {
        entry: 0,
        cause: Cause::Header.number(),
    };
    let Some((header, rest)) = records.split_first() else {
        return Err(refused);
    };
    if !heads(columns, header) {
        return Err(refused);
    }
    rows_below(alloc, columns, rest)
}

/// The rows of the records below the header.
fn rows_below(alloc: Global, columns: &[Column], records: &[ByteRecord]) -> Result<Rows, CsvErr>
    requires columns_few { length columns.now ≤ 8 }
    requires short { length records.now + 1 < 2 ^ 32 }
    ensures rows { MatchResult result (λ rows. rows_after columns.now 1 (map fields_of records.now)
        ≡ Ok rows)
        (OrMemory (rows_after columns.now 1 (map fields_of records.now))) }
    ensures kinds { IfOk result (λ rows. All (HasKinds columns.now) rows) }
    ensures few { IfOk result (λ rows. length rows ≤ length records.now) }
{
    let mut rows = Vec::new(alloc);
    for (i, entry) in records.iter().enumerate() {
        match row_of(alloc, columns, entry)? {
            Ok(row) => rows.push(row)?,
            Err(cause) => {
                return Err(CsvErr::At {
                    entry: i as u32 + 1,
                    cause: cause.number(),
                });
            }
        }
    }
    Ok(Rows { rows })
}

/// The row of a record, or the least cause why it is none.
fn row_of(
    alloc: Global,
    columns: &[Column],
    entry: &ByteRecord,
) -> Result<Result<Row, Cause>, Memory>
    requires { length columns.now ≤ 8 }
    ensures { IfOk result (λ row. row ≡ row_or_cause columns.now (fields_of entry.now)) }
{
    if columns.len() != entry.len() {
        return Ok(Err(Cause::Width));
    }
    match values_of(alloc, columns, entry)? {
        Some(row) => Ok(Ok(row)),
        None => Ok(Err(Cause::Field)),
    }
}

/// The row of a record that has a field for each column, or none where some field is no value of its column.
fn values_of(alloc: Global, columns: &[Column], entry: &ByteRecord) -> Result<Option<Row>, Memory>
    requires { length columns.now ≤ 8 }
    ensures { IfOk result (λ row. row ≡ row_in columns.now (fields_of entry.now)) }
{
    let mut values = Vec::new(alloc);
    for (i, column) in columns.iter().enumerate() {
        let Some(field) = entry.get(i) else {
            return Ok(None);
        };
        let Some(value) = value_of(field, column.kind) else {
            return Ok(None);
        };
        values.push(value)?;
    }
    Ok(Some(Row { values }))
}

/// The value of this kind that a field spells.
fn value_of(field: &[u8], kind: Kind) -> Option<Value>
    ensures { result ≡ value_in kind field.now }
{
    match kind {
        Kind::Int => Some(Value::Int(number(field)?)),
        Kind::Code => Some(Value::Code(Code::read(field)?)),
    }
}

/// Whether a record is the names of the columns in order.
fn heads(columns: &[Column], entry: &ByteRecord) -> bool
    requires { length columns.now ≤ 8 }
    ensures { result ≡ is_header columns.now (fields_of entry.now) }
{
    if entry.len() != columns.len() {
        return false;
    }
    for (i, column) in columns.iter().enumerate() {
        let Some(field) = entry.get(i) else {
            return false;
        };
        if !is_named(column, field) {
            return false;
        }
    }
    true
}

fn is_named(column: &Column, field: &[u8]) -> bool
    ensures { result ≡ bytes_eq column.now.name field.now }
{
    column.name.as_bytes() == field
}
