//! The tables of a site's store, and a function for each statement on them.
ghost use Rattle.std.specs.Prelude.{IfOk};
ghost use Rattle.pdn_base.specs.Bounds.{IsShort};

use crate::cells::{bytes_of, row_of};
use crate::fault::Fault;
use crate::form::Form;
use pdn_base::{Row, Rows};
use pdn_schema::{Column, Table};
use sqlite::{Alter, Connection, Transaction, params};
use std::alloc::Global;

/// A batch has a number of its own, a table's name and its number there; a line of it has its place in the batch.
pub(crate) const FORM: Form = Form {
    tables: &[
        "CREATE TABLE batch(seq INTEGER PRIMARY KEY, tab TEXT NOT NULL, num BLOB NOT NULL, UNIQUE(tab, num))",
        "CREATE TABLE line(seq INTEGER NOT NULL REFERENCES batch(seq), at INTEGER NOT NULL, vals BLOB NOT NULL, PRIMARY KEY(seq, at))",
        "CREATE TABLE meta(version INTEGER NOT NULL)",
    ],
    first: "INSERT INTO meta(version) VALUES (1)",
    tests: &[
        "SELECT COUNT(*) = 1 AND MIN(version) = 1 FROM meta",
        "SELECT COUNT(*) = 0 FROM batch WHERE typeof(num) <> 'blob' OR length(num) <> 8",
    ],
};

/// The batch of a table's number, where it is kept.
pub(crate) fn batch_of<S: Alter>(
    conn: &mut Connection<S>,
    table: &str,
    number: u64,
) -> Result<Option<i64>, Fault> {
    let number = number.to_be_bytes();
    let found = conn.query_all(
        "SELECT seq FROM batch WHERE tab = ?1 AND num = ?2",
        params![table, number.as_slice()],
    )?;
    match found.first() {
        Some(row) => Ok(Some(row.get(0)?)),
        None => Ok(None),
    }
}

/// The rows of a batch.
pub(crate) fn rows_of_batch<S: Alter>(
    alloc: Global,
    conn: &mut Connection<S>,
    columns: &[Column],
    batch: i64,
) -> Result<Rows, Fault>
    ensures { IfOk result (λ rows. IsShort rows) }
{
    let lines = conn.query_all(
        "SELECT seq, at, vals FROM line WHERE seq = ?1 ORDER BY at",
        params![batch],
    )?;
    rows_of_lines(alloc, columns, lines.as_slice())
}

/// The rows of a table, one batch after the other.
pub(crate) fn rows_of_table<S: Alter>(
    alloc: Global,
    conn: &mut Connection<S>,
    table: &Table,
) -> Result<Rows, Fault>
    ensures { IfOk result (λ rows. IsShort rows) }
{
    let lines = conn.query_all(
        "SELECT line.seq, line.at, line.vals FROM batch JOIN line ON line.seq = batch.seq WHERE batch.tab = ?1 ORDER BY line.seq, line.at",
        params![table.name.as_str()],
    )?;
    rows_of_lines(alloc, &table.columns, lines.as_slice())
}

// The rows of lines, of which each is at the place after the one before it, or the first of its batch.
fn rows_of_lines(alloc: Global, columns: &[Column], lines: &[sqlite::Row]) -> Result<Rows, Fault>
    ensures { IfOk result (λ rows. IsShort rows) }
{
    let mut rows = Vec::new(alloc);
    let mut last = None;
    for line in lines {
        let place: (i64, i64) = (line.get(0)?, line.get(1)?);
        if place.1 != place_after(last, place.0) {
            return Err(Fault::Refused);
        }
        last = Some(place);
        let bytes: Vec<u8> = line.get(2)?;
        rows.push(row_of(alloc, columns, &bytes)?)?;
    }
    few(rows)
}

// These rows, where they are few enough.
fn few(rows: Vec<Row>) -> Result<Rows, Fault>
    ensures { IfOk result (λ rows. IsShort rows) }
{
    if rows.len() >= u32::MAX as usize {
        return Err(Fault::Refused);
    }
    Ok(Rows { rows })
}

// The place of the next line, where it is of this batch.
fn place_after(last: Option<(i64, i64)>, batch: i64) -> i64 {
    match last {
        Some((same, at)) if same == batch => at.saturating_add(1),
        _ => 0,
    }
}

/// Appends a batch of a table, or changes nothing.
pub(crate) fn append<S: Alter>(
    alloc: Global,
    conn: &mut Connection<S>,
    table: &Table,
    number: u64,
    rows: &[Row],
) -> Result<(), Fault> {
    if !conn.is_autocommit() {
        return Err(Fault::Refused);
    }
    let mut change = conn.transaction();
    let batch = put_batch(&mut change, table.name.as_str(), number)?;
    for (at, row) in rows.iter().enumerate() {
        let bytes = read_back(alloc, &table.columns, row)?;
        put_line(&mut change, batch, at as i64, &bytes)?;
    }
    change.commit()?;
    Ok(())
}

// The bytes of a row, from which the same row is read for these columns.
fn read_back(alloc: Global, columns: &[Column], row: &Row) -> Result<Vec<u8>, Fault> {
    let bytes = bytes_of(alloc, row)?;
    if row_of(alloc, columns, &bytes)? != *row {
        return Err(Fault::Refused);
    }
    Ok(bytes)
}

fn put_batch<S: Alter>(
    change: &mut Transaction<'_, S>,
    table: &str,
    number: u64,
) -> Result<i64, Fault> {
    let number = number.to_be_bytes();
    change.execute(
        "INSERT INTO batch(tab, num) VALUES (?1, ?2)",
        params![table, number.as_slice()],
    )?;
    Ok(change.last_insert_rowid())
}

fn put_line<S: Alter>(
    change: &mut Transaction<'_, S>,
    batch: i64,
    at: i64,
    bytes: &Vec<u8>,
) -> Result<(), Fault> {
    change.execute(
        "INSERT INTO line(seq, at, vals) VALUES (?1, ?2, ?3)",
        params![batch, at, bytes],
    )?;
    Ok(())
}
