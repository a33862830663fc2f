//! Schemas of short texts, rows of given values, and texts of repeated lines.
use pdn_base::{Code, Row, Rows, Value};
use pdn_schema::{Schema, read_schema};
use std::alloc::Global;
use std::test::Fail;

/// Two tables of the hospitals between a small one and a wide one, and a caller.
pub const LARGE: &str =
    "version 1\nfloor 3\ncaller ann calls 2\ntable t rows 8\ncolumn c int private\ntable diag rows 16\ncolumn pid int public per 4\ncolumn code code protected\ncolumn day int private\ntable med rows 16\ncolumn pid int public per 4\ncolumn drug code protected\ncolumn day int private\ntable wide rows 256\ncolumn y int public per 64\ncolumn x int private\nend\n";

/// The schema of a text of at most 100,000 bytes that says one.
pub fn schema_of(alloc: Global, text: &str) -> Result<Schema, Fail> {
    let read = if text.len() > 100_000 {
        None
    } else {
        read_schema(alloc, text.as_bytes()).ok()
    };
    Ok(read.ok_or("it is a schema")?)
}

/// The code of a text that is one, else 0.
pub fn code(text: &[u8]) -> Value {
    match Code::read(text) {
        Some(code) => Value::Code(code),
        None => Value::Int(0),
    }
}

/// Rows of these values.
pub fn rows_of(alloc: Global, table: &[&[Value]]) -> Result<Rows, Fail> {
    let mut rows = Vec::new(alloc);
    for values in table {
        rows.push(Row::new(Vec::from_slice(alloc, values)?))?;
    }
    Ok(Rows { rows })
}

/// A text that ends in as many of this one as are said.
pub fn repeated(mut text: String, more: &str, times: usize) -> Result<String, Fail> {
    for _ in 0..times {
        text.push_str(more)?;
    }
    Ok(text)
}
