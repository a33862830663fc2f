//! Rows as the bytes of a database.
ghost use Rattle.std.specs.Prelude.{◌≡◌, IfOk};
ghost use Rattle.pdn_base.specs.Values.{number_of};
ghost use Rattle.pdn_store.specs.Cells.{eight_bytes, row_bytes};

use crate::fault::Fault;
use pdn_base::{Code, Kind, Row, Value};
use pdn_schema::Column;
use std::alloc::Global;

/// The bytes of a row: each value's number in 8 bytes, most significant first, column after column.
pub(crate) fn bytes_of(alloc: Global, row: &Row) -> Result<Vec<u8>, Fault>
    ensures { IfOk result (λ bytes. bytes.items ≡ row_bytes row.now) }
{
    let mut bytes = Vec::new(alloc);
    let values = row.values();
    for value in values {
        bytes.extend_from_slice(&cell_of(value))?;
    }
    Ok(bytes)
}

#[tactic(auto, unfolding(crate::specs::Cells::eight_bytes))]
fn cell_of(value: &Value) -> [u8; 8]
    ensures { result ≡ eight_bytes (number_of value.now) }
{
    value.number().to_be_bytes()
}

/// The row of these columns that bytes are.
pub(crate) fn row_of(alloc: Global, columns: &[Column], bytes: &[u8]) -> Result<Row, Fault> {
    let (numbers, rest) = bytes.as_chunks::<8>();
    if numbers.len() != columns.len() || !rest.is_empty() {
        return Err(Fault::Refused);
    }
    let mut values = Vec::new(alloc);
    for (column, number) in columns.iter().zip(numbers) {
        let Some(value) = value_of(column.kind, number) else {
            return Err(Fault::Refused);
        };
        values.push(value)?;
    }
    Ok(Row { values })
}

// The value of a kind with this number.
fn value_of(kind: Kind, number: &[u8; 8]) -> Option<Value> {
    match kind {
        Kind::Int => Some(Value::Int(u32::try_from(u64::from_be_bytes(*number)).ok()?)),
        Kind::Code => Some(Value::Code(code_of(number)?)),
    }
}

// The code with this number.
fn code_of(number: &[u8; 8]) -> Option<Code> {
    let code = Code::read(before_zero(number))?;
    if code.number() == u64::from_be_bytes(*number) {
        Some(code)
    } else {
        None
    }
}

// The bytes in front of the first zero byte.
fn before_zero(bytes: &[u8]) -> &[u8] {
    match bytes.iter().position(|byte| *byte == 0) {
        Some(end) => &bytes[..end],
        None => bytes,
    }
}
