//! Words as rows.
ghost use Rattle.std.specs.Prelude.{◌≡◌, ◌<◌, ◌≤◌, ◌+◌, ◌*◌, ◌/◌, ◌%◌, length, nat_eq, IfOk};
ghost use Rattle.pdn_circuit.specs.Plain.{lane_of};
ghost use Rattle.pdn_obl_rows.specs.Lists.{cells_at, number_at, valid_rows, value_of, widths, words_for};
ghost use Rattle.pdn_obl_rows.specs.Encoding.{IsOf, RowIsOf, RowsAreOf, list_from, planes_from};

use crate::shape::{kind_at, width, words_for};
use pdn_base::{Code, Kind, Memory, Row, Rows, Value, Word};
use std::alloc::Global;

/// The valid rows, in order, of a list of `len` rows of these kinds: its words are those of the valid plane, then of each column's
/// planes, least significant first. The valid rows hold values of the kinds.
pub fn decode(alloc: Global, words: &[Word], kinds: &[Kind], len: u32) -> Result<Rows, Memory>
    requires count { length words.now ≡ (widths kinds.now + 1) * words_for len }
    requires kinds { RowsAreOf kinds.now (valid_rows words.now (list_from 0 kinds.now len)) }
    ensures { IfOk result (λ rows. rows ≡ valid_rows words.now (list_from 0 kinds.now len)) }
{
    let step = words_for(len);
    let mut rows = Vec::new(alloc);
    for row in 0..len {
        if bit(words, step, 0, row) == 1 {
            rows.push(row_at(alloc, words, step, kinds, row)?)?;
        }
    }
    Ok(Rows { rows })
}

/// A row, where each plane has `step` words.
fn row_at(
    alloc: Global,
    words: &[Word],
    step: usize,
    kinds: &[Kind],
    row: u32,
) -> Result<Row, Memory>
    requires count { length words.now ≡ (widths kinds.now + 1) * step }
    requires row { row / 64 < step }
    requires kinds { RowIsOf kinds.now
        (cells_at words.now row kinds.now (planes_from step step (widths kinds.now))) }
    ensures { IfOk result (λ cells. cells ≡ cells_at words.now row kinds.now
        (planes_from step step (widths kinds.now))) }
{
    let mut values = Vec::new(alloc);
    let mut plane = 1;
    for k in 0..kinds.len() {
        let kind = kind_at(kinds, k);
        let number = number(words, step, plane, width(kind), row);
        values.push(value(kind, number))?;
        plane += width(kind) as usize;
    }
    Ok(Row::new(values))
}

fn value(kind: Kind, number: u64) -> Value
    requires { IsOf kind (value_of kind number) }
    ensures { result ≡ value_of kind number }
{
    match kind {
        Kind::Int => Value::Int(number as u32),
        Kind::Code => Value::Code(Code::of_number(number)),
    }
}

/// The number that a row holds in so many planes.
fn number(words: &[Word], step: usize, first: usize, width: u32, row: u32) -> u64
    requires planes { (first + width) * step ≤ length words.now }
    requires width { width ≤ 64 }
    requires row { row / 64 < step }
    ensures { result ≡ number_at words.now (planes_from (first * step) step width) row }
{
    let mut number = 0u64;
    for i in 0..width {
        number = 2 * number + bit(words, step, first + (width - 1 - i) as usize, row);
    }
    number
}

/// A row's lane of a plane.
fn bit(words: &[Word], step: usize, plane: usize, row: u32) -> u64
    requires plane { (plane + 1) * step ≤ length words.now }
    requires row { row / 64 < step }
    ensures bit { result ≡ lane_of words.now (row % 64) (plane * step + row / 64) }
    ensures small { result < 2 }
{
    let word = words[plane * step + (row / 64) as usize];
    u64::from(word.lane((row % 64) as u8))
}
