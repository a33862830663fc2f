//! Rows as words.
ghost use Rattle.std.specs.Prelude.{◌≡◌, ◌≤◌, ◌<◌, ◌+◌, ◌*◌, ◌^◌, ◌++◌, length, IfOk, OnOk};
ghost use Rattle.pdn_base.specs.Values.{number_of, cell};
ghost use Rattle.pdn_obl_rows.specs.Lists.{width_of, widths, words_for, valid_rows};
ghost use Rattle.pdn_obl_rows.specs.Encoding.{RowsAreOf, word_of, plane_words, bit_lane, lanes_of, LanesFit, column_words, encoded, list_from};

use crate::shape::{width_at, words_for};
use pdn_base::{Kind, Memory, Row, Rows, Word};
use std::alloc::Global;

/// The lanes of a plane: whether there is such a row, or a bit of a column's numbers.
#[derive(Debug, Drop)]
enum Lanes {
    Valid,
    Bit { column: usize, bit: u32 },
}

/// The words of a list of `len` rows that begins with these rows, of these kinds: the valid plane, then each column's planes,
/// least significant first. The lanes past the rows are zero.
pub fn encode(alloc: Global, rows: &Rows, kinds: &[Kind], len: u32) -> Result<Vec<Word>, Memory>
    requires few { length rows.now ≤ len }
    requires kinds { RowsAreOf kinds.now rows.now }
    ensures words { IfOk result (λ words. words.items ≡ encoded rows.now kinds.now len) }
    ensures count { IfOk result (λ words. length words.items
        ≡ (widths kinds.now + 1) * words_for len) }
    ensures back { IfOk result (λ words. valid_rows words.items (list_from 0 kinds.now len)
        ≡ rows.now) }
{
    let mut words = Vec::with_capacity(alloc, word_count(kinds, len)?)?;
    push_plane(&mut words, rows, &Lanes::Valid, len)?;
    for column in 0..kinds.len() {
        push_column(&mut words, rows, column, width_at(kinds, column), len)?;
    }
    Ok(words)
}

// The words of a list of `len` rows of these kinds. Memory where no list can have so many.
fn word_count(kinds: &[Kind], len: u32) -> Result<usize, Memory>
    ensures { IfOk result (λ count. count ≡ (widths kinds.now + 1) * words_for len) }
{
    let mut planes = 1usize;
    for column in 0..kinds.len() {
        let width = width_at(kinds, column) as usize;
        planes = planes.checked_add(width).ok_or(Memory)?;
    }
    planes.checked_mul(words_for(len)).ok_or(Memory)
}

fn push_column(
    words: &mut Vec<Word>,
    rows: &Rows,
    column: usize,
    width: u32,
    len: u32,
) -> Result<(), Memory>
    requires { width ≤ 64 }
    ensures { OnOk result (words.new.items ≡ words.old.items
        ++ column_words rows.now len column width) }
{
    for bit in 0..width {
        push_plane(words, rows, &Lanes::Bit { column, bit }, len)?;
    }
    Ok(())
}

fn push_plane(words: &mut Vec<Word>, rows: &Rows, lanes: &Lanes, len: u32) -> Result<(), Memory>
    requires { LanesFit lanes.now }
    ensures { OnOk result (words.new.items ≡ words.old.items
        ++ plane_words (lanes_of rows.now lanes.now) len) }
{
    for j in 0..words_for(len) {
        words.push(plane_word(rows, lanes, 64 * j))?;
    }
    Ok(())
}

/// The lanes of 64 rows from this one on.
fn plane_word(rows: &Rows, lanes: &Lanes, from: usize) -> Word
    requires fits { LanesFit lanes.now }
    requires from { from < 2 ^ 63 }
    ensures { result ≡ word_of (lanes_of rows.now lanes.now) from 64 }
{
    let mut bits = 0u64;
    for i in 0..64 {
        bits = 2 * bits + lane(rows, lanes, from + (63 - i));
    }
    Word::from_u64(bits)
}

fn lane(rows: &Rows, lanes: &Lanes, row: usize) -> u64
    requires { LanesFit lanes.now }
    ensures lane { result ≡ lanes_of rows.now lanes.now row }
    ensures bit { result < 2 }
{
    match lanes {
        Lanes::Valid => u64::from(row < rows.rows.len()),
        Lanes::Bit { column, bit } => bit_of(rows, *column, *bit, row),
    }
}

/// A bit of a column's number; 0 past the rows.
fn bit_of(rows: &Rows, column: usize, bit: u32, row: usize) -> u64
    requires { bit < 64 }
    ensures lane { result ≡ bit_lane rows.now column bit row }
    ensures bit { result < 2 }
{
    match rows.rows.get(row) {
        Some(row) => (cell_number(row, column) >> bit) & 1,
        None => 0,
    }
}

fn cell_number(row: &Row, column: usize) -> u64
    ensures { result ≡ number_of (cell row.now column) }
{
    match row.values.get(column) {
        Some(value) => value.number(),
        None => 0,
    }
}
