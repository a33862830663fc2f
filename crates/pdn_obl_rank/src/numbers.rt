//! Columns side by side, as one number in each lane of a word.
ghost use Rattle.std.specs.Prelude.{◌≡◌, ◌<◌, ◌^◌, ◌++◌, length, nat_le, IfOk, OnOk};
ghost use Rattle.std.specs.List.{All};
ghost use Rattle.pdn_circuit.specs.Plain.{truth};
ghost use Rattle.pdn_obl_rows.specs.Lists.{word_planes};
ghost use Rattle.pdn_obl_rank.specs.Building.{Reach, ColumnsReach};
ghost use Rattle.pdn_obl_rank.specs.Keys.{planes_up, planes_down, row_columns, word_columns};
ghost use Rattle.pdn_obl_rank.specs.Numbers.{from_place};

use crate::column::{Column, Number, bits_of, planes_of};
use pdn_base::Word;
use pdn_obl_rows::{Plane, word_planes};
use std::alloc::{AllocError, Global};

/// One row's lanes of the columns at these places.
pub fn row_columns(alloc: Global, row: &[Number], places: &[u32]) -> Result<Vec<Number>, AllocError>
    requires { All (λ place. place < length row.now) places.now }
    ensures { IfOk result (λ numbers. numbers.items ≡ row_columns row.now places.now) }
{
    let mut numbers = Vec::new(alloc);
    for k in 0..places.len() {
        numbers.push(copy(alloc, bits_of(&row[places[k] as usize]))?)?;
    }
    Ok(numbers)
}

fn copy(alloc: Global, bits: &[u32]) -> Result<Number, AllocError>
    ensures { IfOk result (λ number. number ≡ bits.now) }
{
    Ok(Number {
        bits: Vec::from_slice(alloc, bits)?,
    })
}

/// A word of the columns at these places.
pub fn word_columns(
    alloc: Global,
    columns: &[Column],
    places: &[u32],
    word: usize,
) -> Result<Vec<Number>, AllocError>
    requires places { All (λ place. place < length columns.now) places.now }
    requires word { ColumnsReach word columns.now }
    ensures { IfOk result (λ numbers. numbers.items ≡ word_columns columns.now word places.now) }
{
    let mut numbers = Vec::new(alloc);
    for k in 0..places.len() {
        let planes = planes_of(&columns[places[k] as usize]);
        numbers.push(column_word(alloc, planes, word)?)?;
    }
    Ok(numbers)
}

fn column_word(alloc: Global, planes: &[Plane], word: usize) -> Result<Number, AllocError>
    requires { Reach word planes.now }
    ensures { IfOk result (λ number. number ≡ word_planes word planes.now) }
{
    Ok(Number {
        bits: word_planes(alloc, planes, word)?,
    })
}

/// One number of these, the first of which is least significant.
pub fn planes_up(alloc: Global, numbers: &[Number]) -> Result<Vec<u32>, AllocError>
    ensures { IfOk result (λ planes. planes.items ≡ planes_up numbers.now) }
{
    let mut planes = Vec::new(alloc);
    for k in 0..numbers.len() {
        push_all(&mut planes, bits_of(&numbers[k]))?;
    }
    Ok(planes)
}

/// One number of these, the last of which is least significant.
pub fn planes_down(alloc: Global, numbers: &[Number]) -> Result<Vec<u32>, AllocError>
    ensures { IfOk result (λ planes. planes.items ≡ planes_down numbers.now) }
{
    let mut planes = Vec::new(alloc);
    for k in 0..numbers.len() {
        push_all(&mut planes, bits_of(&numbers[numbers.len() - 1 - k]))?;
    }
    Ok(planes)
}

fn push_all(planes: &mut Vec<u32>, bits: &[u32]) -> Result<(), AllocError>
    ensures { OnOk result (planes.new.items ≡ planes.old.items ++ bits.now) }
{
    for bit in bits {
        planes.push(*bit)?;
    }
    Ok(())
}

/// The lanes of a word whose rows stand at this place or later.
pub fn from_place(place: u32, word: usize) -> Word
    requires { word < 2 ^ 32 }
    ensures { result ≡ from_place place word }
{
    let mut bits = 0u64;
    for i in 0..64 {
        bits = 2 * bits + later(place, 64 * word + (63 - i));
    }
    Word::from_u64(bits)
}

fn later(place: u32, row: usize) -> u64
    ensures lane { result ≡ truth (nat_le place row) }
    ensures bit { result < 2 }
{
    u64::from(place as usize <= row)
}
