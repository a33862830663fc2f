//! Circuits to measure.
use crate::stop::Stop;
use pdn_base::Site;
use pdn_circuit::{Builder, Circuit};
use std::alloc::Global;

/// A circuit, by its size.
#[derive(Clone, Copy, Debug)]
pub enum Shape {
    /// Each row compared with each word of 64 rows, plane by plane, as in GROUP BY.
    Wide { rows: u32 },
    /// Chains of And gates, with four other gates for each of them.
    Deep { chains: u32, length: u32 },
}

const PLANES: u32 = 137;

const MOST_ANDS: u32 = 4_194_304;

/// The circuit of a shape, within the limits of a unit's circuit. Its output is its last gate.
pub fn circuit_of(alloc: Global, shape: Shape) -> Result<Circuit, Stop> {
    let mut b = Builder::new(alloc, MOST_ANDS, 16_777_216)?;
    match shape {
        Shape::Wide { rows } => wide(alloc, &mut b, rows)?,
        Shape::Deep { chains, length } => deep(alloc, &mut b, chains, length)?,
    }
    let count = b.len();
    let mut outputs = Vec::new(alloc);
    if count > 0 {
        outputs.push(count - 1)?;
    }
    Ok(b.finish(outputs, true))
}

fn wide(alloc: Global, b: &mut Builder, rows: u32) -> Result<(), Stop> {
    let words = rows / 64 + 1;
    let planes = inputs(alloc, b, PLANES.saturating_mul(words))?;
    for row in 0..rows {
        let own = own_planes(alloc, b, &planes, words, row)?;
        for word in 0..words {
            compare(b, &own, &planes, words, word)?;
        }
    }
    Ok(())
}

// One row's lane of each plane, in all lanes.
fn own_planes(
    alloc: Global,
    b: &mut Builder,
    planes: &[u32],
    words: u32,
    row: u32,
) -> Result<Vec<u32>, Stop> {
    let mut own = Vec::new(alloc);
    for plane in 0..PLANES {
        let word = at(planes, plane.saturating_mul(words).saturating_add(row / 64));
        let lanes = spread(b, word, row)?;
        own.push(lanes)?;
    }
    Ok(own)
}

// In which lanes of a word of rows all planes are equal to a row's.
fn compare(
    b: &mut Builder,
    own: &[u32],
    planes: &[u32],
    words: u32,
    word: u32,
) -> Result<(), Stop> {
    let mut equal = 1;
    for plane in 0..PLANES {
        let theirs = at(planes, plane.saturating_mul(words).saturating_add(word));
        let differs = xor(b, at(own, plane), theirs)?;
        let same = xor(b, differs, 1)?;
        equal = and(b, equal, same)?;
    }
    Ok(())
}

fn deep(alloc: Global, b: &mut Builder, chains: u32, length: u32) -> Result<(), Stop> {
    let words = inputs(alloc, b, 64)?;
    for chain in 0..chains {
        let mut end = at(&words, chain % 64);
        for step in 0..length {
            let x = at(&words, chain.wrapping_mul(7).wrapping_add(step) % 64);
            let y = at(&words, chain.wrapping_mul(3).wrapping_add(step) % 64);
            end = link(b, end, x, y, step)?;
        }
    }
    Ok(())
}

// One more And gate of a chain.
fn link(b: &mut Builder, end: u32, x: u32, y: u32, step: u32) -> Result<u32, Stop> {
    let mixed = xor(b, x, y)?;
    let spread = spread(b, mixed, step)?;
    let first = xor(b, end, spread)?;
    let product = and(b, first, y)?;
    xor(b, product, x)
}

// So many input words of site A.
fn inputs(alloc: Global, b: &mut Builder, count: u32) -> Result<Vec<u32>, Stop> {
    let mut words = Vec::new(alloc);
    for _ in 0..count {
        let word = b.input(Site::A)?;
        words.push(word)?;
    }
    Ok(words)
}

fn at(words: &[u32], k: u32) -> u32 {
    words.get(k as usize).copied().unwrap_or(0)
}

fn xor(b: &mut Builder, x: u32, y: u32) -> Result<u32, Stop> {
    if x < b.len() && y < b.len() {
        Ok(b.xor(x, y)?)
    } else {
        Err(Stop::Large)
    }
}

fn and(b: &mut Builder, x: u32, y: u32) -> Result<u32, Stop> {
    if x < b.len() && y < b.len() {
        Ok(b.and(x, y)?)
    } else {
        Err(Stop::Large)
    }
}

fn spread(b: &mut Builder, x: u32, lane: u32) -> Result<u32, Stop> {
    if x < b.len() {
        Ok(b.spread(x, (lane % 64) as u8)?)
    } else {
        Err(Stop::Large)
    }
}
