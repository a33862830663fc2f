//! One row of a list in all lanes of a word, and where rows equal it.
ghost use Rattle.std.specs.Prelude.{◌≡◌, ◌<◌, ◌+◌, ◌*◌, ◌^◌, ◌/◌, length, IfOk};
ghost use Rattle.std.specs.List.{All};
ghost use Rattle.pdn_circuit.specs.Blocks.{each};
ghost use Rattle.pdn_circuit.specs.Building.{Builds, GivesGate, GivesGates, Tries, TriesList};
ghost use Rattle.pdn_obl_rows.specs.Lists.{words_for};
ghost use Rattle.pdn_obl_rows.specs.Operators.{IsThere};
ghost use Rattle.pdn_obl_group.specs.Loops.{SpreadRow, SpreadThere, spread_gates, row_gates, match_gates, mark_later};

use pdn_circuit::{BuildErr, Builder};
use pdn_obl_rows::{Padded, Plane, word_planes};
use std::alloc::Global;
use std::marker::Model;

/// A row in all lanes of a word: its valid lane, and its lane of each plane. Contracts see a `SpreadRow`.
#[derive(Debug, Drop)]
pub struct Spread {
    pub valid: u32,
    pub planes: Vec<u32>,
}

impl Model for Spread {
    ghost use Rattle.pdn_obl_group.specs.Loops.{SpreadRow};

    ghost Value = { SpreadRow };

    ghost view = { λ s. record { valid = s.valid; planes = s.planes.items } };
}

impl Spread {
    /// The gate of the valid lane.
    pub fn valid(&self) -> u32
        ensures { result ≡ self.now.valid }
    {
        self.valid
    }

    /// The gates of the planes' lanes.
    pub fn planes(&self) -> &[u32]
        ensures { result.now ≡ self.now.planes }
    {
        self.planes.as_slice()
    }
}

/// A row of a list in all lanes: a Spread of its valid lane, and of its lane of each plane.
pub fn spread_row(
    alloc: Global,
    b: &mut Builder,
    list: &Padded,
    row: u32,
) -> Result<Spread, BuildErr>
    requires there { IsThere b.old list.now }
    requires row { row < list.now.len }
    ensures made { Tries b.old b.new (row_gates list.now row) result }
    ensures there { IfOk result (λ spread. SpreadThere b.new list.now spread) }
{
    let valid = spread_lane(b, list.valid(), row)?;
    let planes = spread_planes(alloc, b, list.planes(), row)?;
    Ok(Spread { valid, planes })
}

fn spread_lane(b: &mut Builder, plane: &[u32], row: u32) -> Result<u32, BuildErr>
    requires there { All (λ gate. gate < length b.old.gates) plane.now }
    requires row { row / 64 < length plane.now }
    ensures made { Builds b.old b.new (spread_gates row plane.now) result }
    ensures there { GivesGate b.new result }
{
    b.spread(plane[(row / 64) as usize], (row % 64) as u8)
}

fn spread_planes(
    alloc: Global,
    b: &mut Builder,
    planes: &[Plane],
    row: u32,
) -> Result<Vec<u32>, BuildErr>
    requires there { All (λ plane. All (λ gate. gate < length b.old.gates) plane) planes.now }
    requires row { All (λ plane. row / 64 < length plane) planes.now }
    ensures made { TriesList b.old b.new (each (spread_gates row) planes.now) result }
    ensures there { GivesGates b.new result }
    ensures count { IfOk result (λ gates. length gates.items ≡ length planes.now) }
{
    let mut gates = Vec::new(alloc);
    for k in 0..planes.len() {
        let gate = spread_lane(b, words(&planes[k]), row)?;
        gates.push(gate)?;
    }
    Ok(gates)
}

fn words(plane: &Plane) -> &[u32]
    ensures { result.now ≡ plane.now }
{
    plane.words.as_slice()
}

/// The lanes of a word whose rows equal this row, where it is valid.
pub fn match_gate(
    alloc: Global,
    b: &mut Builder,
    list: &Padded,
    row: &Spread,
    word: usize,
) -> Result<u32, BuildErr>
    requires there { IsThere b.old list.now }
    requires row { SpreadThere b.old list.now row.now }
    requires word { word < words_for list.now.len }
    ensures made { Tries b.old b.new (match_gates list.now row.now word) result }
    ensures there { GivesGate b.new result }
{
    let other = word_planes(alloc, list.planes(), word)?;
    let same = b.equal(row.planes(), &other)?;
    b.and(row.valid(), same)
}

/// These lanes of a word, and those of `hit` whose rows stand after the row.
pub(crate) fn mark_later(
    b: &mut Builder,
    word: usize,
    row: u32,
    hit: u32,
    dup: u32,
) -> Result<u32, BuildErr>
    requires few { word < 2 ^ 26 }
    requires past { row < 64 * word + 63 }
    requires hit { hit < length b.old.gates }
    requires dup { dup < length b.old.gates }
    ensures made { Tries b.old b.new (mark_later word row hit dup) result }
    ensures there { GivesGate b.new result }
{
    let from = (u64::from(row) + 1).saturating_sub(64 * word as u64) as u8;
    let later = b.move_lanes(hit, from, 64 - from, from)?;
    b.or(dup, later)
}
