//! One row's lanes of columns, each in every lane of a word.
ghost use Rattle.std.specs.Prelude.{◌≡◌, ◌<◌, ◌/◌, ◌^◌, [], length, nat_eq, IfOk, slice_index_or};
ghost use Rattle.std.specs.List.{All, list_any};
ghost use Rattle.pdn_circuit.specs.Blocks.{each};
ghost use Rattle.pdn_circuit.specs.Building.{Builds, GivesGate, Tries};
ghost use Rattle.pdn_obl_group.specs.Loops.{spread_gates};
ghost use Rattle.pdn_obl_rank.specs.Keys.{spread_column, spread_used};
ghost use Rattle.pdn_obl_rank.specs.Building.{TriesItems, GatesThere, PlanesThere, ColumnsThere, Reach, ColumnsReach};

use crate::column::{Column, Number, planes_of, words_of};
use pdn_circuit::{BuildErr, Builder};
use pdn_obl_rows::Plane;
use std::alloc::Global;

/// A row's lane of a plane.
pub fn spread_lane(b: &mut Builder, plane: &[u32], row: u32) -> Result<u32, BuildErr>
    requires there { GatesThere (length b.old.gates) plane.now }
    requires row { row / 64 < length plane.now }
    ensures made { Builds b.old b.new (spread_gates row plane.now) result }
    ensures there { GivesGate b.new result }
{
    b.spread(plane[(row / 64) as usize], (row % 64) as u8)
}

fn spread_planes(
    alloc: Global,
    b: &mut Builder,
    planes: &[Plane],
    row: u32,
) -> Result<Number, BuildErr>
    requires there { PlanesThere (length b.old.gates) planes.now }
    requires row { Reach (row / 64) planes.now }
    ensures made { Tries b.old b.new (each (spread_gates row) planes.now) result }
    ensures there { IfOk result (λ lanes. GatesThere (length b.new.gates) lanes) }
{
    let mut bits = Vec::new(alloc);
    for k in 0..planes.len() {
        let lane = spread_lane(b, words_of(&planes[k]), row)?;
        bits.push(lane)?;
    }
    Ok(Number { bits })
}

fn spread_column(
    alloc: Global,
    b: &mut Builder,
    used: bool,
    planes: &[Plane],
    row: u32,
) -> Result<Number, BuildErr>
    requires there { PlanesThere (length b.old.gates) planes.now }
    requires row { Reach (row / 64) planes.now }
    ensures made { Tries b.old b.new (spread_column used planes.now row) result }
    ensures there { IfOk result (λ lanes. GatesThere (length b.new.gates) lanes) }
{
    if used {
        spread_planes(alloc, b, planes, row)
    } else {
        Ok(Number {
            bits: Vec::new(alloc),
        })
    }
}

/// Whether a place is among these.
pub fn is_used(used: &[u32], place: u32) -> bool
    ensures { result ≡ list_any (nat_eq place) used.now }
{
    used.iter().any(|other| place == *other)
}

fn spread_place(
    alloc: Global,
    b: &mut Builder,
    columns: &[Column],
    used: &[u32],
    place: usize,
    row: u32,
) -> Result<Number, BuildErr>
    requires place { place < length columns.now }
    requires few { length columns.now < 2 ^ 32 }
    requires there { ColumnsThere (length b.old.gates) columns.now }
    requires row { ColumnsReach (row / 64) columns.now }
    ensures made { Tries b.old b.new (spread_column (list_any (nat_eq place) used.now)
        (slice_index_or columns.now place []) row) result }
    ensures there { IfOk result (λ lanes. GatesThere (length b.new.gates) lanes) }
{
    let spread = is_used(used, place as u32);
    spread_column(alloc, b, spread, planes_of(&columns[place]), row)
}

/// A row's lanes of those columns whose places are used; no gate for the others.
pub fn spread_used(
    alloc: Global,
    b: &mut Builder,
    columns: &[Column],
    used: &[u32],
    row: u32,
) -> Result<Vec<Number>, BuildErr>
    requires few { length columns.now < 2 ^ 32 }
    requires there { ColumnsThere (length b.old.gates) columns.now }
    requires row { ColumnsReach (row / 64) columns.now }
    ensures made { TriesItems b.old b.new (spread_used columns.now used.now row) result }
    ensures there { IfOk result (λ lanes. PlanesThere (length b.new.gates) lanes.items) }
{
    let mut lanes = Vec::new(alloc);
    for place in 0..columns.len() {
        let column = spread_place(alloc, b, columns, used, place, row)?;
        lanes.push(column)?;
    }
    Ok(lanes)
}
