//! The places of a list's rows, counted row by row.
ghost use Rattle.std.specs.Prelude.{◌≡◌, ◌<◌, ◌≤◌, ◌*◌, ◌/◌, ◌++◌, length, IfOk, OnOk};
ghost use Rattle.std.specs.List.{All};
ghost use Rattle.pdn_circuit.specs.Building.{GivesGate, Tries};
ghost use Rattle.pdn_obl_group.specs.Loops.{in_turn};
ghost use Rattle.pdn_obl_rank.specs.Keys.{planes_up, planes_down, row_columns};
ghost use Rattle.pdn_obl_rank.specs.Numbers.{lanes_gates, row_gates};
ghost use Rattle.pdn_obl_rank.specs.Building.{TriesItems, RankedThere, LanesThere, PlanesThere};

use crate::column::Number;
use crate::hits::{Compared, Lanes, against_words};
use crate::numbers::{planes_down, planes_up, row_columns};
use crate::spreading::{spread_lane, spread_used};
use pdn_circuit::{BuildErr, Builder};
use std::alloc::{AllocError, Global};

/// The places that a row is compared at: those of the partition, and those of the key.
fn used_places(alloc: Global, compared: &Compared) -> Result<Vec<u32>, AllocError>
    ensures { IfOk result (λ places. places.items ≡ compared.now.partition ++ compared.now.key) }
{
    let mut places = Vec::from_slice(alloc, compared.partition())?;
    push_all(&mut places, compared.key())?;
    Ok(places)
}

fn push_all(places: &mut Vec<u32>, more: &[u32]) -> Result<(), AllocError>
    ensures { OnOk result (places.new.items ≡ places.old.items ++ more.now) }
{
    for place in more {
        places.push(*place)?;
    }
    Ok(())
}

fn lanes_of(
    alloc: Global,
    compared: &Compared,
    valid: u32,
    row: &[Number],
) -> Result<Lanes, AllocError>
    requires partition { All (λ place. place < length row.now) compared.now.partition }
    requires key { All (λ place. place < length row.now) compared.now.key }
    ensures { IfOk result (λ lanes. lanes ≡ record {
      valid = valid;
      part = planes_up (row_columns row.now
          compared.now.partition);
      key = planes_down (row_columns row.now compared.now.key);
    }) }
{
    let part = row_columns(alloc, row, compared.partition())?;
    let key = row_columns(alloc, row, compared.key())?;
    Ok(Lanes {
        valid,
        part: planes_up(alloc, part.as_slice())?,
        key: planes_down(alloc, key.as_slice())?,
    })
}

/// A row's lanes of what is compared.
fn row_lanes(
    alloc: Global,
    b: &mut Builder,
    compared: &Compared,
    row: u32,
) -> Result<Lanes, BuildErr>
    requires there { RankedThere (length b.old.gates) compared.now }
    requires row { row / 64 < length compared.now.valid }
    ensures made { Tries b.old b.new (lanes_gates compared.now row) result }
    ensures there { IfOk result (λ lanes. LanesThere (length b.new.gates) compared.now lanes) }
{
    let used = used_places(alloc, compared)?;
    let valid = spread_lane(b, compared.valid(), row)?;
    let lanes = spread_used(alloc, b, compared.columns(), used.as_slice(), row)?;
    let all = lanes_of(alloc, compared, valid, lanes.as_slice())?;
    Ok(all)
}

/// Each word's counter, once this row was counted.
fn count_row(
    alloc: Global,
    b: &mut Builder,
    compared: &Compared,
    row: u32,
    counters: &[Number],
) -> Result<Vec<Number>, BuildErr>
    requires there { RankedThere (length b.old.gates) compared.now }
    requires row { row / 64 < length compared.now.valid }
    requires counters { PlanesThere (length b.old.gates) counters.now }
    requires count { length counters.now ≡ length compared.now.valid }
    ensures made { TriesItems b.old b.new (row_gates compared.now row counters.now) result }
    ensures there { IfOk result (λ counters. PlanesThere (length b.new.gates) counters.items) }
{
    let lanes = row_lanes(alloc, b, compared, row)?;
    against_words(alloc, b, compared, &lanes, row, counters)
}

/// Each word's counter, once all rows were counted.
pub fn count_rows(
    alloc: Global,
    b: &mut Builder,
    compared: &Compared,
    len: u32,
    none: Vec<Number>,
) -> Result<Vec<Number>, BuildErr>
    requires there { RankedThere (length b.old.gates) compared.now }
    requires rows { len ≤ 64 * length compared.now.valid }
    requires counters { PlanesThere (length b.old.gates) none.items }
    requires count { length none.items ≡ length compared.now.valid }
    ensures made { TriesItems b.old b.new (in_turn (row_gates compared.now) 0 len none.items)
        result }
    ensures there { IfOk result (λ counters. PlanesThere (length b.new.gates) counters.items) }
    ensures count { IfOk result (λ counters. length counters.items ≡ length compared.now.valid) }
{
    let mut counters = none;
    for row in 0..len {
        counters = count_row(alloc, b, compared, row, counters.as_slice())?;
    }
    Ok(counters)
}
