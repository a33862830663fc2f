//! Lists in which each valid row holds one value: their distinct rows.
ghost use Rattle.std.specs.Prelude.{◌≡◌, ◌<◌, ◌≤◌, length, IfOk};
ghost use Rattle.std.specs.List.{All, range_with_len};
ghost use Rattle.std.specs.Int.{bit_at};
ghost use Rattle.pdn_base.specs.Values.{number_of};
ghost use Rattle.pdn_circuit.specs.Blocks.{each};
ghost use Rattle.pdn_circuit.specs.Building.{GivesGate, GivesGates, Tries, TriesList};
ghost use Rattle.pdn_obl_rows.specs.Lists.{width_of, widths};
ghost use Rattle.pdn_obl_rows.specs.Operators.{IsThere, GivesList};
ghost use Rattle.pdn_obl_group.specs.Loops.{in_turn};
ghost use Rattle.pdn_obl_group.specs.Operators.{any_row, bit_plane, value_gates, cut_distinct_gates};

use crate::counting::bit;
use crate::single::{first_lane, one_row_list, rows};
use pdn_base::{Kind, Value};
use pdn_circuit::{BuildErr, Builder};
use pdn_obl_rows::{Padded, width};
use std::alloc::Global;

/// One row of the slice value in each column, where any row of the list is valid.
pub fn cut_distinct(
    alloc: Global,
    b: &mut Builder,
    list: &Padded,
    value: &Value,
) -> Result<Padded, BuildErr>
    requires { IsThere b.old list.now }
    ensures made { Tries b.old b.new (cut_distinct_gates list.now value.now) result }
    ensures there { GivesList b.new result }
{
    let any = any_valid(b, list)?;
    let planes = value_planes(alloc, b, value, list.kinds())?;
    one_row_list(alloc, any, list.kinds(), &planes)
}

/// Whether any row is valid, in lane 0.
fn any_valid(b: &mut Builder, list: &Padded) -> Result<u32, BuildErr>
    requires there { IsThere b.old list.now }
    ensures made { Tries b.old b.new (in_turn (any_row list.now) 0 list.now.len 0) result }
    ensures there { GivesGate b.new result }
{
    let _gates = b.len();
    let count = rows(list);
    let mut any = 0;
    for row in 0..count {
        any = any_row(b, list, row, any)?;
    }
    Ok(any)
}

fn any_row(b: &mut Builder, list: &Padded, row: u32, any: u32) -> Result<u32, BuildErr>
    requires there { IsThere b.old list.now }
    requires row { row < list.now.len }
    requires any { any < length b.old.gates }
    ensures made { Tries b.old b.new (any_row list.now row any) result }
    ensures there { GivesGate b.new result }
{
    let bit = bit(b, list, row)?;
    b.or(any, bit)
}

/// The planes of a value in a column of each kind, in lane 0.
pub(crate) fn value_planes(
    alloc: Global,
    b: &mut Builder,
    value: &Value,
    kinds: &[Kind],
) -> Result<Vec<u32>, BuildErr>
    ensures made { TriesList b.old b.new (value_gates value.now kinds.now) result }
    ensures there { GivesGates b.new result }
    ensures count { IfOk result (λ planes. length planes.items ≡ widths kinds.now) }
{
    let mut planes = Vec::new(alloc);
    for k in 0..kinds.len() {
        let column = column_planes(alloc, b, value.number(), width(kinds[k]))?;
        planes.extend_from_slice(&column)?;
    }
    Ok(planes)
}

/// The planes of a number, in lane 0.
fn column_planes(
    alloc: Global,
    b: &mut Builder,
    number: u64,
    width: u32,
) -> Result<Vec<u32>, BuildErr>
    requires few { width ≤ 64 }
    ensures made { TriesList b.old b.new
        (each (λ bit. bit_plane (bit_at number bit)) (range_with_len 0 width)) result }
    ensures there { GivesGates b.new result }
    ensures count { IfOk result (λ planes. length planes.items ≡ width) }
{
    let mut planes = Vec::new(alloc);
    for bit in 0..width {
        let plane = bit_plane(b, bit_of(number, bit))?;
        planes.push(plane)?;
    }
    Ok(planes)
}

fn bit_of(number: u64, bit: u32) -> u32
    requires { bit < 64 }
    ensures { result ≡ bit_at number bit }
{
    ((number >> bit) & 1) as u32
}

/// Lane 0 where the bit is set, else no lane.
fn bit_plane(b: &mut Builder, bit: u32) -> Result<u32, BuildErr>
    ensures made { Tries b.old b.new (bit_plane bit) result }
    ensures there { GivesGate b.new result }
{
    let _gates = b.len();
    if bit == 1 { first_lane(b) } else { Ok(0) }
}
