//! The rows that a limit keeps.
ghost use Rattle.std.specs.Prelude.{◌≡◌, ◌<◌, ◌+◌, ◌^◌, [], length, IfOk, IfErr};
ghost use Rattle.std.specs.List.{All};
ghost use Rattle.pdn_circuit.specs.declared.tally.BuildErr.TheVariants as BuildErr;
ghost use Rattle.pdn_circuit.specs.Blocks.{each};
ghost use Rattle.pdn_circuit.specs.Building.{GivesGates, Tries, TriesList};
ghost use Rattle.pdn_obl_rows.specs.Operators.{IsThere, GivesList};
ghost use Rattle.pdn_obl_rank.specs.Keys.{KeysFit};
ghost use Rattle.pdn_obl_rank.specs.Tops.{within, first_gates, kept_gates, cleared_gates, top_gates};
ghost use Rattle.pdn_obl_rank.specs.Building.{GatesThere, PlanesThere, TriesItems};

use crate::column::words_of;
use crate::numbering::number;
use pdn_base::{Clause, Cmp, Cond, Key, Op, Operand, Term};
use pdn_circuit::{BuildErr, Builder};
use pdn_obl_rows::{Padded, Plane, filter};
use std::alloc::Global;

/// The condition that the number in this column is at most the limit.
fn within(alloc: Global, column: u32, limit: u32) -> Result<Cond, BuildErr>
    ensures gives { IfOk result (λ cond. cond ≡ within column limit) }
    ensures memory { IfErr result (λ err. err ≡ BuildErr.Memory) }
{
    let mut any = Vec::new(alloc);
    any.push(Cmp {
        left: Term { column, plus: None },
        op: Op::Le,
        right: Operand::Int(limit),
    })?;
    let mut all = Vec::new(alloc);
    all.push(Clause { any })?;
    Ok(Cond { all })
}

/// The valid plane, once only the first rows in the order are kept.
fn first(
    alloc: Global,
    b: &mut Builder,
    list: &Padded,
    order: &[Key],
    limit: u32,
) -> Result<Vec<u32>, BuildErr>
    requires there { IsThere b.old list.now }
    requires fits { KeysFit (length list.now.kinds) [] order.now }
    requires few { length list.now.kinds + length order.now < 2 ^ 32 }
    ensures made { TriesList b.old b.new (first_gates list.now order.now limit) result }
    ensures there { GivesGates b.new result }
    ensures count { IfOk result (λ valid. length valid.items ≡ length list.now.valid) }
{
    let numbered = number(alloc, b, list, &[], order)?;
    let cond = within(alloc, list.kinds().len() as u32, limit)?;
    let kept = filter(alloc, b, &numbered, &cond)?;
    let valid = Vec::from_slice(alloc, kept.valid())?;
    Ok(valid)
}

/// The valid plane, once the rows that a limit keeps are kept.
fn kept(
    alloc: Global,
    b: &mut Builder,
    list: &Padded,
    order: &[Key],
    limit: Option<u32>,
) -> Result<Vec<u32>, BuildErr>
    requires there { IsThere b.old list.now }
    requires fits { KeysFit (length list.now.kinds) [] order.now }
    requires few { length list.now.kinds + length order.now < 2 ^ 32 }
    ensures made { TriesList b.old b.new (kept_gates list.now order.now limit) result }
    ensures there { GivesGates b.new result }
    ensures count { IfOk result (λ valid. length valid.items ≡ length list.now.valid) }
{
    match limit {
        Some(limit) => limited(alloc, b, list, order, limit),
        None => all(alloc, list),
    }
}

fn limited(
    alloc: Global,
    b: &mut Builder,
    list: &Padded,
    order: &[Key],
    limit: u32,
) -> Result<Vec<u32>, BuildErr>
    requires there { IsThere b.old list.now }
    requires fits { KeysFit (length list.now.kinds) [] order.now }
    requires few { length list.now.kinds + length order.now < 2 ^ 32 }
    ensures made { TriesList b.old b.new (kept_gates list.now order.now (Some limit)) result }
    ensures there { GivesGates b.new result }
    ensures count { IfOk result (λ valid. length valid.items ≡ length list.now.valid) }
{
    if limit < list.len() {
        first(alloc, b, list, order, limit)
    } else {
        all(alloc, list)
    }
}

/// The valid plane as it is.
fn all(alloc: Global, list: &Padded) -> Result<Vec<u32>, BuildErr>
    ensures gives { IfOk result (λ valid. valid.items ≡ list.now.valid) }
    ensures memory { IfErr result (λ err. err ≡ BuildErr.Memory) }
{
    let valid = Vec::from_slice(alloc, list.valid())?;
    Ok(valid)
}

/// A plane with no lane where no row is valid.
fn cleared_plane(
    alloc: Global,
    b: &mut Builder,
    valid: &[u32],
    plane: &[u32],
) -> Result<Plane, BuildErr>
    requires valid { GatesThere (length b.old.gates) valid.now }
    requires there { GatesThere (length b.old.gates) plane.now }
    requires wide { length plane.now ≡ length valid.now }
    ensures made { Tries b.old b.new (cleared_gates valid.now plane.now) result }
    ensures there { IfOk result (λ plane. GatesThere (length b.new.gates) plane) }
{
    let mut words = Vec::new(alloc);
    for word in 0..plane.len() {
        let gate = b.and(valid[word], plane[word])?;
        words.push(gate)?;
    }
    Ok(Plane { words })
}

/// The planes with no lane where no row is valid, plane by plane and word by word.
fn cleared_planes(
    alloc: Global,
    b: &mut Builder,
    valid: &[u32],
    planes: &[Plane],
) -> Result<Vec<Plane>, BuildErr>
    requires valid { GatesThere (length b.old.gates) valid.now }
    requires there { PlanesThere (length b.old.gates) planes.now }
    requires wide { All (λ plane. length plane ≡ length valid.now) planes.now }
    ensures made { TriesItems b.old b.new (each (cleared_gates valid.now) planes.now) result }
    ensures there { IfOk result (λ planes. PlanesThere (length b.new.gates) planes.items) }
{
    let mut cleared = Vec::new(alloc);
    for k in 0..planes.len() {
        let plane = cleared_plane(alloc, b, valid, words_of(&planes[k]))?;
        cleared.push(plane)?;
    }
    Ok(cleared)
}

/// The list with those of its valid rows that come first in the order, as many as the limit; all of them where there is none.
/// Its length stays, rows stay where they are, and each lane of a row that is not valid is zero.
pub fn top(
    alloc: Global,
    b: &mut Builder,
    list: &Padded,
    order: &[Key],
    limit: Option<u32>,
) -> Result<Padded, BuildErr>
    requires there { IsThere b.old list.now }
    requires fits { KeysFit (length list.now.kinds) [] order.now }
    requires few { length list.now.kinds + length order.now < 2 ^ 32 }
    ensures made { Tries b.old b.new (top_gates list.now order.now limit) result }
    ensures there { GivesList b.new result }
{
    let valid = kept(alloc, b, list, order, limit)?;
    let planes = cleared_planes(alloc, b, valid.as_slice(), list.planes())?;
    let kinds = Vec::from_slice(alloc, list.kinds())?;
    Ok(Padded::of(list.len, valid, kinds, planes))
}
