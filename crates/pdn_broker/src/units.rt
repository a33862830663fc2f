//! The units of a query, one by one.
ghost use Rattle.std.specs.Prelude.{◌≡◌, ◌<◌, ◌++◌, [], ◌∷◌, length, get_or, cond, IsSome, IfOk, OnOk};
ghost use Rattle.pdn_circuit.specs.Gates.{InOrder};
ghost use Rattle.pdn_site.specs.Engines.{no_unit};
ghost use Rattle.pdn_broker.specs.Units.{net_or, is_secure, is_dealt, dealt_of, CircuitStands, UnitsStand};

use crate::answered::Dealt;
use pdn_base::Memory;
use pdn_circuit::Circuit;
use pdn_site::{Unit, UnitKind, Units};
use std::alloc::Global;

pub(crate) fn unit_at(units: &Units, unit: u64) -> &Unit
    requires { unit < length units.now }
    ensures { result.now ≡ get_or units.now unit no_unit }
{
    &units.units[unit as usize]
}

/// The circuit of a unit that has one.
pub(crate) fn circuit_of(unit: &Unit) -> &Circuit
    requires { IsSome unit.now.circuit }
    ensures { result.now ≡ net_or unit.now.circuit }
{
    match &unit.circuit {
        Some(circuit) => circuit,
        None => unreachable!(),
    }
}

/// For how many rows the unit's last list has room.
pub(crate) fn room_of(unit: &Unit) -> u32
    ensures { result ≡ unit.now.len }
{
    unit.len
}

pub(crate) fn is_secure(unit: &Unit) -> bool
    ensures { result ≡ is_secure unit.now.kind }
{
    match unit.kind {
        UnitKind::Plain(_) => false,
        UnitKind::Secure => true,
        UnitKind::Root => false,
    }
}

/// Whether a section is dealt for the unit.
pub(crate) fn is_dealt(unit: &Unit) -> bool
    ensures { result ≡ is_dealt unit.now.kind }
{
    match unit.kind {
        UnitKind::Plain(_) => false,
        UnitKind::Secure => true,
        UnitKind::Root => true,
    }
}

/// Adds the section of a unit, where one is dealt for it.
fn push_dealt(dealt: &mut Vec<Dealt>, unit: &Unit, at: Dealt) -> Result<(), Memory>
    ensures { OnOk result (dealt.new.items
        ≡ dealt.old.items ++ cond (is_dealt unit.now.kind) (at ∷ []) []) }
{
    if is_dealt(unit) {
        dealt.push(at)?;
    }
    Ok(())
}

/// The sections that are dealt for a query's units.
pub(crate) fn dealt_sections(
    alloc: Global,
    units: &Units,
    ticket: u64,
) -> Result<Vec<Dealt>, Memory>
    ensures { IfOk result (λ dealt. dealt.items ≡ dealt_of ticket units.now) }
{
    let mut dealt = Vec::new(alloc);
    for k in 0..units.units.len() {
        let at = Dealt {
            ticket,
            unit: k as u64,
        };
        push_dealt(&mut dealt, unit_at(units, at.unit), at)?;
    }
    Ok(dealt)
}

// what the type of a circuit keeps is known once it is looked at
fn look_at_circuit(circuit: &Circuit)
    ensures { InOrder circuit.now.gates }
{
    let _released = circuit.released;
}

fn look_at_unit(unit: &Unit)
    ensures { CircuitStands unit.now.circuit }
{
    if let Some(circuit) = &unit.circuit {
        look_at_circuit(circuit);
    }
}

/// Each gate of the units' circuits stands after those that it reads.
pub(crate) fn look_at_units(units: &Units)
    ensures { UnitsStand units.now }
{
    for k in 0..units.units.len() {
        look_at_unit(unit_at(units, k as u64));
    }
}
