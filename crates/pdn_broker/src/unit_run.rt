//! A circuit's run by two halves.
ghost use Rattle.std.specs.Prelude.{◌≡◌, length, IfOk};
ghost use Rattle.pdn_dealer.specs.Sections.{layout_of, section_length};
ghost use Rattle.pdn_broker.specs.Runs.{Takes, section_at, run_on};

use crate::answered::Dealt;
use crate::shares::Shares;
use pdn_base::{Memory, Site};
use pdn_circuit::Circuit;
use pdn_dealer::{Deal, Section, section_len};
use pdn_gmw::{Half, Schedule, UnitRun, run_pair};
use std::alloc::Global;

/// The run of a circuit by two halves, on the sites' own words and their shares of given ones, as many as the circuit takes, and on
/// the section that is dealt for this ticket and unit.
///
/// Memory is the only error.
pub fn run_unit<D: Deal>(
    alloc: Global,
    circuit: &Circuit,
    own: Shares,
    given: Shares,
    deal: &D,
    at: Dealt,
) -> Result<UnitRun, Memory>
    requires { Takes circuit.now own given }
    ensures { IfOk result (λ run.
        run ≡ run_on circuit.now (section_at (D.tape deal.now) at circuit.now) own given) }
{
    let section = deal.section(alloc, at.ticket, at.unit, section_len(circuit))?;
    run_dealt(alloc, circuit, own, given, section)
}

/// The run of a circuit by two halves, on the sites' own words and their shares of given ones, as many as the circuit takes, and on
/// a section that was dealt with as many words as the circuit needs.
///
/// Memory is the only error.
pub fn run_dealt(
    alloc: Global,
    circuit: &Circuit,
    own: Shares,
    given: Shares,
    section: Section,
) -> Result<UnitRun, Memory>
    requires takes { Takes circuit.now own given }
    requires section { length section ≡ section_length circuit.now }
    ensures { IfOk result (λ run. run ≡ run_on circuit.now (layout_of circuit.now section) own
        given) }
{
    let (part_a, part_b) = section.split(alloc, circuit)?;
    let schedule = Schedule::new(alloc, circuit)?;
    let a = Half::on(alloc, &schedule, Site::A, own.a, given.a, part_a)?;
    let b = Half::on(alloc, &schedule, Site::B, own.b, given.b, part_b)?;
    run_pair(alloc, a, b)
}
