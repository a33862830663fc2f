//! A secure unit's run in two worlds, as a job.
ghost use Rattle.std.specs.Prelude.{◌≡◌, ◌<◌, true, length, IfOk};
ghost use Rattle.std.specs.Coded.{codes};
ghost use Rattle.std.proofs.Props.{props};
ghost use Rattle.pdn_broker.specs.Runs.{Takes};
ghost use Rattle.pdn_broker.specs.Units.{is_secure};
ghost use Rattle.pdn_broker.specs.Running.{unit_at};
ghost use Rattle.pdn_worlds.specs.PlainWords.{net_at};
ghost use Rattle.pdn_worlds.specs.TapeChange.{section_length_at};
ghost use Rattle.pdn_twin.specs.UnitTwins.{secure_start, secure_starts, twin_on};

use crate::starts::{Start, Starts};
use crate::twins::Worlds;
use crate::unit_twin::{UnitTwin, twin_on};
use pdn_base::Memory;
use pdn_broker::{Dealt, Prepared, Shares};
use pdn_dealer::{Deal, Section, section_len};
use pdn_pool::Job;
use std::alloc::Global;
use std::marker::Model;

/// The run of a secure unit in two worlds, in the first on the section of a ticket and the unit's number, in the second on its change.
/// Contracts see the job as what it gives.
#[derive(Drop)]
pub(crate) struct TwinJob<'a, D: Deal> {
    pub worlds: &'a Worlds,
    pub at: Dealt,
    pub deal: &'a D,
    ghost same: { worlds.now.second.units ≡ worlds.now.first.units } by { Prim.hlevel (props, codes) },
    ghost in_range: { at.unit < length worlds.now.first.units },
    ghost secure: { is_secure (unit_at worlds.now.first at.unit).kind ≡ true },
}

impl<'a, D: Deal> Model for TwinJob<'a, D> {
    ghost use Rattle.pdn_twin.specs.declared.unit_twin.UnitTwin.{UnitTwin};
    ghost use Rattle.pdn_twin.specs.UnitTwins.{secure_twin};

    ghost Value = { UnitTwin };

    ghost view = { λ job. secure_twin job.worlds.now.site job.worlds.now.first job.worlds.now.second
        (D.tape job.deal.now) job.at.ticket job.at.unit };
}

impl<'a, D: Deal> Job for TwinJob<'a, D> {
    type Out = UnitTwin;

    ghost gives = { λ job twin. twin ≡ job };

    fn run(&self, alloc: Global) -> Result<UnitTwin, Memory> {
        let len = section_len_at(&self.worlds.first, self.at.unit);
        let section = self.deal.section(alloc, self.at.ticket, self.at.unit, len)?;
        secure_twin(alloc, self.worlds, self.at.unit, section)
    }
}

/// How many words the section of a secure unit has.
fn section_len_at(prepared: &Prepared, unit: u64) -> u64
    requires in_range { unit < length prepared.now.units }
    requires secure { is_secure (unit_at prepared.now unit).kind ≡ true }
    ensures { result ≡ section_length_at prepared.now unit }
{
    section_len(prepared.circuit(unit))
}

/// What a secure unit begins with.
fn secure_start(alloc: Global, prepared: &Prepared, unit: u64) -> Result<Start, Memory>
    requires in_range { unit < length prepared.now.units }
    requires secure { is_secure (unit_at prepared.now unit).kind ≡ true }
    ensures is { IfOk result (λ start. start ≡ secure_start prepared.now unit) }
    ensures takes { IfOk result (λ start. Takes (net_at prepared.now unit) start.own start.given) }
{
    // what a prepared query keeps is known once it is asked
    let _units = prepared.units();
    let own = prepared.secure_words(alloc, unit)?;
    Ok(Start {
        own,
        given: Shares::new(alloc),
    })
}

/// The run of a secure unit in both worlds, which have the same units.
fn secure_twin(
    alloc: Global,
    worlds: &Worlds,
    unit: u64,
    section: Section,
) -> Result<UnitTwin, Memory>
    requires same { worlds.now.second.units ≡ worlds.now.first.units }
    requires in_range { unit < length worlds.now.first.units }
    requires secure { is_secure (unit_at worlds.now.first unit).kind ≡ true }
    requires section { length section ≡ section_length_at worlds.now.first unit }
    ensures { IfOk result (λ twin.
        twin ≡ twin_on worlds.now.site (net_at worlds.now.first unit) unit
        (secure_starts worlds.now.first worlds.now.second unit) section) }
{
    let first = secure_start(alloc, &worlds.first, unit)?;
    let second = secure_start(alloc, &worlds.second, unit)?;
    let net = worlds.first.circuit(unit);
    let starts = Starts { first, second };
    twin_on(alloc, worlds.site, net, unit, starts, section)
}
