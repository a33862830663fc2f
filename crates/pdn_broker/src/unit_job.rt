//! The run of a secure unit, as a job.
ghost use Rattle.std.specs.Prelude.{◌≡◌, ◌<◌, true, length, IfOk};
ghost use Rattle.pdn_dealer.specs.Sections.{section_length};
ghost use Rattle.pdn_broker.specs.Units.{is_secure, net_or};
ghost use Rattle.pdn_broker.specs.Running.{unit_at, secure_run_on};

use crate::answered::Dealt;
use crate::prepared::Prepared;
use crate::shares::Shares;
use crate::unit_run::run_dealt;
use pdn_base::Memory;
use pdn_dealer::{Deal, Section, section_len};
use pdn_gmw::UnitRun;
use pdn_pool::Job;
use std::alloc::Global;
use std::marker::Model;

/// The run of a secure unit of a prepared query, on the section of a ticket and the unit's number. Contracts see the job as the run
/// that it gives.
#[derive(Drop)]
pub(crate) struct UnitJob<'a, D: Deal> {
    pub prepared: &'a Prepared,
    pub at: Dealt,
    pub deal: &'a D,
    ghost in_range: { at.unit < length prepared.now.units },
    ghost secure: { is_secure (unit_at prepared.now at.unit).kind ≡ true },
}

impl<'a, D: Deal> Model for UnitJob<'a, D> {
    ghost use Rattle.pdn_gmw.specs.Pairs.{Run};
    ghost use Rattle.pdn_broker.specs.Running.{secure_run};

    ghost Value = { Run };

    ghost view = { λ job. secure_run job.prepared.now (D.tape job.deal.now) job.at.ticket job.at.unit };
}

impl<'a, D: Deal> Job for UnitJob<'a, D> {
    type Out = UnitRun;

    ghost gives = { λ job run. run ≡ job };

    fn run(&self, alloc: Global) -> Result<UnitRun, Memory> {
        let len = section_len_at(self.prepared, self.at.unit);
        let section = self.deal.section(alloc, self.at.ticket, self.at.unit, len)?;
        secure_run(alloc, self.prepared, self.at.unit, section)
    }
}

/// How many words the section of a secure unit has.
fn section_len_at(prepared: &Prepared, unit: u64) -> u64
    requires in_range { unit < length prepared.now.units }
    requires secure { is_secure (unit_at prepared.now unit).kind ≡ true }
    ensures { result ≡ section_length (net_or (unit_at prepared.now unit).circuit) }
{
    section_len(prepared.circuit(unit))
}

/// The run of a secure unit on the section that was dealt for it.
fn secure_run(
    alloc: Global,
    prepared: &Prepared,
    unit: u64,
    section: Section,
) -> Result<UnitRun, Memory>
    requires in_range { unit < length prepared.now.units }
    requires secure { is_secure (unit_at prepared.now unit).kind ≡ true }
    requires section { length section ≡ section_length
        (net_or (unit_at prepared.now unit).circuit) }
    ensures { IfOk result (λ run. run ≡ secure_run_on prepared.now unit section) }
{
    let own = prepared.secure_words(alloc, unit)?;
    let circuit = prepared.circuit(unit);
    run_dealt(alloc, circuit, own, Shares::new(alloc), section)
}
