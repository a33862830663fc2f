//! The runs of all units in two worlds.
ghost use Rattle.std.specs.Prelude.{◌≡◌, ◌++◌, [], ◌∷◌, map, IfOk, OnOk};
ghost use Rattle.pdn_broker.specs.Running.{outputs_of};
ghost use Rattle.pdn_twin.specs.declared.unit_twin.UnitTwin.{UnitTwin as UnitTwinRuns};

use crate::twins::Change;
use crate::unit_twin::UnitTwin;
use pdn_base::Memory;
use pdn_broker::Shares;
use pdn_gmw::UnitRun;
use std::alloc::Global;

/// The runs of the units in each world, and where their sections change.
#[derive(Drop)]
pub(crate) struct Runs {
    pub first: Vec<UnitRun>,
    pub second: Vec<UnitRun>,
    pub changed: Vec<Change>,
}

impl Runs {
    fn new(alloc: Global) -> Runs
        ensures first { result.first.items ≡ [] }
        ensures second { result.second.items ≡ [] }
        ensures changed { result.changed.items ≡ [] }
    {
        Runs {
            first: Vec::new(alloc),
            second: Vec::new(alloc),
            changed: Vec::new(alloc),
        }
    }

    /// Adds a unit.
    pub fn push(&mut self, twin: UnitTwin) -> Result<(), Memory>
        ensures first { OnOk result
            (self.new.first.items ≡ self.old.first.items ++ twin.first ∷ []) }
        ensures second { OnOk result
            (self.new.second.items ≡ self.old.second.items ++ twin.second ∷ []) }
        ensures changed { OnOk result
            (self.new.changed.items ≡ self.old.changed.items ++ twin.change ∷ []) }
    {
        let UnitTwin {
            first,
            second,
            change,
        } = twin;
        self.first.push(first)?;
        self.second.push(second)?;
        self.changed.push(change)?;
        Ok(())
    }
}

/// The units' runs, world by world.
pub(crate) fn by_world(alloc: Global, twins: Vec<UnitTwin>) -> Result<Runs, Memory>
    ensures first { IfOk result (λ runs.
        runs.first.items ≡ map (λ (t : UnitTwinRuns). t.first) twins.items) }
    ensures second { IfOk result (λ runs.
        runs.second.items ≡ map (λ (t : UnitTwinRuns). t.second) twins.items) }
    ensures changed { IfOk result (λ runs.
        runs.changed.items ≡ map (λ (t : UnitTwinRuns). t.change) twins.items) }
{
    let mut runs = Runs::new(alloc);
    for twin in twins {
        runs.push(twin)?;
    }
    Ok(runs)
}

/// What each site's halves of these runs put out, one after the other.
pub(crate) fn outputs_of(alloc: Global, runs: &[UnitRun]) -> Result<Shares, Memory>
    ensures { IfOk result (λ outputs. outputs ≡ outputs_of runs.now) }
{
    let mut a = Vec::new(alloc);
    let mut b = Vec::new(alloc);
    for k in 0..runs.len() {
        a.extend_from_slice(runs[k].a().outputs())?;
        b.extend_from_slice(runs[k].b().outputs())?;
    }
    Ok(Shares { a, b })
}
