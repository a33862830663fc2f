//! What is told of runs.

use pdn_dealer::{ChaChaDeal, ListDeal};
use pdn_gmw::UnitRun;

/// Is told of each unit's run, once the root has run. Nothing is promised of it but that it returns.
pub trait Watch: Sync {
    /// The unit of this number has run, for the query of this ticket.
    fn ran(&self, ticket: u64, unit: u64, run: &UnitRun);
}

impl Watch for ChaChaDeal {
    fn ran(&self, _ticket: u64, _unit: u64, _run: &UnitRun) {}
}

impl Watch for ListDeal {
    fn ran(&self, _ticket: u64, _unit: u64, _run: &UnitRun) {}
}
