//! What an answer gives.

use pdn_base::Rows;
use pdn_gmw::UnitRun;
use pdn_view::View;

/// A section of the tape that was dealt: the ticket and the unit for which it was.
#[derive(Clone, Copy, Debug, Drop)]
pub struct Dealt {
    pub ticket: u64,
    pub unit: u64,
}

/// The answer of a query: its rows in their order, what A, B and the broker see of it, the sections that were dealt for it, in unit
/// order, and the run on each of them.
#[derive(Drop)]
pub struct Answered {
    pub rows: Rows,
    pub view_a: View,
    pub view_b: View,
    pub view_broker: View,
    pub dealt: Vec<Dealt>,
    pub runs: Vec<UnitRun>,
}
