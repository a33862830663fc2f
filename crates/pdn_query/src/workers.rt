//! Workers.
ghost use Rattle.std.specs.Prelude.{◌≤◌};

use pdn_broker::Watch;
use pdn_dealer::Deal;
use std::thread::Threads;

/// How many workers run the secure units of a query: 1 to 16.
#[derive(Clone, Copy, Debug)]
pub struct Workers {
    pub count: u32,
    ghost some: { 1 ≤ count },
    ghost few: { count ≤ 16 },
}

/// What runs the units of a query: a dealer of their sections, and workers on a machine's threads.
#[derive(Drop)]
pub struct Crew<'a, R: Threads + Sync, D: Deal + Watch> {
    pub rt: &'a R,
    pub deal: &'a D,
    pub workers: Workers,
}
