//! A dealer that counts what it is asked for and told.
ghost use Rattle.std.specs.Prelude.{◌≡◌, ℕ, IfOk};
ghost use Rattle.pdn_dealer.specs.Tapes.{first_words, list_tape};

use pdn_base::Memory;
use pdn_broker::Watch;
use pdn_dealer::{Deal, ListDeal, Section};
use pdn_gmw::UnitRun;
use std::alloc::Global;
use std::sync::atomic::{AtomicU64, Ordering};

/// Counts of the first 16 units of a ticket, a hexadecimal digit each: the sections that are asked for, and the runs that are told.
#[derive(Drop)]
pub struct Counts {
    sections: AtomicU64,
    runs: AtomicU64,
}

impl Counts {
    fn new() -> Counts {
        Counts {
            sections: AtomicU64::new(0),
            runs: AtomicU64::new(0),
        }
    }

    /// The sections that were asked for, and the runs that were told.
    pub fn told(&self) -> (u64, u64) {
        (
            self.sections.load(Ordering::SeqCst),
            self.runs.load(Ordering::SeqCst),
        )
    }
}

/// A tape of zeros that counts, for tickets 0 and 1, the sections that are asked for and the runs that are told. `others` has all
/// other ones.
#[derive(Drop)]
pub struct Recording {
    zeros: ListDeal,
    pub first: Counts,
    pub second: Counts,
    pub others: Counts,
}

impl Recording {
    pub fn new(alloc: Global) -> Recording {
        Recording {
            zeros: ListDeal::new(Vec::new(alloc)),
            first: Counts::new(),
            second: Counts::new(),
            others: Counts::new(),
        }
    }

    // The counts in which this ticket and unit stand.
    fn counts(&self, ticket: u64, unit: u64) -> &Counts {
        match ticket {
            0 if unit < 16 => &self.first,
            1 if unit < 16 => &self.second,
            _ => &self.others,
        }
    }
}

// One, in the digit of a unit.
fn digit(unit: u64) -> u64 {
    if unit < 16 { 1 << (4 * unit) } else { 1 }
}

impl Deal for Recording {
    ghost use Rattle.std.specs.Prelude.{IfOk};

    ghost tape = { λ d. list_tape d.zeros };

    fn section(&self, alloc: Global, ticket: u64, unit: u64, len: u64) -> Result<Section, Memory> {
        let counts = self.counts(ticket, unit);
        let _before = counts.sections.fetch_add(digit(unit), Ordering::SeqCst);
        self.zeros.section(alloc, ticket, unit, len)
    }
}

impl Watch for Recording {
    fn ran(&self, ticket: u64, unit: u64, _run: &UnitRun) {
        let counts = self.counts(ticket, unit);
        let _before = counts.runs.fetch_add(digit(unit), Ordering::SeqCst);
    }
}
