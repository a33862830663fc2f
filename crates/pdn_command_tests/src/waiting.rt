//! A dealer whose first call waits for the other secure units.
ghost use Rattle.std.specs.Prelude.{◌≡◌, IfOk};
ghost use Rattle.pdn_dealer.specs.Tapes.{first_words, list_tape};

use pdn_base::Memory;
use pdn_broker::Watch;
use pdn_dealer::{Deal, ListDeal, Section};
use pdn_gmw::UnitRun;
use std::alloc::Global;
use std::sync::atomic::{AtomicBool, AtomicU64, Ordering};

/// A tape of zeros. The call of `section` that comes first waits, for at most 1,000,000,000 turns, until so many calls came, and keeps
/// whether they did: so it returns with `met` only where others ask while it waits.
#[derive(Drop)]
pub struct Waiting {
    zeros: ListDeal,
    all: u64,
    calls: AtomicU64,
    met: AtomicBool,
}

impl Waiting {
    pub fn new(alloc: Global, all: u64) -> Waiting {
        Waiting {
            zeros: ListDeal::new(Vec::new(alloc)),
            all,
            calls: AtomicU64::new(0),
            met: AtomicBool::new(false),
        }
    }

    /// Whether the first call saw all of them.
    pub fn met(&self) -> bool {
        self.met.load(Ordering::SeqCst)
    }

    fn wait(&self) {
        for _ in 0..1_000_000_000u64 {
            if self.calls.load(Ordering::SeqCst) == self.all {
                self.met.store(true, Ordering::SeqCst);
                return;
            }
        }
    }
}

impl Deal for Waiting {
    ghost use Rattle.std.specs.Prelude.{IfOk};

    ghost tape = { λ d. list_tape d.zeros };

    fn section(&self, alloc: Global, ticket: u64, unit: u64, len: u64) -> Result<Section, Memory> {
        if self.calls.fetch_add(1, Ordering::SeqCst) == 0 {
            self.wait();
        }
        self.zeros.section(alloc, ticket, unit, len)
    }
}

impl Watch for Waiting {
    fn ran(&self, _ticket: u64, _unit: u64, _run: &UnitRun) {}
}
