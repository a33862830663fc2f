//! The calls of an object in memory.
ghost use Rattle.std.specs.Prelude.{◌≡◌, true};

use std::marker::Model;

/// Counts the calls of an object in memory, which fails at those that are listed, by number from 1.
#[derive(Debug, Drop)]
pub struct Calls {
    fail: Vec<u64>,
    made: u64,
    faults: u64,
}

impl Model for Calls {
    ghost use Rattle.pdn_base.specs.Outside.{CallsMade};

    ghost Value = { CallsMade };

    ghost view = { λ c. record { fail = c.fail.items; made = c.made; faults = c.faults } };
}

impl Calls {
    ghost use Rattle.pdn_base.specs.Outside.{no_calls, called, fails_next, faulted, HasCause};

    /// No call yet; `fail` has the numbers of the calls that are to fail.
    pub fn new(fail: Vec<u64>) -> Calls
        ensures { result ≡ no_calls fail.items }
    {
        Calls {
            fail,
            made: 0,
            faults: 0,
        }
    }

    /// Counts one more call, and says whether it is to fail; its fault is then counted.
    pub fn fails(&mut self) -> bool
        ensures fails { result ≡ fails_next self.old }
        ensures counted { self.new ≡ called self.old }
        ensures cause { HasCause self.old.faults self.new.faults (result ≡ true) }
    {
        self.made = self.made.saturating_add(1);
        let fails = self.fail.contains(&self.made);
        if fails {
            self.faults = self.faults.saturating_add(1);
        }
        fails
    }

    /// Counts a fault that no list named.
    pub fn count_fault(&mut self)
        ensures counted { self.new ≡ faulted self.old }
        ensures rose { HasCause self.old.faults self.new.faults (Unit {0}) }
    {
        self.faults = self.faults.saturating_add(1);
    }
}
