//! How many gates of each kind a builder holds, and why it takes no more.
ghost use Rattle.std.specs.Prelude.{◌≡◌, ◌<◌, ◌+◌, ◌^◌, ◌∷◌, []};
ghost use Rattle.pdn_circuit.specs.Building.{IsTally, tally_sum};

use crate::Gate;
use pdn_base::Site;
use std::alloc::{AllocError, AllocFailed};

/// Why gates were not made.
#[derive(Clone, Copy, Debug, PartialEq, Eq)]
pub enum BuildErr {
    /// They don't fit: limit 2 for an And gate too many, 3 for a gate too many.
    Full { limit: u8 },
    /// Memory ran out.
    Memory,
}

impl From<AllocError> for BuildErr {
    ghost use Rattle.std.specs.Prelude.{◌≡◌};
    ghost use Rattle.pdn_circuit.specs.declared.tally.BuildErr.TheVariants.{Memory};

    ghost from_gives = { λ _ e. e ≡ Memory };

    fn from(_: AllocError) -> BuildErr {
        BuildErr::Memory
    }
}

impl<T: Drop> From<AllocFailed<T>> for BuildErr {
    ghost use Rattle.std.specs.Prelude.{◌≡◌};
    ghost use Rattle.pdn_circuit.specs.declared.tally.BuildErr.TheVariants.{Memory};

    ghost from_gives = { λ _ e. e ≡ Memory };

    fn from(_: AllocFailed<T>) -> BuildErr {
        BuildErr::Memory
    }
}

/// How many And gates, inputs of each site and given words there are.
#[derive(Clone, Copy, Debug)]
pub(crate) struct Tally {
    pub(crate) ands: u32,
    pub(crate) a: u32,
    pub(crate) b: u32,
    pub(crate) given: u32,
}

impl Tally {
    pub(crate) fn plus(&self, other: &Tally) -> Tally
        requires ands { self.now.ands + other.now.ands < 2 ^ 32 }
        requires a { self.now.a + other.now.a < 2 ^ 32 }
        requires b { self.now.b + other.now.b < 2 ^ 32 }
        requires given { self.now.given + other.now.given < 2 ^ 32 }
        ensures { result ≡ tally_sum self.now other.now }
    {
        Tally {
            ands: self.ands + other.ands,
            a: self.a + other.a,
            b: self.b + other.b,
            given: self.given + other.given,
        }
    }
}

/// A place in a builder's gates to which it can be cut back.
#[derive(Clone, Copy)]
pub(crate) struct Mark {
    pub(crate) gates: usize,
    pub(crate) tally: Tally,
}

/// What one gate adds.
pub(crate) fn tally_of(gate: &Gate) -> Tally
    ensures { IsTally result (gate.now ∷ []) }
{
    let none = Tally {
        ands: 0,
        a: 0,
        b: 0,
        given: 0,
    };
    match gate {
        Gate::Input { site: Site::A, .. } => Tally { a: 1, ..none },
        Gate::Input { site: Site::B, .. } => Tally { b: 1, ..none },
        Gate::Given { .. } => Tally { given: 1, ..none },
        Gate::And { .. } => Tally { ands: 1, ..none },
        Gate::Const { .. } | Gate::Xor { .. } | Gate::Spread { .. } | Gate::Move { .. } => none,
    }
}
