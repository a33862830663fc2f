//! Dealers.
ghost use Rattle.std.specs.Prelude.{◌≡◌, ℕ, IfOk};
ghost use Rattle.pdn_dealer.specs.Tapes.{first_words};

use crate::Section;
use pdn_base::Memory;
use std::alloc::Global;

/// A dealer: a tape with a word for each ticket, unit and place.
pub trait Deal: Sync {
    ghost tape: { Self → ℕ → ℕ → ℕ → ℕ };

    /// The first `len` words of the section of a ticket and a unit.
    fn section(&self, alloc: Global, ticket: u64, unit: u64, len: u64) -> Result<Section, Memory>
        ensures { IfOk result (λ s. s ≡ first_words (tape self.now ticket unit) len) };
}
