//! Words of 64 lanes. Contracts see a word as a number: lane l is bit l.
ghost use Rattle.std.specs.Prelude.{◌≡◌, ◌≤◌, ◌<◌, ◌+◌, ◌==◌};
ghost use Rattle.std.specs.Int.{bit_at};
ghost use Rattle.pdn_base.specs.Words.{◌⊕◌, ◌⊗◌, spread, moved};

use std::marker::Model;

/// 64 lanes, each true or false.
#[derive(Clone, Copy, Debug, PartialEq, Eq)]
pub struct Word {
    pub(crate) bits: u64,
}

impl Model for Word {
    ghost use Rattle.std.specs.Prelude.{ℕ};
    ghost use Rattle.std.proofs.Common.{refl};

    ghost Value = { ℕ };

    ghost view = { λ w. w.bits };

    ghost inverse = { λ n. record { bits = n } };

    ghost inverse_ok = { λ a h. refl };
}

impl Word {
    /// The word whose lane l is bit l.
    pub fn from_u64(bits: u64) -> Word
        ensures { result ≡ bits }
    {
        Word { bits }
    }

    /// The number whose bit l is lane l.
    pub fn to_u64(&self) -> u64
        ensures { result ≡ self.now }
    {
        self.bits
    }

    /// One lane, from 0 to 63.
    pub fn lane(&self, lane: u8) -> bool
        requires { lane < 64 }
        ensures { result ≡ (bit_at self.now lane == 1) }
    {
        (self.bits >> lane) & 1 == 1
    }

    /// The lanes in which just one of the two words is true.
    pub fn xor(&self, other: &Word) -> Word
        ensures { result ≡ self.now ⊕ other.now }
    {
        Word {
            bits: self.bits ^ other.bits,
        }
    }

    /// The lanes in which both words are true.
    pub fn and(&self, other: &Word) -> Word
        ensures { result ≡ self.now ⊗ other.now }
    {
        Word {
            bits: self.bits & other.bits,
        }
    }

    /// One lane in all lanes.
    #[tactic(auto, unfolding(crate::specs::Words::spread))]
    pub fn spread(&self, lane: u8) -> Word
        requires { lane < 64 }
        ensures { result ≡ spread self.now lane }
    {
        let bits = if (self.bits >> lane) & 1 == 1 {
            u64::MAX
        } else {
            0
        };
        Word { bits }
    }

    /// `count` lanes, which begin at lane `from`, now begin at `to`; the others are false.
    pub fn move_lanes(&self, from: u8, count: u8, to: u8) -> Word
        requires some { 1 ≤ count }
        requires from { from + count ≤ 64 }
        requires to { to + count ≤ 64 }
        ensures { result ≡ moved self.now from count to }
    {
        Word {
            bits: moved_bits(self.bits, from, count, to),
        }
    }
}

// Some bits moved, the others 0.
#[tactic(auto, unfolding(crate::specs::Words::moved))]
fn moved_bits(bits: u64, from: u8, count: u8, to: u8) -> u64
    requires some { 1 ≤ count }
    requires from { from + count ≤ 64 }
    requires to { to + count ≤ 64 }
    ensures { result ≡ moved bits from count to }
{
    if count == 64 {
        bits
    } else {
        ((bits >> from) & ((1u64 << count) - 1)) << to
    }
}
