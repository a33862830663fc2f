//! Seats that were joined into one.
ghost use Rattle.std.specs.Prelude.{◌≡◌, ℕ, ◌+◌, [], ◌++◌};

use crate::claims::{Claims, Seat};
use crate::rule::{Drawing, Hand, Whole};

/// A seat with the weights and the lists of all that were joined into it.
#[derive(Drop)]
pub struct Joined {
    pub seat: atomic_table::Seat<(), Hand>,
    ghost empty: { seat.me.1 ≡ [] },
}

impl Joined {
    ghost use Rattle.pdn_pool.specs.Draws.{times, once_below};
    ghost use Rattle.pdn_pool.specs.Seats.{IsSeatOf, drawn, weight};

    /// One seat, to which others are to be joined.
    pub fn new(seat: Seat) -> Joined
        ensures own { result.seat.table_id ≡ seat.seat.table_id }
        ensures same { result.seat.me.0 ≡ seat.seat.me.0 }
    {
        let Seat { seat, .. } = seat;
        Joined { seat }
    }

    /// Adds the other seat's weight, and puts its list behind.
    pub fn join(&mut self, claims: &Claims, other: Seat)
        requires own { self.old.seat.table_id ≡ claims.now.table.shared.table_id }
        requires other { IsSeatOf claims.now other }
        ensures own { self.new.seat.table_id ≡ claims.now.table.shared.table_id }
        ensures weight { self.new.seat.me.0.weight ≡ self.old.seat.me.0.weight + weight other }
        ensures drawn { self.new.seat.me.0.drawn ≡ self.old.seat.me.0.drawn ++ drawn other }
    {
        let Seat { seat, .. } = other;
        claims
            .table
            .shared
            .join_seat::<Drawing>(&mut self.seat, seat);
    }

    /// With the whole weight: the word, below which each number was drawn once.
    pub fn word(&mut self, claims: &Claims) -> u64
        requires own { self.old.seat.table_id ≡ claims.now.table.shared.table_id }
        requires whole { self.old.seat.me.0.weight ≡ 65535 }
        ensures all { (x : ℕ) → times x self.old.seat.me.0.drawn ≡ once_below x result }
    {
        claims.table.shared.load::<Whole>(&mut self.seat, 0)
    }
}
