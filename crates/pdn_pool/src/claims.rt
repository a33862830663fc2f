//! The shared word from which numbers are drawn, and the seats that draw them.
ghost use Rattle.std.specs.Prelude.{◌≡◌, ℕ, ◌+◌, ◌-◌, ◌<◌, ◌≤◌, ◌^◌, [], ◌∷◌, ◌++◌, length, IfOk, All};

use crate::rule::{Drawing, Hand};
use atomic_table::Table;
use pdn_base::Memory;
use std::alloc::Global;

/// A shared word. The numbers that its seats drew, at any moment and on whichever threads, are those below the word,
/// each drawn once.
#[derive(Drop)]
pub struct Claims {
    pub(crate) table: Table<(), Hand, (), Drawing, Global>,
    ghost one: { table.shared.table_id.words ≡ 1 },
}

/// The right to draw from one shared word, which a thread holds, and the list of what was drawn by it.
#[derive(Drop)]
pub struct Seat {
    pub(crate) seat: atomic_table::Seat<(), Hand>,
    count: u32,
    ghost counted: { count ≡ length seat.me.0.drawn },
    ghost empty: { seat.me.1 ≡ [] },
    ghost heavy: { 1 ≤ seat.me.0.weight },
}

impl Claims {
    ghost use Rattle.pdn_pool.specs.Seats.{IsSeatOf, drawn, weight, IsFresh};

    /// A word from which nothing was drawn, and 1 to 65535 seats that draw from it.
    pub fn new(alloc: Global, seats: u32) -> Result<(Claims, Vec<Seat>), Memory>
        requires { (1 ≤ seats) × (seats ≤ 65535) }
        ensures count { IfOk result (λ r. length r.1.items ≡ seats) }
        ensures fresh { IfOk result (λ r. All (IsFresh r.0) r.1.items) }
    {
        let (claims, first, mut all) = Claims::crew(alloc, seats - 1)?;
        all.push(first)?;
        Ok((claims, all))
    }

    /// Adds 1 to the word, in one step that waits for no other thread. The answer is the word's value before, a
    /// number that no other draw gives; it joins the seat's list. Takes no memory.
    pub fn draw(&self, seat: &mut Seat) -> u64
        requires own { IsSeatOf self.now seat.old }
        requires room { length (drawn seat.old) < 2 ^ 32 - 1 }
        ensures own { IsSeatOf self.now seat.new }
        ensures drawn { drawn seat.new ≡ drawn seat.old ++ result ∷ [] }
        ensures weight { weight seat.new ≡ weight seat.old }
        ensures least { length (drawn seat.old) ≤ result }
    {
        let found = self.table.shared.fetch_add::<Drawing>(&mut seat.seat, 0, 1);
        seat.count += 1;
        found
    }

    // A word, the first seat, which keeps the rest of the weight, and further seats of weight 1.
    pub(crate) fn crew(alloc: Global, others: u32) -> Result<(Claims, Seat, Vec<Seat>), Memory>
        requires { others < 65535 }
        ensures first { IfOk result (λ r. IsFresh r.0 r.1 × (weight r.1 + others ≡ 65535)) }
        ensures count { IfOk result (λ r. length r.2.items ≡ others) }
        ensures fresh { IfOk result (λ r. All (IsFresh r.0) r.2.items) }
        ensures weight { IfOk result (λ r. All (λ s. weight s ≡ 1) r.2.items) }
    {
        let (claims, mut first) = Claims::open(alloc)?;
        let mut seats = Vec::with_capacity(alloc, others as usize + 1)?;
        for _ in 0..others {
            seats.push(claims.split(&mut first))?;
        }
        Ok((claims, first, seats))
    }

    fn open(alloc: Global) -> Result<(Claims, Seat), Memory>
        ensures { IfOk result (λ r. IsFresh r.0 r.1 × (weight r.1 ≡ 65535)) }
    {
        let (table, seat) = Table::of_words(alloc, &[0], &())?;
        Ok((Claims { table }, Seat { seat, count: 0 }))
    }

    // A new seat, to which weight 1 goes.
    fn split(&self, seat: &mut Seat) -> Seat
        requires fresh { IsFresh self.now seat.old }
        requires heavy { 2 ≤ weight seat.old }
        ensures left { IsFresh self.now seat.new × (weight seat.new + 1 ≡ weight seat.old) }
        ensures right { IsFresh self.now result × (weight result ≡ 1) }
    {
        let new = self.table.shared.split_seat::<Drawing>(&mut seat.seat);
        Seat {
            seat: new,
            count: 0,
        }
    }
}

impl Seat {
    ghost use Rattle.pdn_pool.specs.Seats.{drawn};

    /// How many numbers the seat drew. Takes no memory.
    pub fn drawn(&self) -> u32
        ensures { result ≡ length (drawn self.now) }
    {
        self.count
    }
}
