//! Who keeps the desk's tickets and calls.
ghost use Rattle.std.specs.Prelude.{◌≡◌, ◌≤◌, ◌^◌, ℕ, Option, None, IfOk, IfSome};
ghost use Rattle.pdn_desk_keeper.specs.Desks.{DeskHeld, IsShortText, IsCounted, kept_text};
ghost use Rattle.pdn_desk_keeper.specs.Desks.{Ticket, Find, Keep, Count, IsAnswer, Stands};

use crate::kept::Kept;
use pdn_keeper::KeepErr;
use std::alloc::Global;

/// Keeps the desk's next ticket, and at most one call for each caller and number. A call fails only
/// where the count of faults rose.
pub trait DeskKeeper {
    /// The next ticket and the calls that are kept, where that is told.
    ghost held: { Self → Option DeskHeld };

    /// How many calls have failed.
    ghost faults: { Self → ℕ };

    /// Gives the next ticket, and takes it: the next one is then one more. At 2^40 no ticket is
    /// left: 2^40 is given, and nothing changes. After Failed the ticket is taken or it isn't;
    /// after Memory it isn't.
    fn ticket(&mut self, alloc: Global) -> Result<u64, KeepErr>
        ensures bound { IfOk result (λ ticket. ticket ≤ 2 ^ 40) }
        ensures answer { IsAnswer (held self.old) (Ticket result) }
        ensures stands { Stands (held self.old) (held self.new) (Ticket result) }
        ensures cause { IsCounted (faults self.old) (faults self.new) result };

    /// What is kept for a caller's number, if anything. What is held stays.
    fn kept(&mut self, alloc: Global, caller: u32, number: u64) -> Result<Option<Kept>, KeepErr>
        ensures size { IfOk result (λ found. IfSome found IsShortText) }
        ensures answer { IsAnswer (held self.old) (Find caller number result) }
        ensures stands { Stands (held self.old) (held self.new) (Find caller number result) }
        ensures cause { IsCounted (faults self.old) (faults self.new) result };

    /// Keeps a call, for whose caller and number nothing is kept. After Failed it is kept or it
    /// isn't; after Memory it isn't.
    fn keep(&mut self, alloc: Global, caller: u32, number: u64, kept: &Kept) -> Result<(), KeepErr>
        requires free { IfSome (held self.now) (λ held. kept_text caller number held.calls ≡ None) }
        requires size { IsShortText kept.now }
        ensures stands { Stands (held self.old) (held self.new)
            (Keep caller number kept.now result) }
        ensures cause { IsCounted (faults self.old) (faults self.new) result };

    /// How many numbers are kept for a caller. What is held stays.
    fn calls_of(&mut self, alloc: Global, caller: u32) -> Result<u64, KeepErr>
        ensures answer { IsAnswer (held self.old) (Count caller result) }
        ensures stands { Stands (held self.old) (held self.new) (Count caller result) }
        ensures cause { IsCounted (faults self.old) (faults self.new) result };
}
