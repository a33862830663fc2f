//! The objects outside the desk, as one value.
ghost use Rattle.std.specs.Prelude.{◌≡◌, None, IfOk, IfSome, IsErrOf};
ghost use Rattle.pdn_desk_keeper.specs.Desks.{IsShortText, kept_text, Find, Keep, Count};
ghost use Rattle.pdn_desk.specs.Calls.{Called};

use pdn_base::{Files, Sink};
use pdn_desk_keeper::{DeskKeeper, Kept};
use pdn_http::Call;
use pdn_keeper::{KeepErr, SiteKeeper};
use pdn_query::{Outside, World};
use std::alloc::Global;

/// The objects outside a command, of which the desk is asked besides what it keeps of callers' calls. A call fails only where the
/// count of the desk's keeper rose.
pub trait DeskOutside: Outside {
    /// What is kept for a call, if anything.
    fn kept(&mut self, alloc: Global, call: Call) -> Result<Option<Kept>, KeepErr>
        ensures found { Called (Self.state self.old) (Self.state self.new)
            (Find call.caller call.number result) (IsErrOf result KeepErr.Failed) };

    /// How many calls are kept for a caller.
    fn calls_of(&mut self, alloc: Global, caller: u32) -> Result<u64, KeepErr>
        ensures counted { Called (Self.state self.old) (Self.state self.new)
            (Count caller result) (IsErrOf result KeepErr.Failed) };

    /// Keeps this for a call, for which nothing is kept.
    fn keep(&mut self, alloc: Global, call: Call, kept: &Kept) -> Result<(), KeepErr>
        requires free { IfSome (Self.state self.now).told.desk
            (λ held. kept_text call.caller call.number held.calls ≡ None) }
        requires size { IsShortText kept.now }
        ensures kept { Called (Self.state self.old) (Self.state self.new)
            (Keep call.caller call.number kept.now result) (IsErrOf result KeepErr.Failed) };
}

impl<F: Files, K: SiteKeeper, D: DeskKeeper, S: Sink> DeskOutside for World<F, K, D, S> {
    fn kept(&mut self, alloc: Global, call: Call) -> Result<Option<Kept>, KeepErr> {
        self.desk.kept(alloc, call.caller, call.number)
    }

    fn calls_of(&mut self, alloc: Global, caller: u32) -> Result<u64, KeepErr> {
        self.desk.calls_of(alloc, caller)
    }

    fn keep(&mut self, alloc: Global, call: Call, kept: &Kept) -> Result<(), KeepErr> {
        self.desk.keep(alloc, call.caller, call.number, kept)
    }
}
