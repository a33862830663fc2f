//! A desk's keeper in memory.
ghost use Rattle.std.specs.Prelude.{◌≡◌, ◌≤◌, ◌^◌, ◌++◌, ◌∷◌, [], IfOk, IfSome, OnOk, OnErr, All};
ghost use Rattle.std.specs.List.{find};
ghost use Rattle.std.specs.Option.{option_copied};
ghost use Rattle.pdn_desk_keeper.specs.Desks.{KeptCall, is_call, kept_call};
ghost use Rattle.pdn_desk_keeper.specs.Desks.{count_calls, kept_text, IsShortText};

use crate::{DeskKeeper, Kept};
use pdn_base::{Calls, Memory};
use pdn_keeper::KeepErr;
use std::alloc::Global;
use std::marker::Model;

/// A caller's call that is kept.
#[derive(Debug, Drop)]
struct Call {
    caller: u32,
    number: u64,
    kept: Kept,
}

/// How many tickets there are: the next one is at most this.
const TICKETS: u64 = 1 << 40;

/// A desk's keeper in memory, whose calls fail at those that are listed, by number from 1; nothing
/// is then changed. With an empty list none fails.
#[derive(Drop)]
pub struct MemDesk {
    next: u64,
    kept: Vec<Call>,
    calls: Calls,
}

impl Model for Call {
    ghost use Rattle.pdn_desk_keeper.specs.Desks.{KeptCall};

    ghost Value = { KeptCall };

    ghost view = { λ c. record { caller = c.caller; number = c.number; kept = c.kept } };
}

impl Model for MemDesk {
    ghost use Rattle.std.specs.Prelude.{◌≡◌, ◌≤◌, ◌^◌, [], All};
    ghost use Rattle.pdn_desk_keeper.specs.Desks.{DeskMemory, KeptCall, IsShortText};

    ghost Value = { DeskMemory };

    ghost view = { λ d. record {
      held = record { next = d.next; calls = d.kept.items };
      made = d.calls;
    } };

    ghost invariant = { λ d. (d.next ≤ 2 ^ 40)
        × All (λ (call : KeptCall). IsShortText call.kept) d.kept.items
        × (d.calls.fail ≡ [] → d.calls.faults ≡ 0) };
}

impl MemDesk {
    ghost use Rattle.pdn_desk_keeper.specs.Desks.{empty_desk};

    /// Nothing is kept; `next` is the next ticket, and `fail` has the numbers of the calls that are
    /// to fail.
    pub fn new(next: u64, fail: Vec<u64>) -> MemDesk
        requires { next ≤ 2 ^ 40 }
        ensures { result ≡ empty_desk next fail.items }
    {
        let kept = Vec::new(*fail.allocator());
        MemDesk {
            next,
            kept,
            calls: Calls::new(fail),
        }
    }

    /// The next ticket.
    pub fn next(&self) -> u64
        ensures next { result ≡ self.now.held.next }
        ensures bound { result ≤ 2 ^ 40 }
    {
        self.next
    }
}

/// The caller's call of this number.
fn call_of<'a>(calls: &'a [Call], caller: u32, number: u64) -> Option<&'a Call>
    requires short { All (λ (call : KeptCall). IsShortText call.kept) calls.now }
    ensures first { option_copied result ≡ find (is_call caller number) calls.now }
    ensures short { IfSome result (λ call. IsShortText call.now.kept) }
{
    calls
        .iter()
        .find(|call| call.caller == caller && call.number == number)
}

/// How many calls are the caller's.
fn count_of(calls: &[Call], caller: u32) -> u64
    ensures { result ≡ count_calls caller calls.now }
{
    calls.iter().filter(|call| call.caller == caller).count() as u64
}

/// A copy of what is kept for the caller's number, if anything.
fn copy_of(alloc: Global, calls: &[Call], caller: u32, number: u64) -> Result<Option<Kept>, Memory>
    requires short { All (λ (call : KeptCall). IsShortText call.kept) calls.now }
    ensures size { IfOk result (λ found. IfSome found IsShortText) }
    ensures found { IfOk result (λ found. found ≡ kept_text caller number calls.now) }
{
    match call_of(calls, caller, number) {
        Some(call) => Ok(Some(call.kept.copy(alloc)?)),
        None => Ok(None),
    }
}

/// A call with a copy of what is kept of it.
fn copied_call(alloc: Global, caller: u32, number: u64, kept: &Kept) -> Result<Call, Memory>
    ensures { IfOk result (λ call. call ≡ kept_call caller number kept.now) }
{
    let kept = kept.copy(alloc)?;
    Ok(Call {
        caller,
        number,
        kept,
    })
}

/// Appends a call.
fn append(calls: &mut Vec<Call>, call: Call) -> Result<(), Memory>
    ensures ok { OnOk result (calls.new.items ≡ calls.old.items ++ call ∷ []) }
    ensures memory { OnErr result (calls.new.items ≡ calls.old.items) }
{
    calls.push(call)?;
    Ok(())
}

impl DeskKeeper for MemDesk {
    ghost use Rattle.std.specs.Prelude.{◌≡◌, ◌≤◌, ◌^◌, ◌↔◌, Some, None};
    ghost use Rattle.std.specs.Prelude.{IfOk, IfSome, OnErr, IsErrOf, IsTrue};
    ghost use Rattle.pdn_base.specs.Outside.{called, fails_next};
    ghost use Rattle.pdn_desk_keeper.specs.Desks.{Ticket, Find, Keep, Count, IsAnswer, StandsIn};
    ghost use Rattle.pdn_desk_keeper.specs.Desks.{IsCounted, IsShortText, kept_text};
    ghost use Rattle.pdn_desk_keeper.specs.Desks.{count_calls, unless_failing};

    ghost held = { λ d. Some d.held };

    ghost faults = { λ d. d.made.faults };

    fn ticket(&mut self, _alloc: Global) -> Result<u64, KeepErr>
        ensures bound { IfOk result (λ ticket. ticket ≤ 2 ^ 40) }
        ensures answer { IsAnswer (Some self.old.held) (Ticket result) }
        ensures stands { StandsIn self.old.held self.new.held (Ticket result) }
        ensures cause { IsCounted self.old.made.faults self.new.made.faults result }
        ensures counted { self.new.made ≡ called self.old.made }
        ensures exact { result ≡ unless_failing self.old.made self.old.held.next }
        ensures refused { OnErr result (self.new.held ≡ self.old.held) }
    {
        let ticket = self.next;
        if self.calls.fails() {
            return Err(KeepErr::Failed);
        }
        if ticket < TICKETS {
            self.next = ticket + 1;
        }
        Ok(ticket)
    }

    fn kept(&mut self, alloc: Global, caller: u32, number: u64) -> Result<Option<Kept>, KeepErr>
        ensures size { IfOk result (λ found. IfSome found IsShortText) }
        ensures answer { IsAnswer (Some self.old.held) (Find caller number result) }
        ensures stands { StandsIn self.old.held self.new.held (Find caller number result) }
        ensures cause { IsCounted self.old.made.faults self.new.made.faults result }
        ensures counted { self.new.made ≡ called self.old.made }
        ensures failed { IsErrOf result KeepErr.Failed ↔ IsTrue (fails_next self.old.made) }
    {
        if self.calls.fails() {
            return Err(KeepErr::Failed);
        }
        Ok(copy_of(alloc, &self.kept, caller, number)?)
    }

    fn keep(&mut self, alloc: Global, caller: u32, number: u64, kept: &Kept) -> Result<(), KeepErr>
        requires free { kept_text caller number self.now.held.calls ≡ None }
        requires size { IsShortText kept.now }
        ensures stands { StandsIn self.old.held self.new.held (Keep caller number kept.now result) }
        ensures cause { IsCounted self.old.made.faults self.new.made.faults result }
        ensures counted { self.new.made ≡ called self.old.made }
        ensures failed { IsErrOf result KeepErr.Failed ↔ IsTrue (fails_next self.old.made) }
        ensures refused { OnErr result (self.new.held ≡ self.old.held) }
    {
        if self.calls.fails() {
            return Err(KeepErr::Failed);
        }
        append(&mut self.kept, copied_call(alloc, caller, number, kept)?)?;
        Ok(())
    }

    fn calls_of(&mut self, _alloc: Global, caller: u32) -> Result<u64, KeepErr>
        ensures answer { IsAnswer (Some self.old.held) (Count caller result) }
        ensures stands { StandsIn self.old.held self.new.held (Count caller result) }
        ensures cause { IsCounted self.old.made.faults self.new.made.faults result }
        ensures counted { self.new.made ≡ called self.old.made }
        ensures exact { result ≡ unless_failing self.old.made
            (count_calls caller self.old.held.calls) }
    {
        if self.calls.fails() {
            return Err(KeepErr::Failed);
        }
        Ok(count_of(&self.kept, caller))
    }
}
