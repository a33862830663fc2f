//! What a request asks for: what is kept of a call, or a call that is made.
ghost use Rattle.std.specs.Prelude.{◌≡◌, None, IfOk, IfSome};
ghost use Rattle.pdn_base.specs.Bounds.{IsShort};
ghost use Rattle.std.specs.List.{slice_get};
ghost use Rattle.pdn_desk_keeper.specs.Desks.{IsShortText, kept_text, KeptText};
ghost use Rattle.pdn_query.specs.World.{WorldModel};
ghost use Rattle.pdn_desk.specs.Calls.{is_short};
ghost use Rattle.pdn_desk.specs.Courses.{Find, Keep};
ghost use Rattle.pdn_desk.specs.Requests.{calling, calls_of, answering_text, getting, posting, repeating};
ghost use Rattle.pdn_desk.specs.Ways.{Came, end_of};

use crate::answer::answered_text;
use crate::outside::DeskOutside;
use crate::reply::{Reply, desk_failure, failure, made, refused, unkept};
use pdn_base::Memory;
use pdn_broker::Watch;
use pdn_dealer::Deal;
use pdn_desk_keeper::Kept;
use pdn_http::Call;
use pdn_keeper::KeepErr;
use pdn_query::Crew;
use pdn_schema::Schema;
use std::alloc::Global;
use std::thread::Threads;

/// A call that is made, with this text.
#[derive(Clone, Copy, Debug)]
pub(crate) struct Asked<'a> {
    pub(crate) call: Call,
    pub(crate) text: &'a [u8],
}

/// Replies what is kept for a call.
pub(crate) fn get<W: DeskOutside>(alloc: Global, call: Call, world: &mut W) -> Result<Reply, Memory>
    ensures { Came (W.state world.old) (W.state world.new) (Find call getting) (end_of result) }
{
    match world.kept(alloc, call) {
        Ok(Some(kept)) => made(alloc, 200, &kept.body),
        Ok(None) => failure(alloc, 404, "unknown"),
        Err(error) => unkept(alloc, error),
    }
}

/// Replies to a call: what is kept for it, where it was made with this text before, or else the answer.
pub(crate) fn post<R: Threads + Sync, W: DeskOutside, D: Deal + Watch>(
    alloc: Global,
    schema: &Schema,
    asked: Asked<'_>,
    world: &mut W,
    crew: &Crew<'_, R, D>,
) -> Result<Reply, Memory>
    requires { IsShort asked.text.now }
    ensures { Came (W.state world.old) (W.state world.new)
        (Find asked.entry.call (posting schema.now asked.entry.call asked.entry.text.now))
        (end_of result) }
{
    match world.kept(alloc, asked.call) {
        Ok(Some(kept)) => repeat(alloc, asked.text, &kept),
        Ok(None) => call(alloc, schema, asked, world, crew),
        Err(error) => unkept(alloc, error),
    }
}

/// Replies to a call that is kept, and is made again with this text.
fn repeat(alloc: Global, text: &[u8], kept: &Kept) -> Result<Reply, Memory>
    ensures { (w : WorldModel) → Came w w (repeating text.now kept.now) (end_of result) }
{
    if kept.text.as_slice() == text {
        return made(alloc, 200, &kept.body);
    }
    failure(alloc, 409, "differs")
}

/// Replies to a call that is new, unless the caller's calls are spent.
fn call<R: Threads + Sync, W: DeskOutside, D: Deal + Watch>(
    alloc: Global,
    schema: &Schema,
    asked: Asked<'_>,
    world: &mut W,
    crew: &Crew<'_, R, D>,
) -> Result<Reply, Memory>
    requires short { IsShort asked.text.now }
    requires free { IfSome (W.state world.now).told.desk
        (λ held. kept_text asked.call.caller asked.call.number held.calls ≡ None) }
    ensures { Came (W.state world.old) (W.state world.new)
        (calling schema.now asked.entry.call asked.entry.text.now) (end_of result) }
{
    match world.calls_of(alloc, asked.call.caller) {
        Ok(count) => {
            if count >= calls_of(schema, asked.call.caller) {
                return failure(alloc, 429, "spent");
            }
            answer(alloc, schema, asked, world, crew)
        }
        Err(error) => unkept(alloc, error),
    }
}

/// How many calls a caller has in all.
fn calls_of(schema: &Schema, caller: u32) -> u64
    ensures { result ≡ calls_of (slice_get schema.now.callers caller) }
{
    match schema.callers.get(caller as usize) {
        Some(caller) => u64::from(caller.calls),
        None => 0,
    }
}

/// Answers a call's text, and keeps the answer before it is replied.
fn answer<R: Threads + Sync, W: DeskOutside, D: Deal + Watch>(
    alloc: Global,
    schema: &Schema,
    asked: Asked<'_>,
    world: &mut W,
    crew: &Crew<'_, R, D>,
) -> Result<Reply, Memory>
    requires short { IsShort asked.text.now }
    requires free { IfSome (W.state world.now).told.desk
        (λ held. kept_text asked.call.caller asked.call.number held.calls ≡ None) }
    ensures { Came (W.state world.old) (W.state world.new)
        (answering_text schema.now asked.entry.call asked.entry.text.now) (end_of result) }
{
    match answered_text(alloc, schema, asked.text, world, crew) {
        Ok(body) => keep(alloc, asked, body, world),
        Err(stop) => refused(alloc, stop),
    }
}

/// Keeps a call with the body of its answer. Both replies are made before, so that memory can't run out once it may be kept.
fn keep<W: DeskOutside>(
    alloc: Global,
    asked: Asked<'_>,
    body: Vec<u8>,
    world: &mut W,
) -> Result<Reply, Memory>
    requires short { IsShort asked.text.now }
    requires free { IfSome (W.state world.now).told.desk
        (λ held. kept_text asked.call.caller asked.call.number held.calls ≡ None) }
    ensures { Came (W.state world.old) (W.state world.new)
        (Keep asked.entry.call (record { text = asked.entry.text.now; body = body.items }))
        (end_of result) }
{
    let kept = kept_of(alloc, asked.text, body)?;
    let answer = made(alloc, 200, &kept.body)?;
    let failure = desk_failure(alloc)?;
    match world.keep(alloc, asked.call, &kept) {
        Ok(()) => Ok(answer),
        Err(KeepErr::Failed) => Ok(failure),
        Err(KeepErr::Memory) => Err(Memory),
    }
}

/// Whether the length of a list is a number of 32 bits.
pub(crate) fn is_short(bytes: &[u8]) -> bool
    ensures { result ≡ is_short bytes.now }
{
    bytes.len() < u32::MAX as usize
}

/// What is kept of a call. A body whose length is no number of 32 bits counts as want of memory.
fn kept_of(alloc: Global, text: &[u8], body: Vec<u8>) -> Result<Kept, Memory>
    requires { IsShort text.now }
    ensures is { IfOk result (λ kept. kept ≡ record { text = text.now; body = body.items }) }
    ensures size { IfOk result (λ kept. IsShortText kept) }
{
    if !is_short(&body) {
        return Err(Memory);
    }
    Ok(Kept {
        text: text.to_vec(alloc)?,
        body,
    })
}
