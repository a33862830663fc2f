//! Replies.
ghost use Rattle.std.specs.Prelude.{◌≡◌, IfOk};
ghost use Rattle.http.specs.StatusCode.{IsStatusCode};
ghost use Rattle.pdn_script.specs.Stops.{stop_of};
ghost use Rattle.pdn_http.specs.Refusals.{error_of, status_of};
ghost use Rattle.pdn_desk.specs.Replies.{reply, failure, memory_failure, desk_failure, status_for, before_feed};
ghost use Rattle.pdn_desk.specs.Ways.{Makes, StopMakes, Fails, end_of};

use pdn_base::{Memory, Status};
use pdn_http::Refusal;
use pdn_keeper::KeepErr;
use pdn_reply::{error_body, reply};
use pdn_script::Stop;
use std::alloc::Global;
use std::marker::Model;

/// A whole reply, as bytes.
#[derive(Debug, Drop)]
pub(crate) struct Reply {
    pub(crate) status: u16,
    pub(crate) bytes: Vec<u8>,
}

impl Model for Reply {
    ghost use Rattle.pdn_desk.specs.Replies.{ReplyBytes};

    ghost Value = { ReplyBytes };

    ghost view = { λ r. record { status = r.status; bytes = r.bytes.items } };
}

/// The reply of a status, from 100 to 999, with this JSON as its body.
pub(crate) fn made(alloc: Global, status: u16, body: &[u8]) -> Result<Reply, Memory>
    requires { IsStatusCode status }
    ensures { IfOk result (λ made. made ≡ reply status body.now) }
{
    Ok(Reply {
        status,
        bytes: reply(alloc, status, body)?,
    })
}

/// The reply of a status, from 100 to 999, whose body names this error.
pub(crate) fn failure(alloc: Global, status: u16, error: &str) -> Result<Reply, Memory>
    requires { IsStatusCode status }
    ensures { IfOk result (λ made. made ≡ failure status error.now) }
{
    let body = error_body(alloc, error)?;
    made(alloc, status, &body)
}

/// The reply where memory ran out.
pub(crate) fn memory_failure(alloc: Global) -> Result<Reply, Memory>
    ensures { IfOk result (λ made. made ≡ memory_failure) }
{
    failure(alloc, 500, "memory")
}

/// The reply where the desk's keeper failed.
pub(crate) fn desk_failure(alloc: Global) -> Result<Reply, Memory>
    ensures { IfOk result (λ made. made ≡ desk_failure) }
{
    failure(alloc, 503, "refused 10 desk")
}

/// The reply where the desk's keeper gave no answer, for this cause.
pub(crate) fn unkept(alloc: Global, error: KeepErr) -> Result<Reply, Memory>
    ensures { Fails error (end_of result) }
{
    match error {
        KeepErr::Failed => desk_failure(alloc),
        KeepErr::Memory => Err(Memory),
    }
}

/// The reply to a request that is refused.
pub(crate) fn refuse(alloc: Global, refusal: Refusal) -> Result<Reply, Memory>
    ensures { IfOk result (λ made. made ≡ failure (status_of refusal) (error_of refusal)) }
{
    failure(alloc, refusal.status(), refusal.error())
}

/// The reply to a query that is refused. Of a query no text is put, so that no put of one fails.
pub(crate) fn refused(alloc: Global, stop: Stop) -> Result<Reply, Memory>
    ensures { StopMakes (stop_of stop) (end_of result) }
{
    match stop {
        Stop::Refused { status, line } => {
            failure(alloc, status_for(&status), before_feed(line.as_str()))
        }
        Stop::Sink | Stop::Memory => Err(Memory),
    }
}

/// The status of the reply to a query that is refused so.
fn status_for(refused: &Status) -> u16
    ensures { result ≡ status_for refused.now }
{
    match refused {
        Status::Sql { .. }
        | Status::Plan { .. }
        | Status::Forbidden { .. }
        | Status::BadRows { .. }
        | Status::TooLarge { .. } => 422,
        Status::Unavailable { .. } => 503,
        Status::TicketsSpent => 507,
        _ => 500,
    }
}

/// A line but for its line feed.
fn before_feed(line: &str) -> &str
    ensures { result.now ≡ before_feed line.now }
{
    match line.split_once('\n') {
        Some((text, _)) => text,
        None => line,
    }
}
