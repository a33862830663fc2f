//! One connection is served.
ghost use Rattle.std.specs.Prelude.{◌≡◌, ◌≤◌};
ghost use Rattle.pdn_desk.specs.Connections.{Serves, Brings, Sends, course_for, link_model};
ghost use Rattle.pdn_desk.specs.Laws.{AsksDesk};
ghost use Rattle.pdn_desk.specs.Ways.{Came, end_of};
ghost use Rattle.pdn_desk.specs.declared.serve.NoReply.TheVariants.{Memory as NoMemoryYet};

use crate::DeskEnd;
use crate::call::{Asked, get, is_short, post};
use crate::outside::DeskOutside;
use crate::reply::{Reply, memory_failure, refuse};
use pdn_base::Memory;
use pdn_broker::Watch;
use pdn_dealer::Deal;
use pdn_http::{NoRequest, Request, read_request};
use pdn_link::Link;
use pdn_query::{Crew, Outside};
use pdn_schema::Schema;
use std::alloc::Global;
use std::thread::Threads;

/// Why there is no reply yet.
#[derive(Clone, Copy, Debug, PartialEq, Eq)]
pub(crate) enum NoReply {
    Silent,
    Unread,
    Memory,
}

impl From<Memory> for NoReply {
    ghost from_gives = { λ _ e. e ≡ NoMemoryYet };

    fn from(_: Memory) -> NoReply {
        NoReply::Memory
    }
}

/// Serves one connection: one request is read and answered by the first row of the desk's table that applies, and its reply sent. A
/// 200 of an answer is kept before it is sent; nothing else is kept. Memory may run out anywhere before: nothing is then sent, and
/// the desk's next ticket may be one more.
#[tactic(auto, using(crate::proofs::Asking::serves_asks))]
pub fn serve_conn<R: Threads + Sync, L: Link, W: DeskOutside, D: Deal + Watch>(
    alloc: Global,
    link: &mut L,
    schema: &Schema,
    world: &mut W,
    crew: &Crew<'_, R, D>,
) -> Result<DeskEnd, Memory>
    ensures serves { Serves schema.now
        (link_model (L.left link.old) (L.sent link.old) (L.faults link.old))
        (link_model (L.left link.new) (L.sent link.new) (L.faults link.new))
        (W.state world.old) (W.state world.new) result }
    // What is asked of the desk's keeper is a run of it; that the tickets of such runs rise is `tickets_rise`.
    ensures asked { AsksDesk (W.state world.old).told.desk (W.state world.new).told.desk }
    ensures later { L.faults link.old ≤ L.faults link.new }
{
    served(alloc, link, schema, world, crew)
}

/// The same, but for what is asked.
fn served<R: Threads + Sync, L: Link, W: DeskOutside, D: Deal + Watch>(
    alloc: Global,
    link: &mut L,
    schema: &Schema,
    world: &mut W,
    crew: &Crew<'_, R, D>,
) -> Result<DeskEnd, Memory>
    ensures serves { Serves schema.now
        (link_model (L.left link.old) (L.sent link.old) (L.faults link.old))
        (link_model (L.left link.new) (L.sent link.new) (L.faults link.new))
        (W.state world.old) (W.state world.new) result }
    ensures later { L.faults link.old ≤ L.faults link.new }
{
    match response(alloc, link, schema, world, crew) {
        Ok(reply) => Ok(send(link, &reply)),
        Err(NoReply::Silent) => Ok(DeskEnd::Silent),
        Err(NoReply::Unread) => Ok(DeskEnd::Unread),
        Err(NoReply::Memory) => {
            let reply = memory_failure(alloc)?;
            Ok(send(link, &reply))
        }
    }
}

/// The reply to what a connection brings.
fn response<R: Threads + Sync, L: Link, W: DeskOutside, D: Deal + Watch>(
    alloc: Global,
    link: &mut L,
    schema: &Schema,
    world: &mut W,
    crew: &Crew<'_, R, D>,
) -> Result<Reply, NoReply>
    ensures brings { Brings schema.now
        (link_model (L.left link.old) (L.sent link.old) (L.faults link.old))
        (link_model (L.left link.new) (L.sent link.new) (L.faults link.new))
        (W.state world.old) (W.state world.new) result }
    ensures later { L.faults link.old ≤ L.faults link.new }
{
    match read_request(alloc, link, schema) {
        Ok(request) => Ok(respond(alloc, schema, &request, world, crew)?),
        Err(NoRequest::Refused(refusal)) => Ok(refuse(alloc, refusal)?),
        Err(NoRequest::Silent) => Err(NoReply::Silent),
        Err(NoRequest::Unread) => Err(NoReply::Unread),
        Err(NoRequest::Memory) => Err(NoReply::Memory),
    }
}

/// The reply to a request.
fn respond<R: Threads + Sync, W: DeskOutside, D: Deal + Watch>(
    alloc: Global,
    schema: &Schema,
    request: &Request,
    world: &mut W,
    crew: &Crew<'_, R, D>,
) -> Result<Reply, Memory>
    ensures { Came (W.state world.old) (W.state world.new)
        (course_for schema.now request.now) (end_of result) }
{
    match request {
        Request::Get(call) => get(alloc, *call, world),
        Request::Post(call, text) => {
            // A length that is no number of 32 bits counts as want of memory; a text has at most 4096 bytes.
            if !is_short(text) {
                return Err(Memory);
            }
            let asked = Asked { call: *call, text };
            post(alloc, schema, asked, world, crew)
        }
    }
}

/// Sends a reply.
fn send<L: Link>(link: &mut L, reply: &Reply) -> DeskEnd
    ensures sends { Sends
        (link_model (L.left link.old) (L.sent link.old) (L.faults link.old))
        (link_model (L.left link.new) (L.sent link.new) (L.faults link.new))
        reply.now result }
    ensures later { L.faults link.old ≤ L.faults link.new }
{
    let status = reply.status;
    match link.send(&reply.bytes) {
        Ok(()) => DeskEnd::Replied { status },
        Err(_) => DeskEnd::Lost { status },
    }
}
