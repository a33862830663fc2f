//! One request of a connection.
ghost use Rattle.std.specs.Prelude.{◌≡◌, ◌≤◌, ℕ, List, length, Option, MatchResult, IsErrOf};
ghost use Rattle.pdn_schema.specs.declared.schema.Caller.{Caller as CallerModel};
ghost use Rattle.pdn_base.specs.Outside.{HasCause};
ghost use Rattle.pdn_http.specs.Receiving.{HeadCame, Requested, NotRequested};

use crate::body::read_body;
use crate::read_head::{Heard, read_head};
use crate::route::call_router;
use crate::want::Want;
use crate::{Call, Refusal};
use pdn_link::Link;
use pdn_schema::Schema;
use std::alloc::Global;

/// A request: what is kept of a call is asked for, or a call is made with this text.
#[derive(Debug, Drop)]
pub enum Request {
    Get(Call),
    Post(Call, Vec<u8>),
}

/// Why a connection has no request.
#[derive(Clone, Copy, Debug, PartialEq, Eq)]
pub enum NoRequest {
    /// It ended before its first byte.
    Silent,
    /// Its bytes are refused.
    Refused(Refusal),
    /// The link failed.
    Unread,
    /// Memory ran out.
    Memory,
}

/// The request that the bytes of a connection make, or why they make none: the first row that
/// applies. Unread comes only where the link's count of faults rose. Nothing is sent.
#[tactic(auto, using(crate::proofs::OutcomeLaws::unheard))]
pub fn read_request<L: Link>(
    alloc: Global,
    link: &mut L,
    schema: &Schema,
) -> Result<Request, NoRequest>
    ensures requested { MatchResult result
        (Requested schema.now.callers (L.left link.old))
        (NotRequested schema.now.callers (L.left link.old)) }
    ensures same { L.sent link.new ≡ L.sent link.old }
    ensures cause { HasCause (L.faults link.old) (L.faults link.new)
        (IsErrOf result NoRequest.Unread) }
{
    let Ok(router) = call_router(alloc) else {
        return Err(NoRequest::Memory);
    };
    let heard = read_head(alloc, link, &router, &schema.callers)?;
    finished(alloc, link, heard)
}

/// The request whose head was heard, with its body.
fn finished<L: Link>(alloc: Global, link: &mut L, heard: Heard) -> Result<Request, NoRequest>
    requires { heard.len ≤ length heard.bytes.items }
    ensures finished { (callers : List CallerModel) (first : Option (List ℕ)) →
        HeadCame callers first (L.left link.old) heard →
        MatchResult result (Requested callers first) (NotRequested callers first) }
    ensures same { L.sent link.new ≡ L.sent link.old }
    ensures cause { HasCause (L.faults link.old) (L.faults link.new)
        (IsErrOf result NoRequest.Unread) }
{
    match heard.want {
        Want::Refused(refusal) => Err(NoRequest::Refused(refusal)),
        Want::Get(call) => Ok(Request::Get(call)),
        Want::Post(call, size) => {
            let body = read_body(alloc, link, &heard.bytes[heard.len..], size)?;
            Ok(Request::Post(call, body))
        }
    }
}
