//! The head of a connection's request is received.
ghost use Rattle.std.specs.Prelude.{◌≡◌, MatchResult, IsErrOf};
ghost use Rattle.pdn_base.specs.Outside.{HasCause};
ghost use Rattle.pdn_schema.specs.Schemas.{IsCallers};
ghost use Rattle.pdn_http.specs.Receiving.{HeadCame, WhyNoHead, ended_with};
ghost use Rattle.pdn_http.specs.Routes.{HasRoute};

use crate::head::{Front, front_of};
use crate::receive::receive;
use crate::want::Want;
use crate::{NoRequest, Refusal};
use matchit::Router;
use pdn_link::Link;
use pdn_schema::Caller;
use std::alloc::Global;

/// The most bytes that a head may have.
const MOST: usize = 8192;

/// A head that was received: the bytes that have come, how many of them are its own, and what it
/// asks for.
#[derive(Debug, Drop)]
pub(crate) struct Heard {
    pub(crate) bytes: Vec<u8>,
    pub(crate) len: usize,
    pub(crate) want: Want,
}

/// Receives the head of a connection's request: at most 8192 bytes, and none once it is there, or
/// can't be any more.
#[tactic(auto, using(crate::proofs::OutcomeLaws::no_head_never, crate::proofs::OutcomeLaws::no_head_full, crate::proofs::OutcomeLaws::ended, crate::proofs::OutcomeLaws::no_head_by_fault, crate::proofs::TurnLaws::consumes_turn, crate::proofs::TurnLaws::longer, crate::proofs::TurnLaws::unchanged, crate::proofs::HeadLaws::nothing_has_no_head))]
pub(crate) fn read_head<L: Link>(
    alloc: Global,
    link: &mut L,
    router: &Router<()>,
    callers: &[Caller],
) -> Result<Heard, NoRequest>
    requires router { HasRoute router.now }
    requires callers { IsCallers callers.now }
    ensures came { MatchResult result
        (HeadCame callers.now (L.left link.old) (L.left link.new))
        (WhyNoHead (L.left link.old)) }
    ensures same { L.sent link.new ≡ L.sent link.old }
    ensures cause { HasCause (L.faults link.old) (L.faults link.new)
        (IsErrOf result NoRequest.Unread) }
{
    let mut bytes = Vec::with_capacity(alloc, MOST)?;
    while bytes.len() < MOST {
        let room = MOST - bytes.len();
        if !receive(link, &mut bytes, room)? {
            return Err(ended(&bytes));
        }
        match front_of(router, callers, &bytes) {
            Front::Head(len, want) => return Ok(Heard { bytes, len, want }),
            Front::Never => return Err(NoRequest::Refused(Refusal::Request)),
            Front::More => (),
        }
    }
    Err(NoRequest::Refused(Refusal::Request))
}

/// The peer sends no more, and has sent these bytes, which have no head.
fn ended(bytes: &[u8]) -> NoRequest
    ensures { result ≡ ended_with bytes.now }
{
    if bytes.is_empty() {
        return NoRequest::Silent;
    }
    NoRequest::Refused(Refusal::Request)
}
