//! The body of a connection's request is received.
ghost use Rattle.std.specs.Prelude.{◌≡◌, ◌≤◌, MatchResult, IsErrOf, ◌<◌};
ghost use Rattle.pdn_base.specs.Outside.{HasCause};
ghost use Rattle.pdn_http.specs.Receiving.{BodyCame, WhyNoBody};

use crate::receive::receive;
use crate::{NoRequest, Refusal};
use pdn_link::Link;
use std::alloc::Global;

/// Receives what hasn't come of a body of this size, and no more.
pub(crate) fn read_body<L: Link>(
    alloc: Global,
    link: &mut L,
    come: &[u8],
    size: usize,
) -> Result<Vec<u8>, NoRequest>
    ensures came { MatchResult result
        (λ body. BodyCame (L.left link.old) (L.left link.new) come.now size body.items)
        (WhyNoBody (L.left link.old) (L.left link.new) come.now size) }
    ensures same { L.sent link.new ≡ L.sent link.old }
    ensures cause { HasCause (L.faults link.old) (L.faults link.new)
        (IsErrOf result NoRequest.Unread) }
{
    let mut body = Vec::with_capacity(alloc, size)?;
    body.extend_from_slice(&come[..come.len().min(size)])?;
    while body.len() < size {
        let missing = size - body.len();
        if !receive(link, &mut body, missing)? {
            return Err(NoRequest::Refused(Refusal::Request));
        }
    }
    Ok(body)
}
