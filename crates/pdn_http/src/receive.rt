//! One turn of receiving.
ghost use Rattle.std.specs.Prelude.{◌≡◌, ◌<◌, IfOk, IfErr, IsErrOf};
ghost use Rattle.pdn_base.specs.Outside.{HasCause};
ghost use Rattle.pdn_http.specs.Receiving.{Received, IsFault};

use crate::NoRequest;
use pdn_link::{Link, LinkErr};
use std::alloc::AllocError;

/// The most bytes that one turn receives.
const ROOM: usize = 512;

impl From<LinkErr> for NoRequest {
    ghost use Rattle.pdn_http.specs.declared.request.NoRequest.TheVariants.{Unread};
    ghost use Rattle.std.specs.Prelude.{◌≡◌};

    ghost from_gives = { λ _ e. e ≡ Unread };

    fn from(_: LinkErr) -> NoRequest {
        NoRequest::Unread
    }
}

impl From<AllocError> for NoRequest {
    ghost use Rattle.pdn_http.specs.declared.request.NoRequest.TheVariants.{Memory};
    ghost use Rattle.std.specs.Prelude.{◌≡◌};

    ghost from_gives = { λ _ e. e ≡ Memory };

    fn from(_: AllocError) -> NoRequest {
        NoRequest::Memory
    }
}

/// Receives bytes behind these, at most so many, and says whether any came.
pub(crate) fn receive<L: Link>(
    link: &mut L,
    bytes: &mut Vec<u8>,
    most: usize,
) -> Result<bool, NoRequest>
    requires some { 0 < most }
    ensures received { IfOk result (λ some. Received (L.left link.old) (L.left link.new)
        bytes.old.items bytes.new.items most some) }
    ensures fault { IfErr result IsFault }
    ensures same { L.sent link.new ≡ L.sent link.old }
    ensures cause { HasCause (L.faults link.old) (L.faults link.new)
        (IsErrOf result NoRequest.Unread) }
{
    let mut room = [0; ROOM];
    let most = most.min(ROOM);
    let room = &mut room[..most];
    let count = link.recv(room)?;
    bytes.extend_from_slice(&room[..count])?;
    Ok(count > 0)
}
