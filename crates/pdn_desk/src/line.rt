//! The line that tells how a connection ended.
ghost use Rattle.std.specs.Prelude.{◌≡◌, IfOk};
ghost use Rattle.std.specs.String.{string_bytes};
ghost use Rattle.pdn_desk.specs.Lines.{line_of};

use crate::DeskEnd;
use pdn_base::Memory;
use std::alloc::Global;

/// The line that tells how a connection ended, or that memory ran out in it.
pub fn line_of(alloc: Global, end: Result<DeskEnd, Memory>) -> Result<String, Memory>
    ensures { IfOk result (λ line. string_bytes line ≡ line_of end) }
{
    match end {
        Ok(DeskEnd::Silent) => Ok(String::from_str(alloc, "silent\n")?),
        Ok(DeskEnd::Unread) => Ok(String::from_str(alloc, "unread\n")?),
        Ok(DeskEnd::Replied { status }) => Ok(format!(in alloc; "replied {status}\n")?),
        Ok(DeskEnd::Lost { status }) => Ok(format!(in alloc; "lost {status}\n")?),
        Err(_) => Ok(String::from_str(alloc, "memory\n")?),
    }
}
