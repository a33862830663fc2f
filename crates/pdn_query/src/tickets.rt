//! The tickets of queries.
ghost use Rattle.std.specs.Prelude.{◌≡◌, ◌<◌, ◌^◌, ℕ, IfOk};
ghost use Rattle.pdn_query.specs.Answering.{ticketing, or_spent};
ghost use Rattle.pdn_query.specs.Questions.{OnlyDesk};
ghost use Rattle.pdn_query.specs.Script.{Script};
ghost use Rattle.pdn_query.specs.Walk.{Came};
ghost use Rattle.pdn_query.specs.World.{WorldModel};

use crate::who::failed_line;
use crate::world::Outside;
use pdn_base::{Status, Who};
use pdn_keeper::KeepErr;
use pdn_script::{Stop, refused};
use std::alloc::Global;

/// How many tickets there are.
const TICKETS: u64 = 1 << 40;

/// The desk's next ticket, which is then taken, or the refusal: of the desk where it failed, or of a query for which no ticket
/// is left. The line of a desk that fails is made before it is asked, so that memory can't run out behind it.
pub fn next_ticket<W: Outside>(alloc: Global, world: &mut W) -> Result<u64, Stop>
    ensures came { (next : ℕ → Script) →
        Came (W.state world.old) (W.state world.new) (ticketing next)
        (λ ticket. next ticket) result }
    ensures there { IfOk result (λ ticket. ticket < 2 ^ 40) }
    ensures only { OnlyDesk (W.state world.old).told (W.state world.new).told }
{
    let line = failed_line(alloc, Who::Desk)?;
    match world.ticket(alloc) {
        Ok(ticket) => there(alloc, ticket),
        Err(KeepErr::Failed) => Err(Stop::Refused {
            status: Status::Unavailable { who: Who::Desk },
            line,
        }),
        Err(KeepErr::Memory) => Err(Stop::Memory),
    }
}

// A ticket that the desk gave, or the refusal where none was left.
fn there(alloc: Global, ticket: u64) -> Result<u64, Stop>
    ensures came { (w : WorldModel) (next : ℕ → Script) →
        Came w w (or_spent next ticket) (λ ticket. next ticket) result }
    ensures there { IfOk result (λ ticket. ticket < 2 ^ 40) }
{
    if ticket < TICKETS {
        return Ok(ticket);
    }
    Err(refused(alloc, Status::TicketsSpent))
}
