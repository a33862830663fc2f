//! How a command ends: its status, and the line of a refusal.
ghost use Rattle.std.specs.Prelude.{◌≡◌, ◌≤◌};
ghost use Rattle.pdn_base.specs.Outside.{Rose};
ghost use Rattle.pdn_script.specs.Ways.{Closes, Wrote};
ghost use Rattle.pdn_script.specs.Stops.{end_of};

use crate::stop::Stop;
use pdn_base::{Sink, Status, Who};

/// The status that a command ends with. The line of a refusal is put; where that put fails, the status stays.
pub fn conclude<S: Sink>(came: Result<(), Stop>, out: &mut S) -> Status
    ensures closes { Wrote (S.written out.old) (S.written out.new)
        (λ text. Closes (λ _. Rose (S.faults out.old) (S.faults out.new)) (end_of came) text
        result) }
    ensures later { S.faults out.old ≤ S.faults out.new }
{
    match came {
        Ok(()) => Status::Done,
        Err(Stop::Memory) => Status::Memory,
        Err(Stop::Sink) => Status::Unavailable { who: Who::Sink },
        Err(Stop::Refused { status, line }) => {
            let _put = out.put(line.as_bytes());
            status
        }
    }
}
