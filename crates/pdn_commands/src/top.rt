//! The top call.
ghost use Rattle.std.specs.Prelude.{◌≡◌, ◌⊎◌, map, false};
ghost use Rattle.std.specs.String.{string_bytes};
ghost use Rattle.pdn_base.specs.declared.site.Site.TheVariants.{A, B};
ghost use Rattle.pdn_base.specs.declared.status.Who.{Who};
ghost use Rattle.pdn_twin.specs.Twins.{TwinWords};
ghost use Rattle.pdn_commands.specs.Outcomes.{HasCause, IsAllDone};
ghost use Rattle.pdn_commands.specs.Commands.{script, one_view_script, task_script, task_of, loads, runs};
ghost use Rattle.pdn_commands.specs.Twinning.{KeepsEqual};
ghost use Rattle.pdn_query.specs.Questions.{OnlyDesk};
ghost use Rattle.pdn_query.specs.DeskCalls.{AsksTickets};
ghost use Rattle.pdn_query.specs.Walk.{Along, Answered, NoMemory, Wrote, Clears, HasReason, IsDue};
ghost use Rattle.pdn_query.specs.World.{RoseIn, NotFallen};
ghost use Rattle.pdn_script.specs.Stops.{end_of};

use crate::check::check;
use crate::command::{Command, read_command};
use crate::generate::generate;
use crate::load::load;
use crate::run::run;
use crate::twin::{TwinFiles, twin};
use pdn_base::Status;
use pdn_broker::Watch;
use pdn_dealer::Deal;
use pdn_query::{Crew, Outside};
use pdn_script::{Stop, refused};
use std::alloc::Global;
use std::thread::Threads;

/// Does what the words of a command line say, over these files and the rows that the sites keep, and puts the answers, each with
/// the views that are asked for, or the line of the first refusal on the sink. Without `show` what is put is the same whatever words
/// the dealer deals (`scripts_are_the_same_on_every_tape`). It is the same by however many workers.
pub fn pdn<R: Threads + Sync, W: Outside, D: Deal + Watch>(
    rt: &R,
    alloc: Global,
    words: &[String],
    world: &mut W,
    deal: &D,
) -> Status
    // What is put, answered and kept is what the script says, but for want of memory and for faults of an object whose
    // count rose.
    ensures answers { Answered (W.state world.old) (W.state world.new)
        (script (D.tape deal.now) (map string_bytes words.now)) result }

    // Both views of a twin are equal: it is also what the script says that puts the first world's view in both places.
    ensures equal { Answered (W.state world.old) (W.state world.new)
        (one_view_script (D.tape deal.now) (map string_bytes words.now)) result }

    // Done comes only with the answer of each query over the rows of both sites, the schema with the report of each query, the
    // line of the batch that is then kept, the twin of each query in two worlds that agree in what is public, or the answers in short
    // of a stated network's standing queries.
    ensures counted { let old = W.state world.old in let new = W.state world.new in
        result ≡ Status.Done → Wrote old.written new.written (λ text.
        IsAllDone (D.tape deal.now) old.told (map string_bytes words.now) text new.told) }

    // A refusal comes only where the script comes to it, over what the objects tell.
    ensures reason { let old = W.state world.old in
        HasReason (RoseIn old.counts (W.state world.new).counts) old.told
        (script (D.tape deal.now) (map string_bytes words.now)) result }

    // Each status comes only where its cause stands, and no status without one: in each command's own words.
    ensures cause { let old = W.state world.old in
        HasCause (RoseIn old.counts (W.state world.new).counts) old.told
        (map string_bytes words.now) result }

    // Where no count rose and memory didn't run out, status and text are those that are due, and so is what is kept.
    ensures due { let old = W.state world.old in let new = W.state world.new in
        ((who : Who) → RoseIn old.counts new.counts who → ⊥) → (result ≡ Status.Memory)
        ⊎ Wrote old.written new.written (λ text.
        IsDue old.told (script (D.tape deal.now) (map string_bytes words.now)) result text new.told) }

    // Where nothing is to be refused and no count rose, all is answered, unless memory runs out.
    ensures complete { let old = W.state world.old in
        Clears old.told (script (D.tape deal.now) (map string_bytes words.now))
        → ((who : Who) → RoseIn old.counts (W.state world.new).counts who → ⊥)
        → (result ≡ Status.Done) ⊎ (result ≡ Status.Memory) }

    // Only the keeper that a load names changes, and none where memory ran out; only a run, a twin and a `gen` take tickets.
    ensures kept_a { loads A (task_of (map string_bytes words.now)) ≡ false
        → (W.state world.new).told.a ≡ (W.state world.old).told.a }
    ensures kept_b { loads B (task_of (map string_bytes words.now)) ≡ false
        → (W.state world.new).told.b ≡ (W.state world.old).told.b }
    ensures spared { result ≡ Status.Memory
        → OnlyDesk (W.state world.old).told (W.state world.new).told }
    ensures desk { runs (task_of (map string_bytes words.now)) ≡ false
        → (W.state world.new).told.desk ≡ (W.state world.old).told.desk }

    // Of the desk tickets alone are asked for, whatever the status; that the tickets of such runs rise is `tickets_rise`.
    ensures asked { AsksTickets (W.state world.old).told.desk (W.state world.new).told.desk }

    // The count of faults of an object never falls.
    ensures later { NotFallen (W.state world.old).counts (W.state world.new).counts }
{
    perform(rt, alloc, words, world, deal)
}

fn perform<R: Threads + Sync, W: Outside, D: Deal + Watch>(
    rt: &R,
    alloc: Global,
    words: &[String],
    world: &mut W,
    deal: &D,
) -> Status
    ensures answers { Answered (W.state world.old) (W.state world.new)
        (script (D.tape deal.now) (map string_bytes words.now)) result }
    ensures equal { Answered (W.state world.old) (W.state world.new)
        (one_view_script (D.tape deal.now) (map string_bytes words.now)) result }
    ensures kept_a { loads A (task_of (map string_bytes words.now)) ≡ false
        → (W.state world.new).told.a ≡ (W.state world.old).told.a }
    ensures kept_b { loads B (task_of (map string_bytes words.now)) ≡ false
        → (W.state world.new).told.b ≡ (W.state world.old).told.b }
    ensures spared { result ≡ Status.Memory
        → OnlyDesk (W.state world.old).told (W.state world.new).told }
    ensures desk { runs (task_of (map string_bytes words.now)) ≡ false
        → (W.state world.new).told.desk ≡ (W.state world.old).told.desk }
    ensures later { NotFallen (W.state world.old).counts (W.state world.new).counts }
{
    let came = follow(rt, alloc, words, world, deal);
    world.conclude(came)
}

// All but the line of a refusal.
fn follow<R: Threads + Sync, W: Outside, D: Deal + Watch>(
    rt: &R,
    alloc: Global,
    words: &[String],
    world: &mut W,
    deal: &D,
) -> Result<(), Stop>
    ensures goes { (views : TwinWords → TwinWords) → KeepsEqual views →
        Along (W.state world.old) (W.state world.new)
        (task_script views (D.tape deal.now) (task_of (map string_bytes words.now)))
        (end_of result) }
    ensures kept_a { loads A (task_of (map string_bytes words.now)) ≡ false
        → (W.state world.new).told.a ≡ (W.state world.old).told.a }
    ensures kept_b { loads B (task_of (map string_bytes words.now)) ≡ false
        → (W.state world.new).told.b ≡ (W.state world.old).told.b }
    ensures spared { end_of result ≡ NoMemory
        → OnlyDesk (W.state world.old).told (W.state world.new).told }
    ensures desk { runs (task_of (map string_bytes words.now)) ≡ false
        → (W.state world.new).told.desk ≡ (W.state world.old).told.desk }
{
    match read_command(words) {
        Some(
            Command::Run {
                file,
                workers,
                show,
            },
        ) => {
            let crew = Crew { rt, deal, workers };
            run(alloc, file, show, world, &crew)
        }
        Some(Command::Check { file }) => check(alloc, file, world),
        Some(
            Command::Twin {
                site,
                file,
                folder,
                workers,
            },
        ) => {
            let crew = Crew { rt, deal, workers };
            let asked = TwinFiles { site, file, folder };
            twin(alloc, asked, world, &crew)
        }
        Some(Command::Load(site, batch)) => load(alloc, site, batch, world),
        Some(Command::Generate(size, workers)) => {
            let crew = Crew { rt, deal, workers };
            generate(alloc, size, world, &crew)
        }
        None => Err(refused(alloc, Status::Words)),
    }
}
