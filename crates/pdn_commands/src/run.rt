//! `run`: answers each query of a file over the rows of both sites.
ghost use Rattle.std.specs.Prelude.{◌≡◌, ◌<◌, ◌^◌, length};
ghost use Rattle.std.specs.List.{AllByRecursion};
ghost use Rattle.pdn_plan.specs.Answer.{IsWritten};
ghost use Rattle.pdn_query.specs.Answering.{query_script};
ghost use Rattle.pdn_query.specs.Showing.{parties_of};
ghost use Rattle.pdn_commands.specs.Running.{queries_script};
ghost use Rattle.pdn_commands.specs.Commands.{run_script};
ghost use Rattle.pdn_query.specs.Questions.{OnlyDesk};
ghost use Rattle.pdn_query.specs.Script.{Script};
ghost use Rattle.pdn_query.specs.Walk.{Came, Along};
ghost use Rattle.pdn_script.specs.Stops.{end_of};

use crate::inputs::{MOST_QUERIES, queries_of, read_inputs};
use pdn_broker::Watch;
use pdn_dealer::Deal;
use pdn_plan::texts_are_written;
use pdn_query::{Crew, Numbered, Outside, Show, query_answer, say};
use pdn_schema::Schema;
use pdn_script::Stop;
use pdn_sql::Query;
use std::alloc::Global;
use std::thread::Threads;

/// Answers the queries of the file in order, each with a ticket and, with the views that are asked for, in one put, up to the first
/// that is refused.
pub fn run<R: Threads + Sync, W: Outside, D: Deal + Watch>(
    alloc: Global,
    file: &str,
    show: Option<Show>,
    world: &mut W,
    crew: &Crew<'_, R, D>,
) -> Result<(), Stop>
    ensures goes { Along (W.state world.old) (W.state world.new)
        (run_script (D.tape crew.now.deal.now) (parties_of show) file.now) (end_of result) }
    ensures only { OnlyDesk (W.state world.old).told (W.state world.new).told }
{
    let inputs = read_inputs(alloc, file, world)?;
    let queries = queries_of(alloc, &inputs.text)?;
    texts_are_written(&inputs.text, MOST_QUERIES);
    answer_all(alloc, &inputs.schema, &queries, show, world, crew)
}

// Each query in order, with its number, from 1 on.
fn answer_all<R: Threads + Sync, W: Outside, D: Deal + Watch>(
    alloc: Global,
    schema: &Schema,
    queries: &[Query],
    show: Option<Show>,
    world: &mut W,
    crew: &Crew<'_, R, D>,
) -> Result<(), Stop>
    requires { AllByRecursion IsWritten queries.now }
    ensures goes { Along (W.state world.old) (W.state world.new)
        (queries_script (D.tape crew.now.deal.now) (parties_of show) schema.now 1 queries.now)
        (end_of result) }
    ensures only { OnlyDesk (W.state world.old).told (W.state world.new).told }
{
    for (i, query) in queries.iter().enumerate() {
        let asked = Numbered {
            number: i as u64 + 1,
            query,
            show,
        };
        answer(alloc, schema, asked, world, crew)?;
    }
    Ok(())
}

// One query's answer with its views, in one put.
fn answer<R: Threads + Sync, W: Outside, D: Deal + Watch>(
    alloc: Global,
    schema: &Schema,
    asked: Numbered<'_>,
    world: &mut W,
    crew: &Crew<'_, R, D>,
) -> Result<(), Stop>
    requires written { IsWritten asked.query.now }
    ensures came { (rest : Script) →
        Came (W.state world.old) (W.state world.new)
        (query_script (D.tape crew.now.deal.now) (parties_of asked.entry.show)
        schema.now asked.entry.number asked.entry.query.now rest)
        (λ _. rest) result }
    ensures only { OnlyDesk (W.state world.old).told (W.state world.new).told }
{
    let text = query_answer(alloc, schema, asked, world, crew)?;
    say(world, &text)
}
