//! `gen`: the standing queries of a stated network of any size, answered in short.
ghost use Rattle.std.specs.Prelude.{◌≡◌};
ghost use Rattle.std.specs.List.{AllByRecursion};
ghost use Rattle.pdn_schema.specs.Rows.{AreValid};
ghost use Rattle.pdn_plan.specs.Answer.{IsWritten};
ghost use Rattle.pdn_gen.specs.Gen.{Binds};
ghost use Rattle.pdn_query.specs.Questions.{OnlyDesk};
ghost use Rattle.pdn_query.specs.Script.{Script};
ghost use Rattle.pdn_query.specs.Walk.{Came, Along};
ghost use Rattle.pdn_script.specs.Stops.{end_of};
ghost use Rattle.pdn_commands.specs.Running.{numbered};
ghost use Rattle.pdn_commands.specs.Generating.{short_step, generate_script};

use pdn_broker::Watch;
use pdn_dealer::Deal;
use pdn_gen::{Size, answer_over, short_text, standing_queries_are_written, standing_queries_bind};
use pdn_network::{Network, standing_queries, stated_network};
use pdn_query::{Crew, Outside, say};
use pdn_script::Stop;
use pdn_sql::Query;
use std::alloc::Global;
use std::thread::Threads;

// A standing query, with its number and the size of the network that it is asked of.
#[derive(Clone, Copy)]
struct Asked<'a> {
    size: Size,
    number: u64,
    query: &'a Query,
}

/// Makes the network in memory and answers its standing queries in order, each with a ticket and in one put, up to the first that
/// is refused: for a limit, or for want of a ticket. No file is read, and no site's keeper.
pub fn generate<R: Threads + Sync, W: Outside, D: Deal + Watch>(
    alloc: Global,
    size: Size,
    world: &mut W,
    crew: &Crew<'_, R, D>,
) -> Result<(), Stop>
    ensures goes { Along (W.state world.old) (W.state world.new)
        (generate_script size.seed size.patients) (end_of result) }
    ensures only { OnlyDesk (W.state world.old).told (W.state world.new).told }
{
    let network = stated_network(alloc, size.seed, size.patients)?;
    let queries = standing_queries(alloc)?;
    standing_queries_are_written();
    standing_queries_bind();
    answer_each(alloc, &network, size, &queries, world, crew)
}

// Each query in order, with its number, from 1 on.
fn answer_each<R: Threads + Sync, W: Outside, D: Deal + Watch>(
    alloc: Global,
    network: &Network,
    size: Size,
    queries: &[Query],
    world: &mut W,
    crew: &Crew<'_, R, D>,
) -> Result<(), Stop>
    requires written { AllByRecursion IsWritten queries.now }
    requires bind { AllByRecursion (Binds network.now.schema) queries.now }
    requires valid_a { AreValid network.now.schema network.now.a }
    requires valid_b { AreValid network.now.schema network.now.b }
    ensures goes { Along (W.state world.old) (W.state world.new)
        (numbered (short_step network.now.schema network.now.a network.now.b
        size.seed size.patients) 1 queries.now) (end_of result) }
    ensures only { OnlyDesk (W.state world.old).told (W.state world.new).told }
{
    for (i, query) in queries.iter().enumerate() {
        let asked = Asked {
            size,
            number: i as u64 + 1,
            query,
        };
        answer_short(alloc, network, asked, world, crew)?;
    }
    Ok(())
}

// One query's answer in short, in one put.
fn answer_short<R: Threads + Sync, W: Outside, D: Deal + Watch>(
    alloc: Global,
    network: &Network,
    asked: Asked<'_>,
    world: &mut W,
    crew: &Crew<'_, R, D>,
) -> Result<(), Stop>
    requires written { IsWritten asked.query.now }
    requires binds { Binds network.now.schema asked.query.now }
    requires valid_a { AreValid network.now.schema network.now.a }
    requires valid_b { AreValid network.now.schema network.now.b }
    ensures came { (rest : Script) →
        Came (W.state world.old) (W.state world.new)
        (short_step network.now.schema network.now.a network.now.b
        asked.entry.size.seed asked.entry.size.patients
        asked.entry.number asked.entry.query.now rest)
        (λ _. rest) result }
    ensures only { OnlyDesk (W.state world.old).told (W.state world.new).told }
{
    let counted = answer_over(alloc, network, asked.query, world, crew)?;
    let rows = counted.answered.rows.as_slice();
    let text = short_text(alloc, asked.size, asked.number, rows, counted.units)?;
    say(world, &text)
}
