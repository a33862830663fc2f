//! `twin`: of each query of a file a site's view in two worlds, and where the tape is changed between them.
ghost use Rattle.std.specs.Prelude.{◌≡◌, ◌<◌, ◌^◌, List, length, true, IfOk, MatchResult};
ghost use Rattle.std.specs.List.{AllByRecursion};
ghost use Rattle.pdn_plan.specs.Answer.{IsWritten};
ghost use Rattle.pdn_site.specs.Models.{UnitModel};
ghost use Rattle.pdn_tree.specs.Shapes.{shape};
ghost use Rattle.pdn_agree.specs.Agreement.{Agree};
ghost use Rattle.pdn_agree.specs.EqualShapes.{ShapesLaw};
ghost use Rattle.pdn_schema.specs.Rows.{AreValid};
ghost use Rattle.pdn_broker.specs.Prepared.{IsPrepared};
ghost use Rattle.pdn_worlds.specs.TwoWorlds.{AreWorlds};
ghost use Rattle.pdn_twin.specs.Twins.{TwinWords};
ghost use Rattle.pdn_query.specs.Answering.{or_large, units_over};
ghost use Rattle.pdn_query.specs.Gathering.{NotReady, AreReady};
ghost use Rattle.pdn_query.specs.Questions.{OnlyDesk};
ghost use Rattle.pdn_query.specs.Script.{Script};
ghost use Rattle.pdn_query.specs.Walk.{Came, Along};
ghost use Rattle.pdn_query.specs.World.{WorldModel};
ghost use Rattle.pdn_commands.specs.HandedOn.{AreReadyWorlds};
ghost use Rattle.pdn_commands.specs.Twinning.{KeepsEqual, HasEqualViews, twin_of, twin_text, twin_query, twins_script, twin_script};
ghost use Rattle.pdn_script.specs.Stops.{end_of};

use crate::folder::texts_in;
use crate::inputs::{MOST_QUERIES, queries_of, read_inputs};
use crate::twin_text::twin_text;
use crate::worlds::{TwoWorlds, Union, worlds_of};
use pdn_agree::agreeing_unions_have_equal_shapes;
use pdn_base::{Memory, Site};
use pdn_broker::{Prepared, Watch};
use pdn_dealer::Deal;
use pdn_plan::{Plan, texts_are_written};
use pdn_query::{Crew, Outside, bound, next_ticket, ready, say};
use pdn_schema::Schema;
use pdn_script::Stop;
use pdn_sql::Query;
use pdn_twin::{Worlds, twin as twin_in};
use std::alloc::Global;
use std::thread::Threads;

/// What a twin asks for: the site that looks, the file of queries, and the folder of the second world's rows.
#[derive(Clone, Copy)]
pub struct TwinFiles<'a> {
    pub site: Site,
    pub file: &'a str,
    pub folder: &'a str,
}

/// Puts the twin of each query of the file, each with a ticket and in one put, up to the first that is refused. In the second world the
/// other site has, of each table, the rows of the folder's file where it is there, and else those that it keeps.
pub fn twin<R: Threads + Sync, W: Outside, D: Deal + Watch>(
    alloc: Global,
    asked: TwinFiles<'_>,
    world: &mut W,
    crew: &Crew<'_, R, D>,
) -> Result<(), Stop>
    ensures goes { (views : TwinWords → TwinWords) → KeepsEqual views →
        Along (W.state world.old) (W.state world.new)
        (twin_script views (D.tape crew.now.deal.now) asked.entry.site asked.entry.file.now
        asked.entry.folder.now) (end_of result) }
    ensures only { OnlyDesk (W.state world.old).told (W.state world.new).told }
{
    let inputs = read_inputs(alloc, asked.file, world)?;
    let texts = texts_in(alloc, asked.folder, &inputs.schema, world)?;
    let queries = queries_of(alloc, &inputs.text)?;
    texts_are_written(&inputs.text, MOST_QUERIES);
    let worlds = worlds_of(alloc, asked.site, inputs.schema, &texts, world)?;
    twin_all(alloc, &worlds, &queries, world, crew)
}

// Each query in order, with its number, from 1 on.
fn twin_all<R: Threads + Sync, W: Outside, D: Deal + Watch>(
    alloc: Global,
    worlds: &TwoWorlds,
    queries: &[Query],
    world: &mut W,
    crew: &Crew<'_, R, D>,
) -> Result<(), Stop>
    requires { AllByRecursion IsWritten queries.now }
    ensures goes { (views : TwinWords → TwinWords) → KeepsEqual views →
        Along (W.state world.old) (W.state world.new)
        (twins_script views (D.tape crew.now.deal.now) worlds.now 1 queries.now) (end_of result) }
    ensures only { OnlyDesk (W.state world.old).told (W.state world.new).told }
{
    for (i, query) in queries.iter().enumerate() {
        twin_query(alloc, worlds, i as u64 + 1, query, world, crew)?;
    }
    Ok(())
}

// One query's twin, in one put. Its ticket is taken when nothing is left to be refused.
fn twin_query<R: Threads + Sync, W: Outside, D: Deal + Watch>(
    alloc: Global,
    worlds: &TwoWorlds,
    number: u64,
    query: &Query,
    world: &mut W,
    crew: &Crew<'_, R, D>,
) -> Result<(), Stop>
    requires written { IsWritten query.now }
    ensures came { (views : TwinWords → TwinWords) → KeepsEqual views → (rest : Script) →
        Came (W.state world.old) (W.state world.new)
        (twin_query views (D.tape crew.now.deal.now) worlds.now number query.now rest)
        (λ _. rest) result }
    ensures only { OnlyDesk (W.state world.old).told (W.state world.new).told }
{
    let plan = bound(alloc, &worlds.schema, query)?;
    let both = ready_in_both(alloc, worlds, &plan)?;
    let ticket = next_ticket(alloc, world)?;
    let text = twinned(alloc, both, number, ticket, crew)?;
    say(world, &text)
}

// The text of a query's twin, where it is made ready in both worlds. Both of its views are equal.
fn twinned<R: Threads + Sync, D: Deal + Watch>(
    alloc: Global,
    worlds: Worlds,
    number: u64,
    ticket: u64,
    crew: &Crew<'_, R, D>,
) -> Result<Vec<u8>, Memory>
    requires alike { AreWorlds worlds.site worlds.first worlds.second }
    requires there { ticket < 2 ^ 40 }
    ensures is { IfOk result (λ text. text.items ≡ twin_text worlds.site number ticket
        (twin_of worlds.site worlds.first worlds.second (D.tape crew.now.deal.now) ticket)) }
    ensures equal { IfOk result (λ _. HasEqualViews
        (twin_of worlds.site worlds.first worlds.second (D.tape crew.now.deal.now) ticket)) }
{
    let site = worlds.site;
    let twin = twin_in(
        crew.rt,
        alloc,
        worlds,
        ticket,
        crew.deal,
        crew.workers.count,
    )?;
    twin_text(alloc, site, number, ticket, &twin)
}

// The query made ready in both worlds, or the refusal. Its units are the same in both, so the second adds no refusal.
fn ready_in_both(alloc: Global, worlds: &TwoWorlds, plan: &Plan) -> Result<Worlds, Stop>
    requires { (shape worlds.now.schema plan.now.root).sound ≡ true }
    ensures came { (w : WorldModel) (next : List UnitModel → Script) →
        Came w w (or_large next (units_over worlds.now.schema plan.now.root
        worlds.now.first.a worlds.now.first.b)) (λ both. next both.first.units) result }
    ensures ready { IfOk result (AreReadyWorlds worlds.now plan.now.root) }
{
    agreed(worlds);
    let first = ready_in(alloc, &worlds.schema, plan, &worlds.first)?;
    is_prepared(&first);
    let second = ready_in(alloc, &worlds.schema, plan, &worlds.second)?;
    is_prepared(&second);
    Ok(Worlds {
        site: worlds.site,
        first,
        second,
    })
}

// What a query that is made ready keeps.
fn is_prepared(prepared: &Prepared)
    ensures { IsPrepared prepared.now }
{
    let _units = prepared.units();
}

// What two worlds keep, and the law of their units.
fn agreed(worlds: &TwoWorlds)
    ensures agree { Agree worlds.now.site worlds.now.schema worlds.now.first worlds.now.second }
    ensures shapes { ShapesLaw }
{
    let _site = worlds.site;
    agreeing_unions_have_equal_shapes();
}

// The query made ready in one world, or the refusal.
fn ready_in(alloc: Global, schema: &Schema, plan: &Plan, tables: &Union) -> Result<Prepared, Stop>
    requires sound { (shape schema.now plan.now.root).sound ≡ true }
    requires a { AreValid schema.now tables.now.a }
    requires b { AreValid schema.now tables.now.b }
    ensures { MatchResult result
        (AreReady schema.now plan.now.root tables.now.a tables.now.b)
        (NotReady schema.now plan.now.root tables.now.a tables.now.b) }
{
    // what a schema keeps is known once it is looked at
    let _floor = schema.floor;
    let a = tables.a.copy(alloc)?;
    let b = tables.b.copy(alloc)?;
    ready(alloc, schema, plan, a, b)
}
