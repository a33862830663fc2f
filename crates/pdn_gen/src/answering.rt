//! A query that nothing refuses but a limit, over both sites' tables.
ghost use Rattle.std.specs.Prelude.{◌≡◌, ℕ, List, true, IfOk};
ghost use Rattle.pdn_base.specs.Operators.{Rows as RowsModel};
ghost use Rattle.pdn_schema.specs.Rows.{AreValid};
ghost use Rattle.pdn_plan.specs.Answer.{IsWritten};
ghost use Rattle.pdn_plan.specs.Planning.{root};
ghost use Rattle.pdn_tree.specs.Shapes.{shape};
ghost use Rattle.pdn_site.specs.Models.{UnitModel};
ghost use Rattle.pdn_query.specs.Answering.{units_over, or_large};
ghost use Rattle.pdn_query.specs.Gathering.{AreReady};
ghost use Rattle.pdn_query.specs.Questions.{OnlyDesk};
ghost use Rattle.pdn_query.specs.Script.{Script};
ghost use Rattle.pdn_query.specs.Walk.{Came};
ghost use Rattle.pdn_query.specs.World.{WorldModel};
ghost use Rattle.pdn_gen.specs.Gen.{Binds, over};

use pdn_base::Memory;
use pdn_broker::{Answered, Prepared, Watch};
use pdn_dealer::Deal;
use pdn_network::Network;
use pdn_plan::{Plan, PlanErr, bind};
use pdn_query::{Crew, Outside, answer_prepared, next_ticket, ready};
use pdn_schema::Schema;
use pdn_script::Stop;
use pdn_sql::Query;
use std::alloc::Global;
use std::thread::Threads;

/// An answer, and over how many units it came.
#[derive(Drop)]
pub struct Counted {
    pub answered: Answered,
    pub units: u64,
}

/// Answers a query over the network's tables, or refuses it for the first limit that it passes, or for want of a ticket.
pub fn answer_over<R: Threads + Sync, W: Outside, D: Deal + Watch>(
    alloc: Global,
    network: &Network,
    query: &Query,
    world: &mut W,
    crew: &Crew<'_, R, D>,
) -> Result<Counted, Stop>
    requires written { IsWritten query.now }
    requires binds { Binds network.now.schema query.now }
    requires valid_a { AreValid network.now.schema network.now.a }
    requires valid_b { AreValid network.now.schema network.now.b }
    ensures came { (next : RowsModel → ℕ → Script) →
        Came (W.state world.old) (W.state world.new)
        (over network.now.schema network.now.a network.now.b query.now next)
        (λ counted. next counted.answered.rows counted.units) result }
    ensures only { OnlyDesk (W.state world.old).told (W.state world.new).told }
{
    let plan = plan_of(alloc, &network.schema, query)?;
    let prepared = ready_over(alloc, network, &plan)?;
    let units = prepared.units();
    let ticket = next_ticket(alloc, world)?;
    let answered = answer_prepared(alloc, &network.schema, query, ticket, prepared, crew)?;
    Ok(Counted { answered, units })
}

// The plan of a query that binds.
fn plan_of(alloc: Global, schema: &Schema, query: &Query) -> Result<Plan, Memory>
    requires written { IsWritten query.now }
    requires binds { Binds schema.now query.now }
    ensures root { IfOk result (λ made. made.root ≡ root schema.now query.now) }
    ensures sound { IfOk result (λ made. (shape schema.now made.root).sound ≡ true) }
{
    match bind(alloc, schema, query) {
        Ok(plan) => Ok(plan),
        Err(PlanErr::Memory) => Err(Memory),
        Err(PlanErr::Refused { .. } | PlanErr::Forbidden { .. }) => unreachable!(),
    }
}

// The query made ready over the network's tables, or the refusal for the first limit that it passes.
fn ready_over(alloc: Global, network: &Network, plan: &Plan) -> Result<Prepared, Stop>
    requires sound { (shape network.now.schema plan.now.root).sound ≡ true }
    requires valid_a { AreValid network.now.schema network.now.a }
    requires valid_b { AreValid network.now.schema network.now.b }
    ensures came { (w : WorldModel) (next : List UnitModel → Script) →
        Came w w
        (or_large next (units_over network.now.schema plan.now.root network.now.a network.now.b))
        (λ prepared. next prepared.units) result }
    ensures ready { IfOk result
        (AreReady network.now.schema plan.now.root network.now.a network.now.b) }
{
    let schema = &network.schema;
    // what a schema keeps is known once it is looked at
    let _floor = schema.floor;
    let a = network.a.copy(alloc)?;
    let b = network.b.copy(alloc)?;
    ready(alloc, schema, plan, a, b)
}
