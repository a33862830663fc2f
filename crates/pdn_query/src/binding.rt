//! The plan of a query, or the refusal.
ghost use Rattle.std.specs.Prelude.{◌≡◌, Ok, true, IfOk};
ghost use Rattle.pdn_plan.specs.Answer.{IsWritten};
ghost use Rattle.pdn_tree.specs.Shapes.{shape};
ghost use Rattle.pdn_query.specs.Questions.{IsBound};
ghost use Rattle.pdn_tree.specs.Plans.{PlanModel};
ghost use Rattle.pdn_query.specs.Script.{Script, binding};
ghost use Rattle.pdn_query.specs.Walk.{Came};
ghost use Rattle.pdn_query.specs.World.{WorldModel};

use pdn_base::Status;
use pdn_plan::{Plan, PlanErr, bind};
use pdn_schema::Schema;
use pdn_script::{Stop, refused};
use pdn_sql::Query;
use std::alloc::Global;

/// The plan of a query, or the refusal: the first rule of binding that it breaks, else the first column of its answer that
/// isn't public.
pub fn bound(alloc: Global, schema: &Schema, query: &Query) -> Result<Plan, Stop>
    ensures came { (w : WorldModel) (next : PlanModel → Script) →
        Came w w (binding schema.now query.now next) (λ plan. next plan) result }
    ensures binds { IfOk result (λ plan. IsBound schema.now query.now (Ok plan)) }
    ensures sound { IsWritten query.now
        → IfOk result (λ plan. (shape schema.now plan.root).sound ≡ true) }
{
    match bind(alloc, schema, query) {
        Ok(plan) => Ok(plan),
        Err(PlanErr::Refused { kind, name }) => Err(refused(alloc, Status::Plan { kind, name })),
        Err(PlanErr::Forbidden { column, label }) => {
            Err(refused(alloc, Status::Forbidden { column, label }))
        }
        Err(PlanErr::Memory) => Err(Stop::Memory),
    }
}
