//! The schema of all queries, and their plans.
ghost use Rattle.std.specs.Prelude.{◌≡◌, true, IfOk};
ghost use Rattle.std.specs.List.{AllByRecursion};
ghost use Rattle.pdn_plan.specs.Answer.{IsWritten};
ghost use Rattle.pdn_tree.specs.Shapes.{shape};

use pdn_base::Memory;
use pdn_plan::{Plan, bind, texts_are_written};
use pdn_schema::{Schema, read_schema};
use pdn_sql::{Query, read_queries};
use std::alloc::Global;

const SCHEMA: &str = "\
version 1
floor 3
table diag rows 16
column pid int public per 4
column code code protected
column day int private
table med rows 16
column pid int public per 4
column drug code protected
column day int private
end
";

pub fn schema(alloc: Global) -> Result<Schema, Memory> {
    read_schema(alloc, SCHEMA.as_bytes()).map_err(|_| Memory)
}

/// The plan of a query, whose tree is known to be sound.
pub fn plan_of(alloc: Global, schema: &Schema, sql: &str) -> Result<Plan, Memory>
    ensures { IfOk result (λ plan. (shape schema.now plan.root).sound ≡ true) }
{
    if 1_000 < sql.len() {
        return Err(Memory);
    }
    let queries = read_queries(alloc, sql.as_bytes(), 1).map_err(|_| Memory)?;
    texts_are_written(sql.as_bytes(), 1);
    first_plan(alloc, schema, &queries)
}

// The plan of the first query.
fn first_plan(alloc: Global, schema: &Schema, queries: &[Query]) -> Result<Plan, Memory>
    requires { AllByRecursion IsWritten queries.now }
    ensures { IfOk result (λ plan. (shape schema.now plan.root).sound ≡ true) }
{
    match queries {
        [query, ..] => written_plan(alloc, schema, query),
        [] => Err(Memory),
    }
}

fn written_plan(alloc: Global, schema: &Schema, query: &Query) -> Result<Plan, Memory>
    requires { IsWritten query.now }
    ensures { IfOk result (λ plan. (shape schema.now plan.root).sound ≡ true) }
{
    match bind(alloc, schema, query) {
        Ok(plan) => Ok(plan),
        Err(_) => Err(Memory),
    }
}
