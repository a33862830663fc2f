//! A text is answered: the query that it says, and the body of its answer.
ghost use Rattle.std.specs.Prelude.{◌≡◌, ◌∷◌, [], List, ℕ, length, IfOk, MatchResult};
ghost use Rattle.pdn_base.specs.Bounds.{IsShort};
ghost use Rattle.pdn_plan.specs.Answer.{IsWritten};
ghost use Rattle.pdn_sql.specs.Reading.{Says};
ghost use Rattle.pdn_reply.specs.Bodies.{answer_text};
ghost use Rattle.pdn_query.specs.DeskCalls.{AsksTickets};
ghost use Rattle.pdn_query.specs.Questions.{OnlyDesk};
ghost use Rattle.pdn_desk.specs.Courses.{Course, Answer, Read};
ghost use Rattle.pdn_desk.specs.Requests.{answer_script};
ghost use Rattle.pdn_desk.specs.Ways.{CameBy, IsUnsaid};

use crate::outside::DeskOutside;
use pdn_base::{Memory, Status};
use pdn_broker::Watch;
use pdn_dealer::Deal;
use pdn_plan::texts_are_written;
use pdn_query::{AnsweredQuery, Crew, answered_query};
use pdn_reply::answer_body;
use pdn_schema::Schema;
use pdn_script::{Stop, refused};
use pdn_sql::{Query, SqlErr, read_queries, texts_keep_limits};
use std::alloc::Global;
use std::thread::Threads;

/// The body of the answer to the query that a text says, or the refusal.
pub(crate) fn answered_text<R: Threads + Sync, W: DeskOutside, D: Deal + Watch>(
    alloc: Global,
    schema: &Schema,
    text: &[u8],
    world: &mut W,
    crew: &Crew<'_, R, D>,
) -> Result<Vec<u8>, Stop>
    requires { IsShort text.now }
    ensures came { (next : List ℕ → Course) →
        CameBy (W.state world.old) (W.state world.new)
        (Read text.now (λ query. Answer (answer_script schema.now query) next))
        (λ body. next body.items) result }
    ensures asked { AsksTickets (W.state world.old).told.desk (W.state world.new).told.desk }
{
    let query = query_of(alloc, text)?;
    answered(alloc, schema, &query, world, crew)
}

/// The query that a text says, or the refusal.
fn query_of(alloc: Global, text: &[u8]) -> Result<Query, Stop>
    requires { IsShort text.now }
    ensures said { MatchResult result (λ query. Says 1 text.now (query ∷ [])) (IsUnsaid text.now) }
    ensures written { IfOk result (λ query. IsWritten query) }
{
    match read_queries(alloc, text, 1) {
        Ok(queries) => {
            texts_keep_limits(text, 1);
            texts_are_written(text, 1);
            Ok(only(queries))
        }
        Err(SqlErr::At { place, kind }) => Err(refused(alloc, Status::Sql { place, kind })),
        Err(SqlErr::Memory) => Err(Stop::Memory),
    }
}

/// The only query of a list.
fn only(queries: Vec<Query>) -> Query
    requires { length queries.items ≡ 1 }
    ensures { queries.items ≡ result ∷ [] }
{
    let mut queries = queries;
    queries.pop().unwrap()
}

/// The body of the answer to a query, or the refusal.
fn answered<R: Threads + Sync, W: DeskOutside, D: Deal + Watch>(
    alloc: Global,
    schema: &Schema,
    query: &Query,
    world: &mut W,
    crew: &Crew<'_, R, D>,
) -> Result<Vec<u8>, Stop>
    requires written { IsWritten query.now }
    ensures came { (next : List ℕ → Course) →
        CameBy (W.state world.old) (W.state world.new)
        (Answer (answer_script schema.now query.now) next)
        (λ body. next body.items) result }
    ensures asked { AsksTickets (W.state world.old).told.desk (W.state world.new).told.desk }
{
    let answer = answered_query(alloc, schema, query, world, crew)?;
    Ok(body_of(alloc, &answer)?)
}

/// The body that gives an answer.
fn body_of(alloc: Global, answer: &AnsweredQuery) -> Result<Vec<u8>, Memory>
    ensures { IfOk result (λ body. body.items
        ≡ answer_text answer.now.plan.columns answer.now.answered.rows answer.now.ticket) }
{
    answer_body(
        alloc,
        &answer.plan.columns,
        &answer.answered.rows,
        answer.ticket,
    )
}
