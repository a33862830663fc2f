//! The answer to a query: both sites' rows are asked for, judged, and answered over their union.
ghost use Rattle.std.specs.Prelude.{◌≡◌, ◌<◌, ◌-◌, ◌^◌, ◌++◌, ℕ, List, None, Ok, length, true, IfOk, MatchResult};
ghost use Rattle.std.specs.List.{All};
ghost use Rattle.std.specs.String.{string_bytes};
ghost use Rattle.pdn_base.specs.Operators.{Rows as RowsModel};
ghost use Rattle.pdn_schema.specs.Models.{table_of};
ghost use Rattle.pdn_schema.specs.Rows.{AreValid, union};
ghost use Rattle.pdn_plan.specs.Answer.{IsWritten, answer};
ghost use Rattle.pdn_plan.specs.Binding.{refusal};
ghost use Rattle.pdn_plan.specs.Planning.{root};
ghost use Rattle.pdn_tree.specs.Plans.{PlanModel};
ghost use Rattle.pdn_tree.specs.Shapes.{shape};
ghost use Rattle.pdn_site.specs.Models.{UnitModel};
ghost use Rattle.pdn_broker.specs.Answered.{IsAnswered};
ghost use Rattle.pdn_broker.specs.Prepared.{IsPrepared, PreparedForm};
ghost use Rattle.pdn_query.specs.Answering.{
  answer_text,
  gathering,
  query_answer,
  querying,
  shown_text,
  wrong_column,
};
ghost use Rattle.pdn_query.specs.Showing.{ThreeViews, parties_of, views_of, views_on};
ghost use Rattle.pdn_query.specs.Gathering.{NotReady, AreReady, IsAnsweredOn, IsReady};
ghost use Rattle.pdn_query.specs.Questions.{IsBound, OnlyDesk};
ghost use Rattle.pdn_query.specs.Script.{Script};
ghost use Rattle.pdn_query.specs.Walk.{Came};
ghost use Rattle.pdn_script.specs.Stops.{IsRefusal};

use crate::answer_text::answer_text;
use crate::binding::bound;
use crate::columns::column_name;
use crate::show::Show;
use crate::tables::tables_at;
use crate::tickets::next_ticket;
use crate::views::put_views;
use crate::workers::Crew;
use crate::world::Outside;
use pdn_base::{Memory, Rows, RowsErr, Site, Status, Tables};
use pdn_broker::{Answered, PrepareErr, Prepared, Watch, answer, prepare, prepared_form};
use pdn_dealer::Deal;
use pdn_plan::{Plan, plan_means_answer, valid_unions_fit};
use pdn_schema::{Schema, Table};
use pdn_script::{Stop, refused, refused_at};
use pdn_sql::Query;
use std::alloc::Global;
use std::thread::Threads;

/// A query of a file, with its number there, and whose views are shown with its answer.
#[derive(Clone, Copy)]
pub struct Numbered<'a> {
    pub number: u64,
    pub query: &'a Query,
    pub show: Option<Show>,
}

/// A query that is answered: its plan, its ticket, and its answer with what each party sees of it.
#[derive(Drop)]
pub struct AnsweredQuery {
    pub plan: Plan,
    pub ticket: u64,
    pub answered: Answered,
}

/// The text of the answer to a query, over the rows of both sites, and then the views that are asked for: what those parties see of
/// the query on the dealer's tape. Its ticket is taken of the desk when nothing is left to be refused.
pub fn query_answer<R: Threads + Sync, W: Outside, D: Deal + Watch>(
    alloc: Global,
    schema: &Schema,
    asked: Numbered<'_>,
    world: &mut W,
    crew: &Crew<'_, R, D>,
) -> Result<Vec<u8>, Stop>
    requires written { IsWritten asked.query.now }
    ensures came { (next : List ℕ → Script) →
        Came (W.state world.old) (W.state world.new)
        (query_answer (D.tape crew.now.deal.now) (parties_of asked.entry.show)
        schema.now asked.entry.number asked.entry.query.now next)
        (λ text. next text.items) result }
    ensures only { OnlyDesk (W.state world.old).told (W.state world.new).told }
{
    let answered = answered_query(alloc, schema, asked.query, world, crew)?;
    Ok(whole_text(alloc, asked, &answered)?)
}

// The answer's text, and then the views that are asked for.
fn whole_text(alloc: Global, asked: Numbered<'_>, query: &AnsweredQuery) -> Result<Vec<u8>, Memory>
    ensures { IfOk result (λ text. text.items
        ≡ answer_text asked.entry.number query.now.ticket query.now.plan.columns
        query.now.answered.rows
        ++ shown_text (parties_of asked.entry.show) (views_of query.now.answered)) }
{
    let rows = &query.answered.rows;
    let mut text = answer_text(alloc, asked.number, query.ticket, &query.plan, rows)?;
    put_views(alloc, &mut text, &query.answered, asked.show)?;
    Ok(text)
}

/// A query that is answered over the rows of both sites: its plan, its ticket, and its answer with what each party sees of it on the
/// dealer's tape. Its ticket is taken of the desk when nothing is left to be refused.
pub fn answered_query<R: Threads + Sync, W: Outside, D: Deal + Watch>(
    alloc: Global,
    schema: &Schema,
    query: &Query,
    world: &mut W,
    crew: &Crew<'_, R, D>,
) -> Result<AnsweredQuery, Stop>
    requires written { IsWritten query.now }
    ensures came { (next : PlanModel → ℕ → RowsModel → ThreeViews → Script) →
        Came (W.state world.old) (W.state world.new)
        (querying (D.tape crew.now.deal.now) schema.now query.now next)
        (λ q. next q.plan q.ticket q.answered.rows (views_of q.answered)) result }
    ensures binds { IfOk result (λ q. IsBound schema.now query.now (Ok q.plan)) }
    ensures there { IfOk result (λ q. q.ticket < 2 ^ 40) }
    ensures is { IfOk result (λ q. IsAnsweredOn (D.tape crew.now.deal.now)
        schema.now q.plan.root q.ticket q.answered) }
    ensures only { OnlyDesk (W.state world.old).told (W.state world.new).told }
{
    let plan = bound(alloc, schema, query)?;
    let prepared = gathered(alloc, schema, &plan, world)?;
    let ticket = next_ticket(alloc, world)?;
    let answered = answer_prepared(alloc, schema, query, ticket, prepared, crew)?;
    Ok(AnsweredQuery {
        plan,
        ticket,
        answered,
    })
}

// The query made ready over the rows that both sites keep of the tables that it scans, or the refusal.
fn gathered<W: Outside>(
    alloc: Global,
    schema: &Schema,
    plan: &Plan,
    world: &mut W,
) -> Result<Prepared, Stop>
    requires { (shape schema.now plan.now.root).sound ≡ true }
    ensures came { (next : List RowsModel → List RowsModel → List UnitModel → Script) →
        Came (W.state world.old) (W.state world.new) (gathering schema.now plan.now next)
        (λ prepared. next prepared.a.tables prepared.b.tables prepared.units) result }
    ensures ready { IfOk result (IsReady schema.now plan.now.root) }
    ensures same { (W.state world.new).told ≡ (W.state world.old).told }
{
    let a = tables_at(alloc, Site::A, schema, plan, world)?;
    let b = tables_at(alloc, Site::B, schema, plan, world)?;
    ready(alloc, schema, plan, a, b)
}

/// The answer of a query that is made ready over valid tables, on the sections of this ticket, and what each party sees of it. Memory is
/// the only error.
pub fn answer_prepared<R: Threads + Sync, D: Deal + Watch>(
    alloc: Global,
    schema: &Schema,
    query: &Query,
    ticket: u64,
    prepared: Prepared,
    crew: &Crew<'_, R, D>,
) -> Result<Answered, Memory>
    requires written { IsWritten query.now }
    requires passes { refusal schema.now query.now ≡ None }
    requires root { prepared.a.root ≡ root schema.now query.now }
    requires valid_a { AreValid schema.now prepared.a.tables }
    requires valid_b { AreValid schema.now prepared.b.tables }
    requires there { ticket < 2 ^ 40 }
    ensures rows { IfOk result (λ answered. answered.rows
        ≡ answer schema.now (union prepared.a.tables prepared.b.tables) query.now) }
    ensures is { IfOk result (IsAnswered prepared (D.tape crew.now.deal.now) ticket) }
    ensures views { IfOk result (λ answered. views_of answered
        ≡ views_on prepared (D.tape crew.now.deal.now) ticket) }
{
    valid_unions_fit(schema);
    plan_means_answer(schema, query);
    answer(
        crew.rt,
        alloc,
        prepared,
        ticket,
        crew.deal,
        crew.workers.count,
    )
}

/// The query made ready over both sites' tables, or the refusal.
pub fn ready(
    alloc: Global,
    schema: &Schema,
    plan: &Plan,
    a: Tables,
    b: Tables,
) -> Result<Prepared, Stop>
    requires sound { (shape schema.now plan.now.root).sound ≡ true }
    requires count_a { length a ≡ length schema.now.tables }
    requires count_b { length b ≡ length schema.now.tables }
    requires few_a { All (λ (rows : RowsModel). length rows < 2 ^ 32 - 1) a }
    requires few_b { All (λ (rows : RowsModel). length rows < 2 ^ 32 - 1) b }
    ensures { MatchResult result
        (λ prepared. AreReady schema.now plan.now.root a b prepared)
        (NotReady schema.now plan.now.root a b) }
{
    match prepare(alloc, schema, plan, a, b) {
        Ok(prepared) => {
            is_prepared(&prepared);
            Ok(prepared)
        }
        Err(PrepareErr::Rows { site, table, cause }) => {
            Err(wrong_rows(alloc, schema, site, table, cause))
        }
        Err(PrepareErr::TooLarge { limit, unit }) => {
            Err(refused(alloc, Status::TooLarge { limit, unit }))
        }
        Err(PrepareErr::Memory) => Err(Stop::Memory),
    }
}

// What a query that is made ready keeps, and what it is.
fn is_prepared(prepared: &Prepared)
    ensures kept { IsPrepared prepared.now }
    ensures form { PreparedForm }
{
    let _units = prepared.units();
    prepared_form();
}

// The refusal of a site's rows of a table.
pub(crate) fn wrong_rows(
    alloc: Global,
    schema: &Schema,
    site: Site,
    table: u32,
    wrong: RowsErr,
) -> Stop
    requires { table < length schema.now.tables }
    ensures { let t = table_of schema.now table in
        IsRefusal t.name (wrong_column t wrong) (Status.BadRows site table wrong) result }
{
    let named = schema.table(table);
    let Ok(column) = wrong_column(alloc, named, wrong) else {
        return Stop::Memory;
    };
    let status = Status::BadRows {
        site,
        table,
        cause: wrong,
    };
    refused_at(alloc, status, named.name.as_str(), column.as_str())
}

// The name of the column that a cause speaks of.
fn wrong_column(alloc: Global, table: &Table, wrong: RowsErr) -> Result<String, Memory>
    ensures { IfOk result (λ name. string_bytes name ≡ wrong_column table.now wrong) }
{
    match wrong {
        RowsErr::TooMany => Ok(String::new(alloc)),
        RowsErr::PerValue(column) => column_name(alloc, table, column),
        RowsErr::WrongType { column, .. } => column_name(alloc, table, column),
    }
}
