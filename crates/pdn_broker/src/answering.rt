//! The answer of a prepared query.
ghost use Rattle.std.specs.Prelude.{◌≡◌, ◌≤◌, ◌<◌, ◌^◌, ◌++◌, List, [], ◌∷◌, length, cond, IfOk, OnOk};
ghost use Rattle.pdn_base.specs.Operators.{listed};
ghost use Rattle.pdn_schema.specs.Rows.{union};
ghost use Rattle.pdn_tree.specs.Meaning.{mean};
ghost use Rattle.pdn_gmw.specs.Pairs.{Run};
ghost use Rattle.pdn_broker.specs.Runs.{Tape};
ghost use Rattle.pdn_broker.specs.Units.{is_secure, dealt_of};
ghost use Rattle.pdn_broker.specs.Running.{
  unit_at,
  secure_run,
  secure_runs,
  outputs_of,
  root_run,
  runs_of,
  AreRuns,
  IsRootRun,
  opened_list,
};
ghost use Rattle.pdn_broker.specs.Answered.{IsAnswered};

use crate::answered::{Answered, Dealt};
use crate::opening::opened_rows;
use crate::prepared::Prepared;
use crate::shares::Shares;
use crate::unit_job::UnitJob;
use crate::unit_run::run_unit;
use crate::units::{circuit_of, is_secure, room_of, unit_at};
use crate::views::{broker_view, site_view};
use crate::watch::Watch;
use pdn_base::{Memory, Rows, Site};
use pdn_dealer::Deal;
use pdn_gmw::UnitRun;
use pdn_pool::run_all;
use std::alloc::Global;
use std::thread::Threads;

/// Adds the job of a unit, where it is a secure one.
fn push_job<'a, D: Deal>(
    jobs: &mut Vec<UnitJob<'a, D>>,
    prepared: &'a Prepared,
    at: Dealt,
    deal: &'a D,
) -> Result<(), Memory>
    requires { at.unit < length prepared.now.units }
    ensures { OnOk result (jobs.new.items
        ≡ jobs.old.items ++ cond (is_secure (unit_at prepared.now at.unit).kind)
        (secure_run prepared.now (D.tape deal.now) at.ticket at.unit ∷ []) []) }
{
    if is_secure(unit_at(&prepared.units, at.unit)) {
        jobs.push(UnitJob { prepared, at, deal })?;
    }
    Ok(())
}

/// The jobs of the secure units, in unit order, each on the section of this ticket and its own number.
fn secure_jobs<'a, D: Deal>(
    alloc: Global,
    prepared: &'a Prepared,
    ticket: u64,
    deal: &'a D,
) -> Result<Vec<UnitJob<'a, D>>, Memory>
    ensures { IfOk result (λ jobs. jobs.items ≡ secure_runs prepared.now (D.tape deal.now) ticket) }
{
    let mut jobs = Vec::new(alloc);
    for k in 0..prepared.units.units.len() {
        let at = Dealt {
            ticket,
            unit: k as u64,
        };
        push_job(&mut jobs, prepared, at, deal)?;
    }
    Ok(jobs)
}

/// Runs the secure units by these workers. Whichever worker runs a unit, and when, its run is the same and stands in its place.
fn secure_runs<R: Threads + Sync, D: Deal>(
    rt: &R,
    alloc: Global,
    prepared: &Prepared,
    ticket: u64,
    deal: &D,
    workers: u32,
) -> Result<Vec<UnitRun>, Memory>
    requires { (1 ≤ workers) × (workers ≤ 16) }
    ensures { IfOk result (λ runs. runs.items ≡ secure_runs prepared.now (D.tape deal.now) ticket) }
{
    let jobs = secure_jobs(alloc, prepared, ticket, deal)?;
    // More jobs than their numbers can tell.
    if jobs.len() >= u32::MAX as usize {
        return Err(Memory);
    }
    run_all(rt, alloc, jobs.as_slice(), workers)
}

/// What each site's halves of these runs put out, one after the other.
fn outputs_of(alloc: Global, runs: &[UnitRun]) -> Result<Shares, Memory>
    ensures { IfOk result (λ outputs. outputs ≡ outputs_of runs.now) }
{
    let mut a = Vec::new(alloc);
    let mut b = Vec::new(alloc);
    for k in 0..runs.len() {
        a.extend_from_slice(runs[k].a().outputs())?;
        b.extend_from_slice(runs[k].b().outputs())?;
    }
    Ok(Shares { a, b })
}

/// Runs the root, the last unit, on both sites' words, on what the halves of the secure units put out, and on the section of this
/// ticket and its own number.
fn root_run<D: Deal>(
    alloc: Global,
    prepared: &Prepared,
    given: Shares,
    ticket: u64,
    deal: &D,
) -> Result<UnitRun, Memory>
    requires { given ≡ outputs_of (secure_runs prepared.now (D.tape deal.now) ticket) }
    ensures { IfOk result (λ run. run ≡ root_run prepared.now (D.tape deal.now) ticket) }
{
    let own = prepared.root_words(alloc)?;
    let at = Dealt {
        ticket,
        unit: prepared.units() - 1,
    };
    let root = unit_at(&prepared.units, at.unit);
    run_unit(alloc, circuit_of(root), own, given, deal, at)
}

/// The rows that the root's two outputs come to, in the query's order.
fn rows_of(alloc: Global, prepared: &Prepared, ticket: u64, run: &UnitRun) -> Result<Rows, Memory>
    requires { IsRootRun prepared.now ticket run.now }
    ensures are { IfOk result (λ rows.
        rows ≡ listed prepared.now.order (opened_list prepared.now run.now)) }
    ensures mean { IfOk result (λ rows. rows
        ≡ mean (union prepared.now.a.tables prepared.now.b.tables) prepared.now.a.root) }
{
    let root = unit_at(&prepared.units, prepared.units() - 1);
    opened_rows(
        alloc,
        run.a().outputs(),
        run.b().outputs(),
        prepared.columns.as_slice(),
        room_of(root),
        prepared.order.as_slice(),
    )
}

/// The runs of the secure units, and then the root's.
fn all_runs<R: Threads + Sync, D: Deal>(
    rt: &R,
    alloc: Global,
    prepared: &Prepared,
    ticket: u64,
    deal: &D,
    workers: u32,
) -> Result<Vec<UnitRun>, Memory>
    requires { (1 ≤ workers) × (workers ≤ 16) }
    ensures { IfOk result (λ runs. runs.items ≡ runs_of prepared.now (D.tape deal.now) ticket) }
{
    let mut runs = secure_runs(rt, alloc, prepared, ticket, deal, workers)?;
    let given = outputs_of(alloc, runs.as_slice())?;
    let root = root_run(alloc, prepared, given, ticket, deal)?;
    runs.push(root)?;
    Ok(runs)
}

/// Tells the watch of each run, in order.
fn tell_runs<D: Watch>(watch: &D, dealt: &[Dealt], runs: &[UnitRun])
    requires { length runs.now ≡ length dealt.now }
{
    for k in 0..dealt.len() {
        let at = dealt[k];
        watch.ran(at.ticket, at.unit, &runs[k]);
    }
}

/// The root's run, which is the last.
fn last_run(runs: &[UnitRun]) -> &UnitRun
    requires { 0 < length runs.now }
    ensures { (before : List Run) (root : Run) → runs.now ≡ before ++ root ∷ []
        → result.now ≡ root }
{
    &runs[runs.len() - 1]
}

/// The answer that is read out of a query's runs.
fn answer_on(
    alloc: Global,
    prepared: &Prepared,
    ticket: u64,
    dealt: Vec<Dealt>,
    runs: Vec<UnitRun>,
) -> Result<Answered, Memory>
    requires dealt { dealt.items ≡ dealt_of ticket prepared.now.units }
    requires runs { AreRuns prepared.now ticket runs.items }
    ensures rows { IfOk result (λ answered.
        answered.rows
        ≡ mean (union prepared.now.a.tables prepared.now.b.tables) prepared.now.a.root) }
    ensures is { IfOk result (λ answered. (tape : Tape)
        → runs.items ≡ runs_of prepared.now tape ticket
        → IsAnswered prepared.now tape ticket answered) }
{
    let root = last_run(runs.as_slice());
    let rows = rows_of(alloc, prepared, ticket, root)?;
    let view_broker = broker_view(alloc, prepared, ticket, root)?;
    let view_a = site_view(alloc, prepared, Site::A, ticket, runs.as_slice())?;
    let view_b = site_view(alloc, prepared, Site::B, ticket, runs.as_slice())?;
    Ok(Answered {
        rows,
        view_a,
        view_b,
        view_broker,
        dealt,
        runs,
    })
}

/// The answer of a prepared query, which is kept.
fn kept_answer<R: Threads + Sync, D: Deal + Watch>(
    rt: &R,
    alloc: Global,
    prepared: &Prepared,
    ticket: u64,
    deal: &D,
    workers: u32,
) -> Result<Answered, Memory>
    requires { (1 ≤ workers) × (workers ≤ 16) }
    ensures rows { IfOk result (λ answered.
        answered.rows
        ≡ mean (union prepared.now.a.tables prepared.now.b.tables) prepared.now.a.root) }
    ensures dealt { IfOk result (λ answered.
        answered.dealt.items ≡ dealt_of ticket prepared.now.units) }
    ensures is { IfOk result (IsAnswered prepared.now (D.tape deal.now) ticket) }
{
    let runs = all_runs(rt, alloc, prepared, ticket, deal, workers)?;
    let dealt = prepared.dealt_sections(alloc, ticket)?;
    tell_runs(deal, dealt.as_slice(), runs.as_slice());
    answer_on(alloc, prepared, ticket, dealt, runs)
}

/// The answer of a prepared query: the rows that its plan means over the union of both sites' tables, in the plan's order, which are
/// the same for every tape; the sections that were dealt for it, one for each secure unit and for the root, in unit order; the run on
/// each of them; and what A, B and the broker see of these runs. Each section is that of this ticket and the unit's own number, and
/// the root's given words are what the halves of the secure units put out.
///
/// The secure units are run by 1 to 16 workers, and then the root by the caller's thread. A unit's section is dealt and split where
/// the unit is run. What is answered is the same for each number of workers. When the root has run, the dealer is told of each run,
/// once for each section and in the order of these.
///
/// Memory is the only error.
pub fn answer<R: Threads + Sync, D: Deal + Watch>(
    rt: &R,
    alloc: Global,
    prepared: Prepared,
    ticket: u64,
    deal: &D,
    workers: u32,
) -> Result<Answered, Memory>
    requires ticket { ticket < 2 ^ 40 }
    requires workers { (1 ≤ workers) × (workers ≤ 16) }
    ensures rows { IfOk result (λ answered.
        answered.rows ≡ mean (union prepared.a.tables prepared.b.tables) prepared.a.root) }
    ensures dealt { IfOk result (λ answered.
        answered.dealt.items ≡ dealt_of ticket prepared.units) }
    ensures is { IfOk result (IsAnswered prepared (D.tape deal.now) ticket) }
{
    kept_answer(rt, alloc, &prepared, ticket, deal, workers)
}
