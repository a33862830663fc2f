//! A prepared query's run in two worlds.
ghost use Rattle.std.specs.Prelude.{◌≡◌, ◌≤◌, ◌<◌, ◌^◌, ◌++◌, [], ◌∷◌, length, cond, IfOk, OnOk};
ghost use Rattle.pdn_broker.specs.Running.{unit_at};
ghost use Rattle.pdn_broker.specs.Units.{is_secure};
ghost use Rattle.pdn_worlds.specs.TwoWorlds.{AreWorlds};
ghost use Rattle.pdn_twin.specs.Twins.{
  IsTwin,
  AreShapedAlike,
  SeesTheSame,
  GivesBack,
  KeepsTheRest,
  KeepsLengths,
};
ghost use Rattle.pdn_twin.specs.UnitTwins.{secure_twin, secure_twins, root_twin, root_start};
ghost use Rattle.pdn_twin.specs.TwinRuns.{AreSecureRuns, AreTwinRuns};

use crate::runs::{Runs, by_world, outputs_of};
use crate::starts::{Start, Starts};
use crate::twin_job::TwinJob;
use crate::twins::{Twin, Worlds};
use crate::unit_twin::{UnitTwin, twin_on};
use pdn_base::Memory;
use pdn_broker::{Dealt, Prepared, site_view};
use pdn_dealer::{Deal, section_len};
use pdn_gmw::UnitRun;
use pdn_pool::run_all;
use std::alloc::Global;
use std::thread::Threads;

/// Adds the job of a unit, where it is a secure one.
fn push_job<'a, D: Deal>(
    jobs: &mut Vec<TwinJob<'a, D>>,
    worlds: &'a Worlds,
    at: Dealt,
    deal: &'a D,
) -> Result<(), Memory>
    requires same { worlds.now.second.units ≡ worlds.now.first.units }
    requires in_range { at.unit < length worlds.now.first.units }
    ensures { OnOk result (jobs.new.items
        ≡ jobs.old.items ++ cond (is_secure (unit_at worlds.now.first at.unit).kind)
        (secure_twin worlds.now.site worlds.now.first worlds.now.second
        (D.tape deal.now) at.ticket at.unit ∷ []) []) }
{
    if worlds.first.is_secure(at.unit) {
        jobs.push(TwinJob { worlds, at, deal })?;
    }
    Ok(())
}

/// The jobs of the secure units, in unit order, each on the section of this ticket and its own number.
fn secure_jobs<'a, D: Deal>(
    alloc: Global,
    worlds: &'a Worlds,
    ticket: u64,
    deal: &'a D,
) -> Result<Vec<TwinJob<'a, D>>, Memory>
    requires { worlds.now.second.units ≡ worlds.now.first.units }
    ensures { IfOk result (λ jobs. jobs.items
        ≡ secure_twins worlds.now.site worlds.now.first worlds.now.second
        (D.tape deal.now) ticket) }
{
    let mut jobs = Vec::new(alloc);
    for unit in 0..worlds.first.units() {
        push_job(&mut jobs, worlds, Dealt { ticket, unit }, deal)?;
    }
    Ok(jobs)
}

/// Runs the secure units in both worlds by these workers.
fn secure_twins<R: Threads + Sync, D: Deal>(
    rt: &R,
    alloc: Global,
    worlds: &Worlds,
    ticket: u64,
    deal: &D,
    workers: u32,
) -> Result<Vec<UnitTwin>, Memory>
    requires alike { AreWorlds worlds.now.site worlds.now.first worlds.now.second }
    requires workers { (1 ≤ workers) × (workers ≤ 16) }
    ensures { IfOk result (λ twins. twins.items
        ≡ secure_twins worlds.now.site worlds.now.first worlds.now.second
        (D.tape deal.now) ticket) }
{
    let jobs = secure_jobs(alloc, worlds, ticket, deal)?;
    // More jobs than their numbers can tell.
    if jobs.len() >= u32::MAX as usize {
        return Err(Memory);
    }
    run_all(rt, alloc, jobs.as_slice(), workers)
}

/// What the root begins with in a world, after these runs of the secure units.
fn root_start(alloc: Global, prepared: &Prepared, runs: &[UnitRun]) -> Result<Start, Memory>
    ensures { IfOk result (λ start. start ≡ root_start prepared.now runs.now) }
{
    Ok(Start {
        own: prepared.root_words(alloc)?,
        given: outputs_of(alloc, runs)?,
    })
}

/// Runs the root in both worlds, in the first on the section of this ticket and its own number, in the second on its change.
fn root_twin<D: Deal>(
    alloc: Global,
    worlds: &Worlds,
    runs: &Runs,
    ticket: u64,
    deal: &D,
) -> Result<UnitTwin, Memory>
    requires alike { AreWorlds worlds.now.site worlds.now.first worlds.now.second }
    requires runs { AreSecureRuns worlds.now.site worlds.now.first worlds.now.second
        (D.tape deal.now) ticket runs.now }
    ensures { IfOk result (λ twin. twin
        ≡ root_twin worlds.now.site worlds.now.first worlds.now.second (D.tape deal.now) ticket) }
{
    let unit = worlds.first.units() - 1;
    let first = root_start(alloc, &worlds.first, runs.first.as_slice())?;
    let second = root_start(alloc, &worlds.second, runs.second.as_slice())?;
    let net = worlds.first.circuit(unit);
    let section = deal.section(alloc, ticket, unit, section_len(net))?;
    let starts = Starts { first, second };
    twin_on(alloc, worlds.site, net, unit, starts, section)
}

/// The runs of all units, with the root's at the end.
fn all_runs<R: Threads + Sync, D: Deal>(
    rt: &R,
    alloc: Global,
    worlds: &Worlds,
    ticket: u64,
    deal: &D,
    workers: u32,
) -> Result<Runs, Memory>
    requires alike { AreWorlds worlds.now.site worlds.now.first worlds.now.second }
    requires workers { (1 ≤ workers) × (workers ≤ 16) }
    ensures { IfOk result (AreTwinRuns worlds.now.site worlds.now.first worlds.now.second
        (D.tape deal.now) ticket) }
{
    let twins = secure_twins(rt, alloc, worlds, ticket, deal, workers)?;
    let mut runs = by_world(alloc, twins)?;
    let root = root_twin(alloc, worlds, &runs, ticket, deal)?;
    runs.push(root)?;
    Ok(runs)
}

/// The run of a query in two worlds, which are kept.
fn kept_twin<R: Threads + Sync, D: Deal>(
    rt: &R,
    alloc: Global,
    worlds: &Worlds,
    ticket: u64,
    deal: &D,
    workers: u32,
) -> Result<Twin, Memory>
    requires alike { AreWorlds worlds.now.site worlds.now.first worlds.now.second }
    requires workers { (1 ≤ workers) × (workers ≤ 16) }
    ensures { IfOk result (IsTwin worlds.now.site worlds.now.first worlds.now.second
        (D.tape deal.now) ticket) }
{
    let runs = all_runs(rt, alloc, worlds, ticket, deal, workers)?;
    let site = worlds.site;
    let first = site_view(alloc, &worlds.first, site, ticket, runs.first.as_slice())?;
    let second = site_view(alloc, &worlds.second, site, ticket, runs.second.as_slice())?;
    Ok(Twin {
        first,
        second,
        changed: runs.changed,
    })
}

/// Runs a prepared query in two worlds that the site can't tell apart: in the first on the sections that are dealt for this ticket,
/// in the second on their change, which is the one of `pdn_shift` for each unit. It gives the site's view in each, which are equal,
/// and for each section the places at which the change alters a word. Each section is dealt once, and the two worlds of a unit are
/// run in one job.
///
/// All that isn't a row is the same in both worlds: the directories, and the units with their circuits. Whatever the tape, the site
/// sees in the second world on the changed tape what it sees in the first. The change is one to one: made from the second world to the
/// first, after it, it gives each word back. It alters no word outside the sections of this ticket, and each section keeps its length.
/// This is promised whatever the answer, Memory too.
///
/// The worlds are one query, made ready over two unions that agree for the site: the site's own tables are equal, and each public
/// column of the other site has the same set of values. At most one of them is real. The call sees both, and the whole tape: it is
/// for an operator who wants to see that a site's view doesn't tell them apart, and neither run goes to a site.
///
/// Memory is the only error.
pub fn twin<R: Threads + Sync, D: Deal>(
    rt: &R,
    alloc: Global,
    worlds: Worlds,
    ticket: u64,
    deal: &D,
    workers: u32,
) -> Result<Twin, Memory>
    requires alike { AreWorlds worlds.site worlds.first worlds.second }
    requires ticket { ticket < 2 ^ 40 }
    requires workers { (1 ≤ workers) × (workers ≤ 16) }
    ensures is { IfOk result
        (IsTwin worlds.site worlds.first worlds.second (D.tape deal.now) ticket) }
    ensures shapes { AreShapedAlike worlds.first worlds.second }
    ensures same { SeesTheSame worlds.site worlds.first worlds.second ticket }
    ensures back { GivesBack worlds.site worlds.first worlds.second ticket }
    ensures others { KeepsTheRest worlds.site worlds.first worlds.second ticket }
    ensures lengths { KeepsLengths worlds.site worlds.first worlds.second ticket }
{
    kept_twin(rt, alloc, &worlds, ticket, deal, workers)
}
