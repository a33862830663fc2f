//! All jobs' results, in the order of the jobs.
ghost use Rattle.std.specs.Prelude.{◌≡◌, ℕ, ◌+◌, ◌≤◌, ◌<◌, length, IfOk, All};
ghost use Rattle.pdn_base.specs.Bounds.{IsShort};
ghost use Rattle.pdn_pool.specs.Seats.{IsFresh, weight};
ghost use Rattle.pdn_pool.specs.Results.{EachGives, GivenAt};
ghost use Rattle.pdn_pool.specs.Work.{IsWork};

use crate::claims::{Claims, Seat};
use crate::job::Job;
use crate::joined::Joined;
use crate::places::{empty_places, place, results};
use crate::workers::{Worked, work_all};
use pdn_base::Memory;
use std::alloc::Global;
use std::thread::Threads;

/// Runs the jobs by 1 to 16 workers, each of which draws the number of its next job, and gives the jobs' results in
/// the order of the jobs, however the draws fell: the result at each place is one that the job at that place gives.
pub fn run_all<R: Threads + Sync, J: Job>(
    rt: &R,
    alloc: Global,
    jobs: &[J],
    workers: u32,
) -> Result<Vec<J::Out>, Memory>
    requires workers { (1 ≤ workers) × (workers ≤ 16) }
    requires few { IsShort jobs.now }
    ensures count { IfOk result (λ outs. length outs.items ≡ length jobs.now) }
    ensures each { IfOk result (λ outs. EachGives J.gives jobs.now outs.items) }
{
    let (claims, first, seats) = Claims::crew(alloc, workers)?;
    let all = work_all(rt, alloc, &claims, jobs, seats)?;
    gather(alloc, &claims, first, jobs, all)
}

// Joins all seats into the first, which shows that each job's number was drawn, and lays the results in their places.
fn gather<J: Job>(
    alloc: Global,
    claims: &Claims,
    first: Seat,
    jobs: &[J],
    all: Vec<Result<Worked<J::Out>, Memory>>,
) -> Result<Vec<J::Out>, Memory>
    requires first { IsFresh claims.now first × (weight first + length all.items ≡ 65535) }
    requires some { 1 ≤ length all.items }
    requires each { All (λ r. IfOk r (IsWork claims.now (length jobs.now))) all.items }
    requires gives { All (λ r. IfOk r (λ w. All (GivenAt J.gives jobs.now) w.outs.items))
        all.items }
    ensures count { IfOk result (λ outs. length outs.items ≡ length jobs.now) }
    ensures each { IfOk result (λ outs. EachGives J.gives jobs.now outs.items) }
{
    let mut places = empty_places(alloc, jobs.len())?;
    let mut joined = Joined::new(first);
    for worked in all {
        let Worked {
            seat,
            outs,
            last: _,
        } = worked?;
        joined.join(claims, seat);
        place(&mut places, outs);
    }
    joined.word(claims);
    results(alloc, places)
}
