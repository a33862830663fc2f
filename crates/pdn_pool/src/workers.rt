//! Workers, each of which draws numbers and runs the jobs of these numbers.
ghost use Rattle.std.specs.Prelude.{◌≡◌, ℕ, ◌≤◌, ◌<◌, ◌-◌, ◌^◌, [], ◌∷◌, ◌++◌, length, map, IfOk, All};
ghost use Rattle.pdn_base.specs.Bounds.{IsShort};
ghost use Rattle.pdn_pool.specs.Seats.{IsFresh, weight};
ghost use Rattle.pdn_pool.specs.Results.{GivenAt};
ghost use Rattle.pdn_pool.specs.Work.{IsWork};

use crate::claims::{Claims, Seat};
use crate::job::Job;
use pdn_base::Memory;
use std::alloc::Global;
use std::thread::{self, Threads};

/// What a worker did: its results with their numbers, and the number past the last job on which it ended.
#[derive(Drop)]
pub struct Worked<X> {
    pub seat: Seat,
    pub outs: Vec<(u64, X)>,
    pub last: u64,
}

/// Each seat's worker, all at once where there are threads enough.
pub fn work_all<R: Threads + Sync, J: Job>(
    rt: &R,
    alloc: Global,
    claims: &Claims,
    jobs: &[J],
    seats: Vec<Seat>,
) -> Result<Vec<Result<Worked<J::Out>, Memory>>, Memory>
    requires fresh { All (IsFresh claims.now) seats.items }
    requires weight { All (λ s. weight s ≡ 1) seats.items }
    requires few { IsShort jobs.now }
    ensures count { IfOk result (λ all. length all.items ≡ length seats.items) }
    ensures each { IfOk result (λ all. All (λ r. IfOk r (IsWork claims.now (length jobs.now)))
        all.items) }
    ensures gives { IfOk result (λ all.
        All (λ r. IfOk r (λ w. All (GivenAt J.gives jobs.now) w.outs.items)) all.items) }
{
    let all = thread::map_vec(
        rt,
        seats,
        &|seat: Seat| -> Result<Worked<J::Out>, Memory>
            requires { IsFresh claims.now seat × (weight seat ≡ 1) × IsShort jobs.now }
            ensures each { IfOk result (IsWork claims.entry.now (length jobs.entry.now)) }
            ensures gives { IfOk result (λ w. All (GivenAt J.gives jobs.entry.now) w.outs.items) }
        { work(alloc, claims, jobs, seat) },
    )?;
    Ok(all)
}

// Draws numbers and runs their jobs, until a number is past the last job.
fn work<J: Job>(
    alloc: Global,
    claims: &Claims,
    jobs: &[J],
    seat: Seat,
) -> Result<Worked<J::Out>, Memory>
    requires fresh { IsFresh claims.now seat }
    requires weight { weight seat ≡ 1 }
    requires few { IsShort jobs.now }
    ensures each { IfOk result (IsWork claims.now (length jobs.now)) }
    ensures gives { IfOk result (λ w. All (GivenAt J.gives jobs.now) w.outs.items) }
{
    let mut seat = seat;
    let mut outs = Vec::new(alloc);
    let mut number = claims.draw(&mut seat);
    while number < jobs.len() as u64 {
        let out = jobs[number as usize].run(alloc)?;
        outs.push((number, out))?;
        number = claims.draw(&mut seat);
    }
    Ok(Worked {
        seat,
        outs,
        last: number,
    })
}
