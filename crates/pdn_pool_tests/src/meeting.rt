//! Workers that meet.
use pdn_base::Memory;
use pdn_pool::{Job, run_all};
use std::alloc::Global;
use std::sync::atomic::{AtomicBool, AtomicU64, Ordering};
use std::test::Fail;

// The job of number 0 waits until the other three have set their flags, and tells whether they have.
#[derive(Drop)]
struct Meeting<'a> {
    number: usize,
    flags: &'a [AtomicBool],
}

impl<'a> Job for Meeting<'a> {
    type Out = bool;

    ghost gives = { λ _ _. Unit {0} };

    fn run(&self, _alloc: Global) -> Result<bool, Memory> {
        if self.number < self.flags.len() {
            self.flags[self.number].store(true, Ordering::SeqCst);
        }
        Ok(self.number != 0 || all_set(self.flags))
    }
}

fn all_set(flags: &[AtomicBool]) -> bool {
    for _ in 0..1_000_000_000u64 {
        if flags.iter().all(|flag| flag.load(Ordering::SeqCst)) {
            return true;
        }
    }
    false
}

#[test]
fn two_workers_meet(rt: HostRuntime) -> Result<(), Fail> {
    let flags = [
        AtomicBool::new(false),
        AtomicBool::new(false),
        AtomicBool::new(false),
        AtomicBool::new(false),
    ];
    let flags = &flags[..];
    let jobs = [
        Meeting { number: 0, flags },
        Meeting { number: 1, flags },
        Meeting { number: 2, flags },
        Meeting { number: 3, flags },
    ];
    let met = run_all(&rt, rt.alloc(), &jobs[..], 2)?;
    assert!(rt; met.as_slice() == [true, true, true, true].as_slice());
    Ok(())
}

// Of jobs that share a count, the one that is called first waits until all were called, and tells whether they were.
#[derive(Drop)]
struct Called<'a> {
    calls: &'a AtomicU64,
}

impl<'a> Job for Called<'a> {
    type Out = bool;

    ghost gives = { λ _ _. Unit {0} };

    fn run(&self, _alloc: Global) -> Result<bool, Memory> {
        let before = self.calls.fetch_add(1, Ordering::SeqCst);
        Ok(before != 0 || counts_to(self.calls, 9))
    }
}

fn counts_to(calls: &AtomicU64, all: u64) -> bool {
    for _ in 0..1_000_000_000u64 {
        if calls.load(Ordering::SeqCst) == all {
            return true;
        }
    }
    false
}

#[test]
fn the_first_job_called_sees_the_other_eight(rt: HostRuntime) -> Result<(), Fail> {
    let calls = AtomicU64::new(0);
    let mut jobs = Vec::new(rt.alloc());
    for _ in 0..9 {
        jobs.push(Called { calls: &calls })?;
    }
    if jobs.len() != 9 {
        panic!(rt; "not nine jobs");
    }
    let seen = run_all(&rt, rt.alloc(), jobs.as_slice(), 2)?;
    assert!(rt; seen.iter().all(|saw| *saw));
    Ok(())
}
