//! Lists of jobs.
use pdn_base::Memory;
use pdn_pool::{Job, run_all};
use std::alloc::Global;
use std::sync::atomic::{AtomicU64, Ordering};
use std::test::Fail;

// Squares its number, and counts its runs.
#[derive(Drop)]
struct Square {
    number: u32,
    runs: AtomicU64,
}

impl Job for Square {
    type Out = u64;

    ghost gives = { λ _ _. Unit {0} };

    fn run(&self, _alloc: Global) -> Result<u64, Memory> {
        self.runs.fetch_add(1, Ordering::SeqCst);
        Ok(u64::from(self.number) * u64::from(self.number))
    }
}

fn squares(alloc: Global, count: u32) -> Result<Vec<Square>, Memory> {
    let mut jobs = Vec::new(alloc);
    for number in 0..count {
        jobs.push(Square {
            number,
            runs: AtomicU64::new(0),
        })?;
    }
    Ok(jobs)
}

fn are_squares(outs: &[u64]) -> bool {
    for (place, out) in outs.iter().enumerate() {
        if place >= 65536 || *out != (place * place) as u64 {
            return false;
        }
    }
    true
}

#[test]
fn each_job_is_run_once_and_its_result_stands_in_its_place(rt: HostRuntime) -> Result<(), Fail> {
    let table = [(0, 1), (0, 2), (1, 1), (1, 16), (9, 2), (64, 4), (100, 16)];
    for (count, workers) in table {
        let jobs = squares(rt.alloc(), count)?;
        if jobs.len() > 100 {
            panic!(rt; "more jobs than {count}");
        }
        let outs = run_all(&rt, rt.alloc(), jobs.as_slice(), workers)?;
        assert_eq!(rt; outs.len(), count as usize);
        assert!(rt; are_squares(outs.as_slice()), "{count} jobs by {workers}");
        assert!(rt; jobs.iter().all(|job| job.runs.load(Ordering::SeqCst) == 1));
    }
    Ok(())
}

// A job that finds no memory where it is told so.
#[derive(Drop)]
struct Wanting {
    wants: bool,
}

impl Job for Wanting {
    type Out = ();

    ghost gives = { λ _ _. Unit {0} };

    fn run(&self, _alloc: Global) -> Result<(), Memory> {
        if self.wants { Err(Memory) } else { Ok(()) }
    }
}

#[test]
fn one_job_without_memory_is_want_of_memory(rt: HostRuntime) -> Result<(), Fail> {
    for workers in 1..3u32 {
        let jobs = [
            Wanting { wants: false },
            Wanting { wants: true },
            Wanting { wants: false },
        ];
        let outs = run_all(&rt, rt.alloc(), &jobs[..], workers);
        assert!(rt; matches!(outs, Err(Memory)), "{workers} workers");
    }
    Ok(())
}
