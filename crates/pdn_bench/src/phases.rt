//! The phases of a circuit's run, each with the processor time that it took.
ghost use Rattle.std.specs.Prelude.{◌≡◌, length, IfOk};

use crate::stop::Stop;
use pdn_base::{Site, Word};
use pdn_circuit::{Circuit, Inputs, eval};
use pdn_dealer::{ChaChaDeal, Deal, section_len};
use pdn_gmw::{Half, Schedule, run_pair};
use std::alloc::Global;
use std::time::CpuClock;

/// Nanoseconds of each phase, of a circuit with so many And gates.
#[derive(Clone, Copy, Debug)]
pub struct Row {
    pub ands: u64,
    /// The section's words from the key stream.
    pub deal: u64,
    /// Both parts of the section.
    pub split: u64,
    /// The circuit's schedule, which both halves read: the gates by depth.
    pub order: u64,
    /// Both halves begun: their views, and the shares of depth 0.
    pub new: u64,
    /// Both halves to their end: frames, shares, views and outputs.
    pub run: u64,
    /// The plain words.
    pub eval: u64,
}

impl Row {
    /// Picoseconds for each And gate.
    pub fn each(&self, nanos: u64) -> u64 {
        nanos.saturating_mul(1000) / self.ands.max(1)
    }

    /// All that a unit's run takes.
    pub fn unit(&self) -> u64 {
        self.deal
            .saturating_add(self.split)
            .saturating_add(self.order)
            .saturating_add(self.new)
            .saturating_add(self.run)
    }

    /// Thousands of And words a second, of both halves' run alone.
    pub fn rate(&self) -> u64 {
        self.ands.saturating_mul(1_000_000) / self.run.max(1)
    }
}

/// One run of the circuit on words of zeros.
pub fn measure(rt: &impl CpuClock, alloc: Global, circuit: &Circuit) -> Result<Row, Stop> {
    let own_a = zeros(alloc, circuit.input_count(Site::A))?;
    let own_b = zeros(alloc, circuit.input_count(Site::B))?;
    let given_a = zeros(alloc, circuit.given_count())?;
    let given_b = zeros(alloc, circuit.given_count())?;
    let eval = eval_time(rt, alloc, circuit)?;
    let deal = ChaChaDeal::new([7; 32]);
    let t0 = now(rt)?;
    let section = deal.section(alloc, 1, 1, section_len(circuit))?;
    let t1 = now(rt)?;
    let (part_a, part_b) = section.split(alloc, circuit)?;
    let t2 = now(rt)?;
    let schedule = Schedule::new(alloc, circuit)?;
    let t3 = now(rt)?;
    let a = Half::on(alloc, &schedule, Site::A, own_a, given_a, part_a)?;
    let b = Half::on(alloc, &schedule, Site::B, own_b, given_b, part_b)?;
    let t4 = now(rt)?;
    let run = run_pair(alloc, a, b)?;
    let t5 = now(rt)?;
    Ok(Row {
        ands: run.a().view().gates.len() as u64,
        deal: t1.saturating_sub(t0),
        split: t2.saturating_sub(t1),
        order: t3.saturating_sub(t2),
        new: t4.saturating_sub(t3),
        run: t5.saturating_sub(t4),
        eval,
    })
}

fn eval_time(rt: &impl CpuClock, alloc: Global, circuit: &Circuit) -> Result<u64, Stop> {
    let inputs = Inputs {
        a: zeros(alloc, circuit.input_count(Site::A))?,
        b: zeros(alloc, circuit.input_count(Site::B))?,
        given: zeros(alloc, circuit.given_count())?,
    };
    let start = now(rt)?;
    let _words = eval(alloc, circuit, &inputs)?;
    Ok(now(rt)?.saturating_sub(start))
}

fn zeros(alloc: Global, count: usize) -> Result<Vec<Word>, Stop>
    ensures { IfOk result (λ words. length words.items ≡ count) }
{
    Ok(vec![in alloc; Word::from_u64(0); count]?)
}

/// Nanoseconds of processor time so far.
pub fn now(rt: &impl CpuClock) -> Result<u64, Stop> {
    let nanos = rt.thread_cpu_time()?.as_nanos();
    Ok(u64::try_from(nanos).unwrap_or(u64::MAX))
}
