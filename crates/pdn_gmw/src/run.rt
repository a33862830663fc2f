//! The run of a circuit by two halves.
ghost use Rattle.std.specs.Prelude.{◌≡◌, ◌<◌, ◌^◌, length, OnOk, IfOk};
ghost use Rattle.pdn_base.specs.Words.{xor_lists};
ghost use Rattle.pdn_circuit.specs.Gates.{output_words};
ghost use Rattle.pdn_gmw.specs.declared.stage.Stage.TheVariants.{Ready, Sent, Over};
ghost use Rattle.pdn_gmw.specs.Steps.{frame_count, next_frame, after_take};
ghost use Rattle.pdn_gmw.specs.Pairs.{ArePair, inputs_of, run_of};

use crate::finished::Finished;
use crate::half::Half;
use crate::step::Step;
use pdn_base::{Memory, Word};
use std::alloc::Global;
use std::marker::Model;

/// Two halves of one circuit's run that have come to their end. It is made by `run_pair` alone.
#[derive(Drop)]
pub struct UnitRun {
    a: Finished,
    b: Finished,
}

impl Model for UnitRun {
    ghost use Rattle.pdn_gmw.specs.Pairs.{Run};

    ghost Value = { Run };

    ghost view = { λ r. record { a = r.a; b = r.b } };
}

impl UnitRun {
    /// What A's half finished with.
    pub fn a(&self) -> &Finished
        ensures { result.now ≡ self.now.a }
    {
        &self.a
    }

    /// What B's half finished with.
    pub fn b(&self) -> &Finished
        ensures { result.now ≡ self.now.b }
    {
        &self.b
    }
}

/// Runs A's half and B's half of one circuit and one section against each other, frame by frame. Whatever the
/// section's words, the two outputs' sum is the plain word of each output.
pub fn run_pair(alloc: Global, a: Half, b: Half) -> Result<UnitRun, Memory>
    requires { ArePair a b }
    ensures shares { IfOk result (λ run. run ≡ run_of a b) }
    ensures opens { IfOk result (λ run. xor_lists run.a.outputs run.b.outputs
        ≡ output_words (inputs_of a b) a.net) }
{
    let (mut half_a, mut half_b) = (a, b);
    let mut from_a = Vec::new(alloc);
    let mut from_b = Vec::new(alloc);
    for _ in 0..half_a.frames() {
        send(&mut half_a, &mut from_a)?;
        send(&mut half_b, &mut from_b)?;
        // B receives first: each half then goes on where its words were last in use
        receive(&mut half_b, from_a.as_slice());
        receive(&mut half_a, from_b.as_slice());
    }
    let _done = half_a.next();
    let _done = half_b.next();
    Ok(UnitRun {
        a: half_a.finish(),
        b: half_b.finish(),
    })
}

// The half's next frame.
fn send(half: &mut Half, frame: &mut Vec<Word>) -> Result<(), Memory>
    requires ready { half.old.stage ≡ Ready }
    requires more { half.old.taken < frame_count half.old.net }
    ensures half { half.new ≡ record half.old { stage = Sent } }
    ensures frame { OnOk result (frame.new.items ≡ next_frame half.old) }
{
    frame.clear();
    match half.next() {
        Step::Send(words) => frame.extend_from_slice(words)?,
        Step::Want(_) | Step::Done => {}
    }
    Ok(())
}

// The other half's frame, to one that has sent its own.
fn receive(half: &mut Half, frame: &[Word])
    requires sent { half.old.stage ≡ Sent }
    requires long { length frame.now ≡ length (next_frame half.old) }
    requires few { length frame.now < 2 ^ 32 }
    ensures { half.new ≡ after_take half.old frame.now }
{
    let _want = half.next();
    let _taken = half.take(frame);
}
