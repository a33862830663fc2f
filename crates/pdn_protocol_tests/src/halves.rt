//! One And gate by two halves, frame by frame and at once.
ghost use Rattle.std.specs.Prelude.{◌≡◌, length, IfOk, IsTrue};
ghost use Rattle.pdn_gmw.specs.declared.stage.Stage.TheVariants.{Wanting, Over};
ghost use Rattle.pdn_base.specs.declared.site.Site.TheVariants.{A, B};
ghost use Rattle.pdn_circuit.specs.Gates.{input_count, given_count};
ghost use Rattle.pdn_gmw.specs.Pairs.{ArePair};

use crate::runs::{SECTION, deal_words, halves, one_and, words};
use pdn_base::{Memory, Site, Word};
use pdn_circuit::{Builder, Circuit};
use pdn_dealer::{ChaChaDeal, Deal, ListDeal};
use pdn_gmw::{FrameErr, Half, Step, UnitView, run_pair};
use std::alloc::Global;
use std::test::Fail;

// What both halves of one And gate put out.
fn outputs<D: Deal>(alloc: Global, circuit: &Circuit, deal: &D) -> Result<(u64, u64), Fail> {
    let counted = circuit.input_count(Site::A) == 1 && circuit.input_count(Site::B) == 1;
    if !counted || circuit.given_count() != 0 {
        return Ok((0, 0));
    }
    let (half_a, half_b) = halves(alloc, circuit, deal, &[0xf0], &[0x3c])?;
    let run = run_pair(alloc, half_a, half_b)?;
    Ok((first(run.a().outputs()), first(run.b().outputs())))
}

fn first(words: &[Word]) -> u64 {
    match words {
        [word, ..] => word.to_u64(),
        [] => 0,
    }
}

fn sends(half: &mut Half, expected: &[u64]) -> bool {
    match half.next() {
        Step::Send(frame) => {
            frame.len() == expected.len()
                && frame
                    .iter()
                    .zip(expected)
                    .all(|(word, number)| word.to_u64() == *number)
        }
        _ => false,
    }
}

fn wants_two(half: &mut Half) -> bool
    ensures { IsTrue result → half.new.stage ≡ Wanting }
{
    match half.next() {
        Step::Want(2) => true,
        _ => false,
    }
}

fn is_done(half: &mut Half) -> bool
    ensures { IsTrue result → half.new.stage ≡ Over }
{
    match half.next() {
        Step::Done => true,
        _ => false,
    }
}

// A's or B's triple of the one And gate, and the two words that it received.
fn numbers_of(view: &UnitView) -> Option<(u64, u64, u64, u64, u64)> {
    let gate = view.gates.first()?;
    Some((
        gate.a.to_u64(),
        gate.b.to_u64(),
        gate.c.to_u64(),
        gate.d.to_u64(),
        gate.e.to_u64(),
    ))
}

// A word of A and a word of B in two And gates side by side or one above the other, or in none.
#[derive(Clone, Copy)]
enum Form {
    Sum,
    Side,
    Chain,
}

fn circuit_of(alloc: Global, form: Form) -> Result<Circuit, Fail> {
    let mut builder = Builder::new(alloc, 2, 10)?;
    let x = builder.input(Site::A)?;
    let y = builder.input(Site::B)?;
    let last = match form {
        Form::Sum => builder.xor(x, y)?,
        Form::Side => {
            let _first = builder.and(x, y)?;
            builder.and(y, x)?
        }
        Form::Chain => {
            let first = builder.and(x, y)?;
            builder.and(first, y)?
        }
    };
    Ok(builder.finish(vec![in alloc; last]?, false))
}

fn waits(half: &mut Half) -> bool
    ensures { IsTrue result → half.new.stage ≡ Wanting }
{
    match half.next() {
        Step::Want(_) => true,
        _ => false,
    }
}

// How many frames a half sends, and how many words in all, where the other side's words are zeros.
fn frames_of(alloc: Global, half: &mut Half) -> Result<(usize, usize), Fail> {
    let (mut count, mut total) = (0usize, 0usize);
    for _ in 0..100 {
        let sent = match half.next() {
            Step::Send(frame) => frame.len(),
            _ => return Ok((count, total)),
        };
        count = count.saturating_add(1);
        total = total.saturating_add(sent);
        // no frame of these circuits is so long
        if sent >= 1_000 || !waits(half) {
            return Ok((0, 0));
        }
        let zeros = vec![in alloc; Word::from_u64(0); sent]?;
        if half.take(zeros.as_slice()).is_err() {
            return Ok((0, 0));
        }
    }
    Ok((count, total))
}

#[test]
fn and_gates_of_one_depth_share_a_frame(rt: HostRuntime) -> Result<(), Fail> {
    let alloc = rt.alloc();
    let deal = ListDeal::new(Vec::new(alloc));
    for (form, frames) in [
        (Form::Sum, (0, 0)),
        (Form::Side, (1, 4)),
        (Form::Chain, (2, 4)),
    ] {
        let circuit = circuit_of(alloc, form)?;
        assert!(rt; circuit.input_count(Site::A) == 1 && circuit.input_count(Site::B) == 1);
        assert!(rt; circuit.given_count() == 0);
        let (mut half_a, mut half_b) = halves(alloc, &circuit, &deal, &[0xf0], &[0x3c])?;
        assert_eq!(rt; frames_of(alloc, &mut half_a)?, frames);
        assert_eq!(rt; frames_of(alloc, &mut half_b)?, frames);
    }
    Ok(())
}

#[test]
fn a_short_frame_is_refused_and_the_right_one_still_taken(rt: HostRuntime) -> Result<(), Fail> {
    let alloc = rt.alloc();
    let circuit = one_and(alloc)?;
    let deal = deal_words(alloc, &SECTION)?;
    assert!(rt; circuit.input_count(Site::A) == 1 && circuit.input_count(Site::B) == 1);
    assert!(rt; circuit.given_count() == 0);
    let (mut half_a, mut half_b) = halves(alloc, &circuit, &deal, &[0xf0], &[0x3c])?;
    assert!(rt; sends(&mut half_a, &[0xaa, 0x00]));
    assert!(rt; sends(&mut half_b, &[0x00, 0xf0]));
    assert!(rt; wants_two(&mut half_a));
    let short = words(alloc, &[0x00])?;
    match half_a.take(short.as_slice()) {
        Ok(()) => assert!(rt; false),
        Err(FrameErr::Length { got, want }) => {
            assert_eq!(rt; got, 1);
            assert_eq!(rt; want, 2);
            let frame = words(alloc, &[0x00, 0xf0])?;
            assert!(rt; half_a.take(frame.as_slice()).is_ok());
            assert!(rt; is_done(&mut half_a));
            let finished = half_a.finish();
            assert_eq!(rt; finished.outputs(), [Word::from_u64(0x79)].as_slice());
            let seen = finished.view();
            assert_eq!(rt; first(seen.own.as_slice()), 0x0f);
            assert_eq!(rt; first(seen.other.as_slice()), 0x33);
            assert_eq!(rt; first(seen.masks.as_slice()), 0x01);
            assert_eq!(rt; numbers_of(seen), Some((0x55, 0x33, 0xaa, 0x00, 0xf0)));
        }
    }
    Ok(())
}

#[test]
fn one_and_gate_is_as_by_hand_and_its_sum_the_same_for_every_tape(
    rt: HostRuntime,
) -> Result<(), Fail> {
    let alloc = rt.alloc();
    let circuit = one_and(alloc)?;
    let by_hand = outputs(alloc, &circuit, &deal_words(alloc, &SECTION)?)?;
    assert_eq!(rt; by_hand, (0x79, 0x49));
    for words in [[0; 8], [u64::MAX; 8]] {
        let (a, b) = outputs(alloc, &circuit, &deal_words(alloc, &words)?)?;
        assert_eq!(rt; a ^ b, 0x30);
    }
    let (a, b) = outputs(alloc, &circuit, &ChaChaDeal::new([5; 32]))?;
    assert_eq!(rt; a ^ b, 0x30);
    Ok(())
}
