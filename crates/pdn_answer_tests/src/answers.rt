//! A unit's run, worked out by hand.
ghost use Rattle.std.specs.Prelude.{IsTrue};
ghost use Rattle.pdn_broker.specs.Answering.{nothing_given};
ghost use Rattle.pdn_broker.specs.Runs.{Takes};

use pdn_base::{Site, Word};
use pdn_broker::{Dealt, Shares, run_unit};
use pdn_circuit::{Builder, Circuit};
use pdn_dealer::ListDeal;
use std::alloc::Global;
use std::test::Fail;

fn words(alloc: Global, numbers: &[u64]) -> Result<Vec<Word>, Fail> {
    let words = numbers.iter().map(|n| Word::from_u64(*n)).collect(alloc)?;
    Ok(words)
}

fn first(words: &[Word]) -> u64 {
    match words {
        [word, ..] => word.to_u64(),
        [] => 0,
    }
}

fn takes(circuit: &Circuit, a: &[Word], b: &[Word]) -> bool
    ensures { IsTrue result
        → Takes circuit.now (record { a = a.now; b = b.now }) nothing_given }
{
    circuit.input_count(Site::A) == a.len()
        && circuit.input_count(Site::B) == b.len()
        && circuit.given_count() == 0
}

// What both halves put out first, on the section of ticket 7 and unit 2.
fn outputs(alloc: Global, circuit: &Circuit, deal: &ListDeal) -> Result<(u64, u64), Fail> {
    let a = words(alloc, &[0xf0])?;
    let b = words(alloc, &[0x3c])?;
    if !takes(circuit, a.as_slice(), b.as_slice()) {
        return Ok((0, 0));
    }
    let own = Shares { a, b };
    let at = Dealt { ticket: 7, unit: 2 };
    let run = run_unit(alloc, circuit, own, Shares::new(alloc), deal, at)?;
    Ok((first(run.a().outputs()), first(run.b().outputs())))
}

// r of both inputs, then a0, a1, b0, b1, c0, then the mask.
const SECTION: [u64; 8] = [0x0f, 0x33, 0x55, 0x0f, 0x33, 0xff, 0xaa, 0x01];

#[test]
fn two_halves_put_out_shares_of_an_and_by_hand(rt: HostRuntime) -> Result<(), Fail> {
    let alloc = rt.alloc();
    // one And gate of a word of A and a word of B
    let mut builder = Builder::new(alloc, 1, 10)?;
    let x = builder.input(Site::A)?;
    let y = builder.input(Site::B)?;
    let z = builder.and(x, y)?;
    let circuit = builder.finish(vec![in alloc; z]?, true);
    let mut entries = Vec::new(alloc);
    entries.push((7, 2, words(alloc, &SECTION)?))?;
    let deal = ListDeal::new(entries);
    let (a, b) = outputs(alloc, &circuit, &deal)?;
    assert_eq!(rt; a, 0x79);
    assert_eq!(rt; b, 0x49);
    Ok(())
}
