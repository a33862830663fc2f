//! One And gate in two worlds, on a section and on its change.
ghost use Rattle.std.specs.Prelude.{◌≡◌, length, IfOk, IsTrue};
ghost use Rattle.pdn_base.specs.declared.site.Site.TheVariants.{A, B};
ghost use Rattle.pdn_circuit.specs.Gates.{input_count, given_count};

use crate::runs::{SECTION, deal_words, halves, one_and, words};
use pdn_base::{Memory, Site, Word};
use pdn_circuit::{Circuit, Inputs};
use pdn_dealer::section_len;
use pdn_gmw::{Finished, run_pair};
use pdn_shift::shift;
use std::alloc::Global;
use std::test::Fail;

// The words of A and of B in the first world.
const FIRST: (u64, u64) = (0xf0, 0x3c);

// A site, both words in a second world that is the same for it, and the section's change.
const CASES: [(Site, (u64, u64), [u64; 8]); 2] = [
    (
        Site::A,
        (0xf0, 0x00),
        [0x0f, 0x33, 0x55, 0x0f, 0x33, 0xc3, 0xaa, 0x01],
    ),
    (
        Site::B,
        (0x00, 0x3c),
        [0x0f, 0x33, 0xa5, 0x0f, 0x33, 0xff, 0x6a, 0x01],
    ),
];

fn are(words: &[Word], numbers: &[u64]) -> bool {
    words.len() == numbers.len()
        && words
            .iter()
            .zip(numbers)
            .all(|(word, number)| word.to_u64() == *number)
}

fn inputs(alloc: Global, of_both: (u64, u64)) -> Result<Inputs, Memory>
    ensures a { IfOk result (λ inputs. length inputs.a ≡ 1) }
    ensures b { IfOk result (λ inputs. length inputs.b ≡ 1) }
    ensures given { IfOk result (λ inputs. length inputs.given ≡ 0) }
{
    let a = words(alloc, &[of_both.0])?;
    let b = words(alloc, &[of_both.1])?;
    let given = Vec::new(alloc);
    Ok(Inputs { a, b, given })
}

fn takes_one_each(circuit: &Circuit) -> bool
    ensures a { IsTrue result → input_count A circuit.now.gates ≡ 1 }
    ensures b { IsTrue result → input_count B circuit.now.gates ≡ 1 }
    ensures given { IsTrue result → given_count circuit.now.gates ≡ 0 }
{
    let (a, b) = (circuit.input_count(Site::A), circuit.input_count(Site::B));
    let given = circuit.given_count();
    a == 1 && b == 1 && given == 0
}

// The section's change from one world's words to another's; no words where the section doesn't fit
// the circuit.
fn shifted(
    alloc: Global,
    circuit: &Circuit,
    site: Site,
    first: (u64, u64),
    second: (u64, u64),
    section: &[Word],
) -> Result<Vec<Word>, Memory> {
    let first = inputs(alloc, first)?;
    let second = inputs(alloc, second)?;
    if takes_one_each(circuit) && section.len() as u64 == section_len(circuit) {
        shift(alloc, site, circuit, &first, &second, section)
    } else {
        Ok(Vec::new(alloc))
    }
}

// The r words, the triple, the two words received, the mask and the output.
fn numbers_of(finished: &Finished) -> Option<[u64; 9]> {
    let view = finished.view();
    let gate = view.gates.first()?;
    Some([
        view.own.first()?.to_u64(),
        view.other.first()?.to_u64(),
        gate.a.to_u64(),
        gate.b.to_u64(),
        gate.c.to_u64(),
        gate.d.to_u64(),
        gate.e.to_u64(),
        view.masks.first()?.to_u64(),
        finished.outputs().first()?.to_u64(),
    ])
}

// What a site sees and puts out on a section, where A and B have these words.
fn seen(
    alloc: Global,
    circuit: &Circuit,
    site: Site,
    of_both: (u64, u64),
    section: &[u64],
) -> Result<Option<[u64; 9]>, Fail> {
    if !takes_one_each(circuit) {
        return Ok(None);
    }
    let deal = deal_words(alloc, section)?;
    let (a, b) = halves(alloc, circuit, &deal, &[of_both.0], &[of_both.1])?;
    let run = run_pair(alloc, a, b)?;
    Ok(match site {
        Site::A => numbers_of(run.a()),
        Site::B => numbers_of(run.b()),
    })
}

#[test]
fn the_change_of_one_and_gate_is_as_by_hand_and_is_undone(rt: HostRuntime) -> Result<(), Fail> {
    let alloc = rt.alloc();
    let circuit = one_and(alloc)?;
    let section = words(alloc, &SECTION)?;
    for (site, second, expected) in CASES {
        let changed = shifted(alloc, &circuit, site, FIRST, second, &section)?;
        assert!(rt; are(&changed, &expected));
        let back = shifted(alloc, &circuit, site, second, FIRST, &changed)?;
        assert!(rt; are(&back, &SECTION));
    }
    Ok(())
}

#[test]
fn a_site_sees_the_same_of_one_and_gate_in_both_worlds(rt: HostRuntime) -> Result<(), Fail> {
    let alloc = rt.alloc();
    let circuit = one_and(alloc)?;
    let expected = [
        Some([0x0f, 0x33, 0x55, 0x33, 0xaa, 0x00, 0xf0, 0x01, 0x79]),
        Some([0x33, 0x0f, 0x0f, 0xff, 0xe2, 0xaa, 0x00, 0x01, 0x49]),
    ];
    for ((site, second, changed), view) in CASES.into_iter().zip(expected) {
        assert_eq!(rt; seen(alloc, &circuit, site, FIRST, &SECTION)?, view);
        assert_eq!(rt; seen(alloc, &circuit, site, second, &changed)?, view);
    }
    Ok(())
}
