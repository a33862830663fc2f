//! Sections of the tape, and their split.
ghost use Rattle.std.specs.Prelude.{◌≡◌, ◌+◌, ◌*◌, ◌≤◌, ◌^◌, ◌<◌, ℕ, List, length, IfOk, map, take, drop};
ghost use Rattle.std.specs.List.{count_by};
ghost use Rattle.pdn_base.specs.declared.site.Site.TheVariants.{A, B};
ghost use Rattle.pdn_circuit.specs.Gates.{is_input, is_and};
ghost use Rattle.pdn_dealer.specs.Sections.{
  r_count,
  five_count,
  mask_count,
  section_length,
  LayoutLaw,
  layout_of,
  part_of,
  triple_of,
  five_of,
  fives_of,
};

use crate::{Part, Triple};
use pdn_base::{Memory, Site, Word};
use pdn_circuit::{Circuit, Gate};
use std::alloc::Global;
use std::marker::Model;

/// Words of the tape that serve one unit's run. They can't be copied, and `split` uses them up.
#[derive(Drop)]
pub struct Section {
    words: Vec<Word>,
}

impl Model for Section {
    ghost use Rattle.std.specs.Prelude.{ℕ, List};

    ghost Value = { List ℕ };

    ghost view = { λ s. s.words.items };
}

/// How many words the circuit needs: one for each Input gate, five for each And gate, and one for each output
/// where the circuit is released.
pub fn section_len(circuit: &Circuit) -> u64
    ensures { result ≡ section_length circuit.now }
{
    let inputs = input_gates(circuit);
    let ands = and_gates(circuit);
    (inputs + 5 * ands + mask_words(circuit)) as u64
}

/// A section of that many words has each of them in one place of its layout, and no place is left.
pub fn sections_are_laid_out()
    ensures { LayoutLaw }
{}

fn input_gates(circuit: &Circuit) -> usize
    ensures count { result ≡ r_count circuit.now }
    ensures few { result ≤ 16777216 }
{
    circuit
        .gates
        .iter()
        .filter(|gate| matches!(gate, Gate::Input { .. }))
        .count()
}

fn and_gates(circuit: &Circuit) -> usize
    ensures count { result ≡ five_count circuit.now }
    ensures few { result ≤ 16777216 }
{
    count_ands(&circuit.gates)
}

fn count_ands(gates: &[Gate]) -> usize
    ensures count { result ≡ count_by is_and gates.now }
    ensures few { result ≤ length gates.now }
{
    gates
        .iter()
        .filter(|gate| matches!(gate, Gate::And { .. }))
        .count()
}

fn mask_words(circuit: &Circuit) -> usize
    ensures count { result ≡ mask_count circuit.now }
    ensures few { result ≤ 16777216 }
{
    if circuit.released {
        circuit.outputs.len()
    } else {
        0
    }
}

impl Section {
    pub(crate) fn from_words(words: Vec<Word>) -> Section
        ensures { result ≡ words.items }
    {
        Section { words }
    }

    /// The words in their order.
    pub fn words(&self) -> &[Word]
        ensures { result.now ≡ self.now }
    {
        self.words.as_slice()
    }

    /// A's part and B's part, of a section with just the words that the circuit needs.
    pub fn split(self, alloc: Global, circuit: &Circuit) -> Result<(Part, Part), Memory>
        requires { length self ≡ section_length circuit.now }
        ensures a { IfOk result (λ parts. parts.0 ≡ part_of A (layout_of circuit.now self)) }
        ensures b { IfOk result (λ parts. parts.1 ≡ part_of B (layout_of circuit.now self)) }
    {
        let inputs = input_gates(circuit);
        let ands = and_gates(circuit);
        let words = self.words.as_slice();
        let masks = &words[inputs + 5 * ands..];
        let (a, b) = triples(alloc, &words[inputs..], ands)?;
        Ok((
            part(alloc, &words[..inputs], a, masks)?,
            part(alloc, &words[..inputs], b, masks)?,
        ))
    }
}

fn part(alloc: Global, r: &[Word], triples: Vec<Triple>, masks: &[Word]) -> Result<Part, Memory>
    ensures { IfOk result (λ p. p ≡ record {
      r = r.now;
      triples = triples.items;
      masks = masks.now;
    }) }
{
    Ok(Part {
        r: Vec::from_slice(alloc, r)?,
        triples,
        masks: Vec::from_slice(alloc, masks)?,
    })
}

// Both sites' triples, from five words for each And gate.
fn triples(
    alloc: Global,
    words: &[Word],
    count: usize,
) -> Result<(Vec<Triple>, Vec<Triple>), Memory>
    requires { 5 * count ≤ length words.now }
    ensures a { IfOk result (λ ts. ts.0.items ≡ map (triple_of A) (fives_of count words.now)) }
    ensures b { IfOk result (λ ts. ts.1.items ≡ map (triple_of B) (fives_of count words.now)) }
{
    let mut a = Vec::with_capacity(alloc, count)?;
    let mut b = Vec::with_capacity(alloc, count)?;
    for k in 0..count {
        let five = &words[5 * k..];
        a.push(triple(Site::A, five))?;
        b.push(triple(Site::B, five))?;
    }
    Ok((a, b))
}

// A site's triple, from the five words of an And gate.
fn triple(site: Site, five: &[Word]) -> Triple
    requires { 5 ≤ length five.now }
    ensures { result ≡ triple_of site (five_of five.now) }
{
    let (a0, a1, b0, b1, c0) = (five[0], five[1], five[2], five[3], five[4]);
    match site {
        Site::A => Triple {
            a: a0,
            b: b0,
            c: c0,
        },
        Site::B => {
            let product = a0.xor(&a1).and(&b0.xor(&b1));
            Triple {
                a: a1,
                b: b1,
                c: product.xor(&c0),
            }
        }
    }
}
