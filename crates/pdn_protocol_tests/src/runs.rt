//! What the tests of halves and of changes run: words, one And gate, and both halves of a circuit.
ghost use Rattle.std.specs.Prelude.{◌≡◌, length, IfOk};
ghost use Rattle.pdn_base.specs.declared.site.Site.TheVariants.{A, B};
ghost use Rattle.pdn_circuit.specs.Gates.{input_count, given_count};
ghost use Rattle.pdn_gmw.specs.Pairs.{ArePair};

use pdn_base::{Memory, Site, Word};
use pdn_circuit::{Builder, Circuit};
use pdn_dealer::{Deal, ListDeal, section_len};
use pdn_gmw::Half;
use std::alloc::Global;
use std::test::Fail;

/// One And gate's section: r of both inputs, then a0, a1, b0, b1, c0, then the mask.
pub const SECTION: [u64; 8] = [0x0f, 0x33, 0x55, 0x0f, 0x33, 0xff, 0xaa, 0x01];

/// Words by their numbers.
pub fn words(alloc: Global, numbers: &[u64]) -> Result<Vec<Word>, Memory>
    ensures { IfOk result (λ words. words.items ≡ numbers.now) }
{
    let words = numbers.iter().map(|n| Word::from_u64(*n)).collect(alloc)?;
    Ok(words)
}

/// A dealer whose section of ticket 0 and unit 0 is these words.
pub fn deal_words(alloc: Global, numbers: &[u64]) -> Result<ListDeal, Fail> {
    let mut entries = Vec::new(alloc);
    entries.push((0, 0, words(alloc, numbers)?))?;
    Ok(ListDeal::new(entries))
}

/// One And gate of a word of A and a word of B.
pub fn one_and(alloc: Global) -> Result<Circuit, Fail> {
    let mut builder = Builder::new(alloc, 1, 10)?;
    let x = builder.input(Site::A)?;
    let y = builder.input(Site::B)?;
    let z = builder.and(x, y)?;
    Ok(builder.finish(vec![in alloc; z]?, true))
}

/// Both halves of a circuit without given words, on the section of ticket 0 and unit 0.
pub fn halves<D: Deal>(
    alloc: Global,
    circuit: &Circuit,
    deal: &D,
    a: &[u64],
    b: &[u64],
) -> Result<(Half, Half), Fail>
    requires a { length a.now ≡ input_count A circuit.now.gates }
    requires b { length b.now ≡ input_count B circuit.now.gates }
    requires given { given_count circuit.now.gates ≡ 0 }
    ensures { IfOk result (λ pair. ArePair pair.0 pair.1) }
{
    let section = deal.section(alloc, 0, 0, section_len(circuit))?;
    let (part_a, part_b) = section.split(alloc, circuit)?;
    let half_a = Half::new(
        alloc,
        circuit,
        Site::A,
        words(alloc, a)?,
        Vec::new(alloc),
        part_a,
    )?;
    let half_b = Half::new(
        alloc,
        circuit,
        Site::B,
        words(alloc, b)?,
        Vec::new(alloc),
        part_b,
    )?;
    Ok((half_a, half_b))
}
