//! The change of a section between two worlds.
ghost use Rattle.std.specs.Prelude.{◌≡◌, ◌≤◌, ◌*◌, ◌++◌, length, IfOk, OnOk};
ghost use Rattle.pdn_circuit.specs.Gates.{HasCounts, InOrder, NamesBelow, Pair, ands, operands_of};
ghost use Rattle.pdn_dealer.specs.Sections.{r_count, section_length, five_of, five_words};
ghost use Rattle.pdn_shift.specs.Changes.{differences, taken_up, shift_words};
ghost use Rattle.pdn_shift.specs.Changes.{fives_changed, section_changed};
ghost use Rattle.pdn_shift.specs.Worlds.{LooksAlike};

use pdn_base::{Memory, Site, Word, xor_words};
use pdn_circuit::{Circuit, Gate, Inputs, eval};
use std::alloc::Global;

/// The change of a section between two worlds. Where the site's own input words and its own shares
/// of the given words are the same in both, it sees in the second world on the result what it sees
/// in the first on `words`. `words` are as many as the circuit needs, and so is the result; `first`
/// and `second` have as many words as the circuit takes, the given ones in plain. At each And gate
/// the other site's a and b take up the XOR of both worlds' words of the operands; for B, c0 takes
/// up the old and the new product of both sites' a and both sites' b. All other words are kept. The
/// change from the second world to the first, made after it, gives `words` back.
pub fn shift(
    alloc: Global,
    site: Site,
    circuit: &Circuit,
    first: &Inputs,
    second: &Inputs,
    words: &[Word],
) -> Result<Vec<Word>, Memory>
    requires first { HasCounts circuit.now first.now }
    requires second { HasCounts circuit.now second.now }
    requires words { length words.now ≡ section_length circuit.now }
    ensures changed { IfOk result (λ new.
        new.items ≡ shift_words site circuit.now first.now second.now words.now) }
    ensures alike { IfOk result (λ new.
        LooksAlike site circuit.now first.now second.now words.now new.items) }
    ensures back { IfOk result (λ new.
        shift_words site circuit.now second.now first.now new.items ≡ words.now) }
{
    let differences = differences(alloc, circuit, first, second)?;
    changed_section(alloc, site, circuit, &differences, words)
}

// The section, changed where the gates' words in both worlds differ by these. That the gates are in
// order is what every circuit keeps.
fn changed_section(
    alloc: Global,
    site: Site,
    circuit: &Circuit,
    differences: &[Word],
    words: &[Word],
) -> Result<Vec<Word>, Memory>
    requires long { length differences.now ≡ length circuit.now.gates }
    requires words { length words.now ≡ section_length circuit.now }
    ensures changed { IfOk result (λ new.
        new.items ≡ section_changed site circuit.now differences.now words.now) }
    ensures order { IfOk result (λ _. InOrder circuit.now.gates) }
{
    let inputs = input_gates(circuit);
    let mut changed = Vec::with_capacity(alloc, words.len())?;
    changed.extend_from_slice(&words[..inputs])?;
    let fives = &words[inputs..];
    let taken = push_fives(site, &circuit.gates, differences, fives, &mut changed)?;
    changed.extend_from_slice(&fives[taken..])?;
    Ok(changed)
}

// The words by which the gates' words in both worlds differ.
fn differences(
    alloc: Global,
    circuit: &Circuit,
    first: &Inputs,
    second: &Inputs,
) -> Result<Vec<Word>, Memory>
    requires first { HasCounts circuit.now first.now }
    requires second { HasCounts circuit.now second.now }
    ensures { IfOk result (λ words.
        words.items ≡ differences first.now second.now circuit.now.gates) }
{
    let old = eval(alloc, circuit, first)?;
    let new = eval(alloc, circuit, second)?;
    let mut words = vec![in alloc; Word::from_u64(0); old.len()]?;
    xor_words(&mut words, &old, &new);
    Ok(words)
}

fn input_gates(circuit: &Circuit) -> usize
    ensures { result ≡ r_count circuit.now }
{
    circuit
        .gates
        .iter()
        .filter(|gate| matches!(gate, Gate::Input { .. }))
        .count()
}

// Adds the changed words of all And gates, of which `words` begin with the first one's, and gives
// how many they are.
fn push_fives(
    site: Site,
    gates: &[Gate],
    differences: &[Word],
    words: &[Word],
    changed: &mut Vec<Word>,
) -> Result<usize, Memory>
    requires order { InOrder gates.now }
    requires long { length differences.now ≡ length gates.now }
    requires room { 5 * length (ands gates.now) ≤ length words.now }
    ensures words { OnOk result (
        changed.new.items ≡ changed.old.items
        ++ fives_changed site differences.now (ands gates.now) words.now) }
    ensures taken { IfOk result (λ taken. taken ≡ 5 * length (ands gates.now)) }
{
    let mut at = 0;
    for gate in gates {
        at += push_gate(site, gate, differences, &words[at..], changed)?;
    }
    Ok(at)
}

// Adds the changed words of one gate, which stand in front if it is an And gate, and gives how many
// they are.
fn push_gate(
    site: Site,
    gate: &Gate,
    differences: &[Word],
    words: &[Word],
    changed: &mut Vec<Word>,
) -> Result<usize, Memory>
    requires named { NamesBelow (length differences.now) gate.now }
    requires room { 5 * length (operands_of gate.now) ≤ length words.now }
    ensures words { OnOk result (
        changed.new.items ≡ changed.old.items
        ++ fives_changed site differences.now (operands_of gate.now) words.now) }
    ensures taken { IfOk result (λ taken. taken ≡ 5 * length (operands_of gate.now)) }
{
    match gate {
        Gate::And { a, b } => {
            let (x, y) = (&differences[*a as usize], &differences[*b as usize]);
            changed.extend_from_slice(&taken_up(site, words, x, y))?;
            Ok(5)
        }
        Gate::Input { .. }
        | Gate::Given { .. }
        | Gate::Const { .. }
        | Gate::Xor { .. }
        | Gate::Spread { .. }
        | Gate::Move { .. } => Ok(0),
    }
}

// The changed words of an And gate whose operands differ by x and y.
fn taken_up(site: Site, five: &[Word], x: &Word, y: &Word) -> [Word; 5]
    requires { 5 ≤ length five.now }
    ensures { let d : Pair = record { x = x.now; y = y.now } in
        result ≡ five_words (taken_up site d (five_of five.now)) }
{
    let (a0, a1, b0, b1, c0) = (five[0], five[1], five[2], five[3], five[4]);
    match site {
        Site::A => [a0, a1.xor(x), b0, b1.xor(y), c0],
        Site::B => {
            let (new_a0, new_b0) = (a0.xor(x), b0.xor(y));
            let old = a0.xor(&a1).and(&b0.xor(&b1));
            let new = new_a0.xor(&a1).and(&new_b0.xor(&b1));
            [new_a0, a1, new_b0, b1, c0.xor(&old).xor(&new)]
        }
    }
}
