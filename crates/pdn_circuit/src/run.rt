//! Evaluation in plain.
ghost use Rattle.std.specs.Prelude.{◌≡◌, ◌<◌, length, take, IfOk, OnOk};
ghost use Rattle.pdn_circuit.specs.Gates.{HasCounts, CanRead, gate_value, values};
ghost use Rattle.pdn_circuit.specs.Evaluating.{Stands};

use crate::joined::Run;
use crate::{Circuit, Gate, Inputs};
use pdn_base::{Memory, Site, Word};
use std::alloc::Global;

/// The words of all gates, in the gates' order. The inputs are as many as the circuit takes.
pub fn eval(alloc: Global, circuit: &Circuit, inputs: &Inputs) -> Result<Vec<Word>, Memory>
    requires { HasCounts circuit.now inputs.now }
    ensures { IfOk result (λ words. words.items ≡ values inputs.now circuit.now.gates) }
{
    let mut words = Vec::with_capacity(alloc, circuit.gates.len())?;
    while words.len() < circuit.gates.len() {
        push_next(alloc, circuit, inputs, &mut words)?;
    }
    Ok(words)
}

// The words of the next gates: of a run of them, or of one.
fn push_next(
    alloc: Global,
    circuit: &Circuit,
    inputs: &Inputs,
    words: &mut Vec<Word>,
) -> Result<(), Memory>
    requires counts { HasCounts circuit.now inputs.now }
    requires stand { Stands inputs.now circuit.now.gates words.old.items }
    requires more { length words.old.items < length circuit.now.gates }
    ensures stand { OnOk result (Stands inputs.now circuit.now.gates words.new.items) }
    ensures more { OnOk result (length words.old.items < length words.new.items) }
{
    match Run::from(circuit, words.len()) {
        Some(run) => run.push(alloc, words),
        None => push_one(circuit, inputs, words),
    }
}

fn push_one(circuit: &Circuit, inputs: &Inputs, words: &mut Vec<Word>) -> Result<(), Memory>
    requires counts { HasCounts circuit.now inputs.now }
    requires stand { Stands inputs.now circuit.now.gates words.old.items }
    requires more { length words.old.items < length circuit.now.gates }
    ensures stand { OnOk result (Stands inputs.now circuit.now.gates words.new.items) }
    ensures more { OnOk result (length words.old.items < length words.new.items) }
{
    let word = gate_word(&circuit.gates[words.len()], words.as_slice(), inputs);
    words.push(word)?;
    Ok(())
}

fn gate_word(gate: &Gate, words: &[Word], inputs: &Inputs) -> Word
    requires { CanRead inputs.now words.now gate.now }
    ensures { result ≡ gate_value inputs.now words.now gate.now }
{
    match gate {
        Gate::Input { site, index } => match site {
            Site::A => inputs.a[*index as usize],
            Site::B => inputs.b[*index as usize],
        },
        Gate::Given { index } => inputs.given[*index as usize],
        Gate::Const { word } => *word,
        Gate::Xor { a, b } => words[*a as usize].xor(&words[*b as usize]),
        Gate::And { a, b } => words[*a as usize].and(&words[*b as usize]),
        Gate::Spread { a, lane } => words[*a as usize].spread(*lane),
        Gate::Move { a, from, count, to } => words[*a as usize].move_lanes(*from, *count, *to),
    }
}
