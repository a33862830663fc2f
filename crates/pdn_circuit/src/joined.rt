//! Runs of Xor gates, or of And gates, that read two runs of words.
ghost use Rattle.std.specs.Prelude.{◌≡◌, ◌+◌, ◌≤◌, ◌<◌, ◌^◌, ◌++◌, IsTrue, IfSome, OnOk, length, take, drop};
ghost use Rattle.pdn_circuit.specs.Evaluating.{joined, run_gates, run_words, IsRun};

use crate::{Circuit, Gate};
use pdn_base::{Memory, Word, and_words, xor_words};
use std::alloc::Global;

/// What a gate does with the two words that it reads.
#[derive(Clone, Copy)]
pub enum Joint {
    Xor,
    And,
}

/// Gates of one kind, one after the other, that read the words from `a` on and those from `b` on, all of which stand before them.
#[derive(Clone, Copy)]
pub struct Run {
    pub joint: Joint,
    pub a: usize,
    pub b: usize,
    pub len: usize,
}

// Fewer gates are worked out one by one.
const LEAST: usize = 4;

impl Run {
    /// The run that begins with a gate, where enough gates follow on it.
    pub fn from(circuit: &Circuit, at: usize) -> Option<Run>
        requires { at < length circuit.now.gates }
        ensures { IfSome result (λ run. IsRun circuit.now.gates at run) }
    {
        let (joint, a, b) = match circuit.gates[at] {
            Gate::Xor { a, b } => (Joint::Xor, a, b),
            Gate::And { a, b } => (Joint::And, a, b),
            _ => return None,
        };
        let (a, b) = (a as usize, b as usize);
        let len = run_length(
            &circuit.gates[at..],
            joint,
            (a, b),
            at.saturating_sub(a.max(b)),
        );
        if len < LEAST {
            None
        } else {
            Some(Run { joint, a, b, len })
        }
    }

    /// Adds the words of the run's gates to those of all gates before.
    pub fn push(&self, alloc: Global, words: &mut Vec<Word>) -> Result<(), Memory>
        requires a { self.now.a + self.now.len ≤ length words.old.items }
        requires b { self.now.b + self.now.len ≤ length words.old.items }
        ensures { OnOk result (words.new.items ≡ words.old.items
            ++ run_words self.now words.old.items) }
    {
        let mut joined = vec![in alloc; Word::from_u64(0); self.len]?;
        let x = &words[self.a..self.a + self.len];
        let y = &words[self.b..self.b + self.len];
        match self.joint {
            Joint::Xor => xor_words(&mut joined, x, y),
            Joint::And => and_words(&mut joined, x, y),
        }
        words.extend_from_slice(&joined)?;
        Ok(())
    }
}

// How many of the first gates are a run that reads words from these two places on, at most so many.
fn run_length(gates: &[Gate], joint: Joint, from: (usize, usize), most: usize) -> usize
    requires a { from.0 < 2 ^ 32 }
    requires b { from.1 < 2 ^ 32 }
    ensures within { result ≤ length gates.now }
    ensures most { result ≤ most }
    ensures gates { take result gates.now ≡ run_gates joint from.0 from.1 result }
{
    let mut len = 0;
    while len < gates.len() && len < most && reads(&gates[len], joint, from.0 + len, from.1 + len) {
        len += 1;
    }
    len
}

// Whether a gate joins the words of these two places.
fn reads(gate: &Gate, joint: Joint, x: usize, y: usize) -> bool
    ensures { IsTrue result → gate.now ≡ joined joint x y }
{
    match (joint, gate) {
        (Joint::Xor, Gate::Xor { a, b }) => *a as usize == x && *b as usize == y,
        (Joint::And, Gate::And { a, b }) => *a as usize == x && *b as usize == y,
        _ => false,
    }
}
