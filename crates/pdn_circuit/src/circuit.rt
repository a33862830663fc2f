//! A circuit, and the words that it is evaluated on.
ghost use Rattle.std.specs.Prelude.{◌≡◌, IfOk};
ghost use Rattle.pdn_circuit.specs.Gates.{is_input_of, input_count, given_count};

use crate::Gate;
use pdn_base::{Memory, Site, Word};
use std::alloc::Global;
use std::marker::Model;

/// Gates in order, and those whose words come out. The outputs of a released circuit are opened under masks.
#[derive(Debug, Drop)]
pub struct Circuit {
    pub gates: Vec<Gate>,
    pub outputs: Vec<u32>,
    pub released: bool,
}

impl Model for Circuit {
    ghost use Rattle.pdn_circuit.specs.Gates.{Net, IsCircuit};

    ghost Value = { Net };

    ghost view = { λ c. record { gates = c.gates.items; outputs = c.outputs.items; released = c.released } };

    ghost invariant = { λ c. IsCircuit (record { gates = c.gates.items; outputs = c.outputs.items; released = c.released }) };
}

impl Circuit {
    /// An equal circuit.
    pub fn copy(&self, alloc: Global) -> Result<Circuit, Memory>
        ensures { IfOk result (λ circuit. circuit ≡ self.now) }
    {
        let gates = self.gates.iter().copied().collect(alloc)?;
        let outputs = self.outputs.iter().copied().collect(alloc)?;
        Ok(Circuit {
            gates,
            outputs,
            released: self.released,
        })
    }

    /// How many words of a site the circuit takes.
    pub fn input_count(&self, site: Site) -> usize
        ensures { result ≡ input_count site self.now.gates }
    {
        self.gates
            .iter()
            .filter(|gate| is_input_of(site, gate))
            .count()
    }

    /// How many given words the circuit takes.
    pub fn given_count(&self) -> usize
        ensures { result ≡ given_count self.now.gates }
    {
        self.gates
            .iter()
            .filter(|gate| matches!(gate, Gate::Given { .. }))
            .count()
    }
}

fn is_input_of(site: Site, gate: &Gate) -> bool
    ensures { result ≡ is_input_of site gate.now }
{
    match (site, gate) {
        (Site::A, Gate::Input { site: Site::A, .. }) => true,
        (Site::B, Gate::Input { site: Site::B, .. }) => true,
        _ => false,
    }
}

/// The input words of each site and the given words, in their order.
#[derive(Debug, Drop)]
pub struct Inputs {
    pub a: Vec<Word>,
    pub b: Vec<Word>,
    pub given: Vec<Word>,
}

impl Model for Inputs {
    ghost use Rattle.pdn_circuit.specs.Gates.{InputWords};

    ghost Value = { InputWords };

    ghost view = { λ i. record { a = i.a.items; b = i.b.items; given = i.given.items } };
}
