//! Depths: how many And gates follow on each other up to a gate.
ghost use Rattle.std.specs.Prelude.{◌≡◌, ℕ, ◌<◌, ◌≤◌, ◌^◌, length, IfOk, slice_index};
ghost use Rattle.pdn_circuit.specs.Gates.{NamesBelow};
ghost use Rattle.pdn_circuit.specs.Depths.{IsDepth, depths_of, gate_depth};

use crate::{Circuit, Gate};
use pdn_base::Memory;
use std::alloc::Global;

/// The depth of each gate, in gate order: an And gate is deeper by one than the deepest And gate that it reads, at once
/// or through further gates, and any other gate is as deep as the deepest And gate below it.
pub fn gate_depths(alloc: Global, circuit: &Circuit) -> Result<Vec<u32>, Memory>
    ensures depths { IfOk result (λ depths. depths.items ≡ depths_of circuit.now.gates) }
    ensures means { IfOk result (λ depths. IsDepth circuit.now.gates (slice_index depths.items)) }
{
    let mut depths = Vec::with_capacity(alloc, circuit.gates.len())?;
    for gate in &circuit.gates {
        let depth = next_depth(gate, &depths);
        depths.push(depth)?;
    }
    Ok(depths)
}

fn next_depth(gate: &Gate, depths: &[u32]) -> u32
    requires names { NamesBelow (length depths.now) gate.now }
    requires small { (k : ℕ) → slice_index depths.now k ≤ k }
    requires few { length depths.now < 2 ^ 31 }
    ensures depth { result ≡ gate_depth depths.now gate.now }
    ensures small { result ≤ length depths.now }
{
    match gate {
        Gate::Input { .. } | Gate::Given { .. } | Gate::Const { .. } => 0,
        Gate::Xor { a, b } => depths[*a as usize].max(depths[*b as usize]),
        Gate::And { a, b } => 1 + depths[*a as usize].max(depths[*b as usize]),
        Gate::Spread { a, .. } | Gate::Move { a, .. } => depths[*a as usize],
    }
}
