//! Counts that are large enough.
ghost use Rattle.std.specs.Prelude.{◌≡◌, ◌<◌, length, IfOk, IfErr, Some};
ghost use Rattle.std.specs.List.{All};
ghost use Rattle.pdn_circuit.specs.Building.{GivesGate, GivesGates, Tries};
ghost use Rattle.pdn_circuit.specs.Compare.{literal_planes};
ghost use Rattle.pdn_obl_group.specs.Operators.{having_gates};

use pdn_circuit::{BuildErr, Builder};
use std::alloc::Global;

/// These lanes, but for those whose count is less than the least that is asked for, if one is.
pub(crate) fn having_gate(
    alloc: Global,
    b: &mut Builder,
    having: Option<u32>,
    valid: u32,
    count: &[u32],
) -> Result<u32, BuildErr>
    requires valid { valid < length b.old.gates }
    requires count { All (λ gate. gate < length b.old.gates) count.now }
    requires wide { length count.now ≡ 32 }
    ensures made { Tries b.old b.new (having_gates having valid count.now) result }
    ensures there { GivesGate b.new result }
{
    match having {
        None => Ok(valid),
        Some(least) => enough(alloc, b, u64::from(least), valid, count),
    }
}

fn enough(
    alloc: Global,
    b: &mut Builder,
    least: u64,
    valid: u32,
    count: &[u32],
) -> Result<u32, BuildErr>
    requires valid { valid < length b.old.gates }
    requires count { All (λ gate. gate < length b.old.gates) count.now }
    requires wide { length count.now ≡ 32 }
    ensures made { Tries b.old b.new (having_gates (Some least) valid count.now) result }
    ensures there { GivesGate b.new result }
{
    let planes = literal(alloc, b, least)?;
    let less = b.less(0, count, &planes)?;
    let enough = b.not(less)?;
    b.and(valid, enough)
}

/// A number as 32 planes that are the builder's constants.
fn literal(alloc: Global, b: &Builder, number: u64) -> Result<Vec<u32>, BuildErr>
    ensures planes { IfOk result (λ planes. planes.items ≡ literal_planes 32 number) }
    ensures there { GivesGates b.now result }
    ensures memory { IfErr result (λ err. err ≡ BuildErr.Memory) }
{
    let _gates = b.len();
    let mut planes = Vec::new(alloc);
    for bit in 0..32u32 {
        planes.push(((number >> bit) & 1) as u32)?;
    }
    Ok(planes)
}
