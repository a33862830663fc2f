//! Lists of one row.
ghost use Rattle.std.specs.Prelude.{◌≡◌, ◌∷◌, [], length, IfOk, IfErr};
ghost use Rattle.pdn_circuit.specs.Blocks.{one};
ghost use Rattle.pdn_circuit.specs.Building.{Builds, GivesGate};
ghost use Rattle.pdn_obl_rows.specs.Lists.{IsShaped, widths};
ghost use Rattle.pdn_obl_group.specs.Operators.{one_row};

use pdn_base::{Kind, Word};
use pdn_circuit::{BuildErr, Builder, Gate};
use pdn_obl_rows::{Padded, Plane};
use std::alloc::{AllocError, Global};

/// The length of a list.
pub(crate) fn rows(list: &Padded) -> u32
    ensures length { result ≡ list.now.len }
    ensures shaped { IsShaped list.now }
{
    let _planes = list.planes();
    list.len
}

/// A word with lane 0 alone.
pub(crate) fn first_lane(b: &mut Builder) -> Result<u32, BuildErr>
    ensures made { Builds b.old b.new (one (Gate.Const 1)) result }
    ensures there { GivesGate b.new result }
{
    b.constant(Word::from_u64(1))
}

/// A list of one row, of which the valid gate and the gate of each plane are given.
pub(crate) fn one_row_list(
    alloc: Global,
    valid: u32,
    kinds: &[Kind],
    gates: &[u32],
) -> Result<Padded, BuildErr>
    requires { length gates.now ≡ widths kinds.now }
    ensures list { IfOk result (λ out. out ≡ record {
      len = 1;
      valid = valid ∷ [];
      kinds = kinds.now;
      planes = one_row gates.now;
    }) }
    ensures memory { IfErr result (λ err. err ≡ BuildErr.Memory) }
{
    let planes = one_row(alloc, gates)?;
    let kinds = Vec::from_slice(alloc, kinds)?;
    let mut words = Vec::new(alloc);
    words.push(valid)?;
    Ok(Padded::of(1, words, kinds, planes))
}

/// Planes of one word.
pub(crate) fn one_row(alloc: Global, gates: &[u32]) -> Result<Vec<Plane>, AllocError>
    ensures { IfOk result (λ planes. planes.items ≡ one_row gates.now) }
{
    let mut planes = Vec::new(alloc);
    for gate in gates {
        planes.push(plane_of(alloc, *gate)?)?;
    }
    Ok(planes)
}

fn plane_of(alloc: Global, gate: u32) -> Result<Plane, AllocError>
    ensures { IfOk result (λ plane. plane ≡ gate ∷ []) }
{
    let mut words = Vec::new(alloc);
    words.push(gate)?;
    Ok(Plane { words })
}
