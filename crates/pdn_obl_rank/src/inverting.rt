//! Columns with each plane inverted.
ghost use Rattle.std.specs.Prelude.{◌≡◌, ◌<◌, length, IfOk};
ghost use Rattle.std.specs.List.{All};
ghost use Rattle.pdn_circuit.specs.Blocks.{each};
ghost use Rattle.pdn_circuit.specs.Building.{Tries};
ghost use Rattle.pdn_circuit.specs.Compare.{not_gates};
ghost use Rattle.pdn_obl_rank.specs.Building.{GatesThere, PlanesThere};

use crate::column::{Column, words_of};
use pdn_circuit::{BuildErr, Builder};
use pdn_obl_rows::Plane;
use std::alloc::Global;

fn invert_plane(alloc: Global, b: &mut Builder, plane: &[u32]) -> Result<Plane, BuildErr>
    requires there { GatesThere (length b.old.gates) plane.now }
    ensures made { Tries b.old b.new (each not_gates plane.now) result }
    ensures there { IfOk result (λ plane. GatesThere (length b.new.gates) plane) }
{
    let mut words = Vec::new(alloc);
    for k in 0..plane.len() {
        let gate = b.not(plane[k])?;
        words.push(gate)?;
    }
    Ok(Plane { words })
}

/// A column with each plane inverted, plane by plane and word by word.
pub fn invert_column(alloc: Global, b: &mut Builder, planes: &[Plane]) -> Result<Column, BuildErr>
    requires there { PlanesThere (length b.old.gates) planes.now }
    ensures made { Tries b.old b.new (each (λ plane. each not_gates plane) planes.now) result }
    ensures there { IfOk result (λ column. PlanesThere (length b.new.gates) column) }
{
    let mut inverted = Vec::new(alloc);
    for k in 0..planes.len() {
        let plane = invert_plane(alloc, b, words_of(&planes[k]))?;
        inverted.push(plane)?;
    }
    Ok(Column { planes: inverted })
}
