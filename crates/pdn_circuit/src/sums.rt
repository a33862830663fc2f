//! Sums of numbers of planes, lowest plane first.
ghost use Rattle.std.specs.Prelude.{◌≡◌, ◌<◌, ◌≤◌, ◌^◌, length, IfOk};
ghost use Rattle.std.specs.List.{All};
ghost use Rattle.pdn_circuit.specs.Building.{BuildsList, GivesGates, Tries, TriesList};
ghost use Rattle.pdn_circuit.specs.Compare.{plus_gates, sum_gates, sum_plane_gates, literal_planes};

use crate::{BuildErr, Builder};
use std::alloc::{AllocError, Global};

/// One plane of a sum, and the carry out of it.
#[derive(Clone, Copy)]
pub(crate) struct SumPlane {
    pub(crate) sum: u32,
    pub(crate) carry: u32,
}

impl Builder {
    /// In every lane, a number of 32 planes plus `number`, in 33 planes.
    pub fn plus(&mut self, x: &[u32], number: u32) -> Result<Vec<u32>, BuildErr>
        requires planes { length x.now ≡ 32 }
        requires there { All (λ plane. plane < length self.old.gates) x.now }
        ensures made { BuildsList self.old self.new (plus_gates x.now number) result }
        ensures there { GivesGates self.new result }
    {
        let mark = self.mark();
        let literal = literal_planes(self.allocator(), number, x.len())?;
        match self.sum_steps(0, x, &literal) {
            Ok(planes) => Ok(planes),
            Err(err) => {
                self.cut(&mark);
                Err(err)
            }
        }
    }

    fn sum_steps(&mut self, start: u32, x: &[u32], y: &[u32]) -> Result<Vec<u32>, BuildErr>
        requires start_there { start < length self.old.gates }
        requires x_there { All (λ plane. plane < length self.old.gates) x.now }
        requires y_there { All (λ plane. plane < length self.old.gates) y.now }
        requires widths { length x.now ≡ length y.now }
        ensures made { TriesList self.old self.new (sum_gates start x.now y.now) result }
        ensures there { GivesGates self.new result }
    {
        let mut planes = Vec::new(self.allocator());
        let mut carry = start;
        for k in 0..x.len() {
            let plane = self.sum_plane(carry, x[k], y[k])?;
            planes.push(plane.sum)?;
            carry = plane.carry;
        }
        planes.push(carry)?;
        Ok(planes)
    }

    fn sum_plane(&mut self, carry: u32, x: u32, y: u32) -> Result<SumPlane, BuildErr>
        requires carry_there { carry < length self.old.gates }
        requires x_there { x < length self.old.gates }
        requires y_there { y < length self.old.gates }
        ensures made { Tries self.old self.new (sum_plane_gates carry x y) result }
        ensures sum_there { IfOk result (λ plane. plane.sum < length self.new.gates) }
        ensures carry_there { IfOk result (λ plane. plane.carry < length self.new.gates) }
    {
        let u = self.xor(x, carry)?;
        let v = self.xor(y, carry)?;
        let both = self.and(u, v)?;
        let sum = self.xor(u, y)?;
        let carry = self.xor(both, carry)?;
        Ok(SumPlane { sum, carry })
    }
}

/// A number as planes that are the constants: gate 1 where it has the bit, else gate 0.
fn literal_planes(alloc: Global, number: u32, width: usize) -> Result<Vec<u32>, AllocError>
    requires { width ≤ 32 }
    ensures { IfOk result (λ planes. planes.items ≡ literal_planes width number) }
{
    let mut planes = Vec::with_capacity(alloc, width)?;
    for k in 0..width {
        planes.push((number >> k) & 1)?;
    }
    Ok(planes)
}
