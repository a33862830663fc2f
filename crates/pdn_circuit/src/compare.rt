//! Blocks that compare and add numbers of planes, lowest plane first.
ghost use Rattle.std.specs.Prelude.{◌≡◌, ◌<◌, length};
ghost use Rattle.std.specs.List.{All};
ghost use Rattle.pdn_circuit.specs.Building.{Builds, GivesGate, GivesGates, Tries, TriesList};
ghost use Rattle.pdn_circuit.specs.Compare.{or_gates, less_gates, less_plane_gates, equal_gates, agree_gates, agree_plane_gates, not_gates, all_of_gates};

use crate::{BuildErr, Builder};

impl Builder {
    /// The lanes in which one of two words or both are true.
    pub fn or(&mut self, x: u32, y: u32) -> Result<u32, BuildErr>
        requires x_there { x < length self.old.gates }
        requires y_there { y < length self.old.gates }
        ensures made { Builds self.old self.new (or_gates x y) result }
        ensures there { GivesGate self.new result }
    {
        let mark = self.mark();
        match self.or_steps(x, y) {
            Ok(gate) => Ok(gate),
            Err(err) => {
                self.cut(&mark);
                Err(err)
            }
        }
    }

    fn or_steps(&mut self, x: u32, y: u32) -> Result<u32, BuildErr>
        requires x_there { x < length self.old.gates }
        requires y_there { y < length self.old.gates }
        ensures made { Tries self.old self.new (or_gates x y) result }
        ensures there { GivesGate self.new result }
    {
        let both = self.and(x, y)?;
        let differ = self.xor(x, y)?;
        self.xor(differ, both)
    }

    /// In every lane, whether the number of the first planes is less than that of the second; where they are equal,
    /// what `init` has there.
    pub fn less(&mut self, init: u32, x: &[u32], y: &[u32]) -> Result<u32, BuildErr>
        requires init_there { init < length self.old.gates }
        requires x_there { All (λ plane. plane < length self.old.gates) x.now }
        requires y_there { All (λ plane. plane < length self.old.gates) y.now }
        requires widths { length x.now ≡ length y.now }
        ensures made { Builds self.old self.new (less_gates init x.now y.now) result }
        ensures there { GivesGate self.new result }
    {
        let mark = self.mark();
        match self.less_steps(init, x, y) {
            Ok(gate) => Ok(gate),
            Err(err) => {
                self.cut(&mark);
                Err(err)
            }
        }
    }

    fn less_steps(&mut self, init: u32, x: &[u32], y: &[u32]) -> Result<u32, BuildErr>
        requires init_there { init < length self.old.gates }
        requires x_there { All (λ plane. plane < length self.old.gates) x.now }
        requires y_there { All (λ plane. plane < length self.old.gates) y.now }
        requires widths { length x.now ≡ length y.now }
        ensures made { Tries self.old self.new (less_gates init x.now y.now) result }
        ensures there { GivesGate self.new result }
    {
        let mut less = init;
        for k in 0..x.len() {
            less = self.less_plane(less, x[k], y[k])?;
        }
        Ok(less)
    }

    /// One plane above those that `less` compares.
    fn less_plane(&mut self, less: u32, x: u32, y: u32) -> Result<u32, BuildErr>
        requires less_there { less < length self.old.gates }
        requires x_there { x < length self.old.gates }
        requires y_there { y < length self.old.gates }
        ensures made { Tries self.old self.new (less_plane_gates less x y) result }
        ensures there { GivesGate self.new result }
    {
        let differ = self.xor(x, y)?;
        let change = self.xor(y, less)?;
        let changed = self.and(differ, change)?;
        self.xor(less, changed)
    }

    /// In every lane, whether two numbers of as many planes are equal.
    pub fn equal(&mut self, x: &[u32], y: &[u32]) -> Result<u32, BuildErr>
        requires x_there { All (λ plane. plane < length self.old.gates) x.now }
        requires y_there { All (λ plane. plane < length self.old.gates) y.now }
        requires widths { length x.now ≡ length y.now }
        ensures made { Builds self.old self.new (equal_gates x.now y.now) result }
        ensures there { GivesGate self.new result }
    {
        let mark = self.mark();
        match self.equal_steps(x, y) {
            Ok(gate) => Ok(gate),
            Err(err) => {
                self.cut(&mark);
                Err(err)
            }
        }
    }

    fn equal_steps(&mut self, x: &[u32], y: &[u32]) -> Result<u32, BuildErr>
        requires x_there { All (λ plane. plane < length self.old.gates) x.now }
        requires y_there { All (λ plane. plane < length self.old.gates) y.now }
        requires widths { length x.now ≡ length y.now }
        ensures made { Tries self.old self.new (equal_gates x.now y.now) result }
        ensures there { GivesGate self.new result }
    {
        let agree = self.agree(x, y)?;
        self.all_of(&agree)
    }

    /// For each plane, where the two numbers agree in it.
    fn agree(&mut self, x: &[u32], y: &[u32]) -> Result<Vec<u32>, BuildErr>
        requires x_there { All (λ plane. plane < length self.old.gates) x.now }
        requires y_there { All (λ plane. plane < length self.old.gates) y.now }
        requires widths { length x.now ≡ length y.now }
        ensures made { TriesList self.old self.new (agree_gates x.now y.now) result }
        ensures there { GivesGates self.new result }
    {
        let mut planes = Vec::with_capacity(self.allocator(), x.len())?;
        for k in 0..x.len() {
            let agree = self.agree_plane(x[k], y[k])?;
            planes.push(agree)?;
        }
        Ok(planes)
    }

    fn agree_plane(&mut self, x: u32, y: u32) -> Result<u32, BuildErr>
        requires x_there { x < length self.old.gates }
        requires y_there { y < length self.old.gates }
        ensures made { Tries self.old self.new (agree_plane_gates x y) result }
        ensures there { GivesGate self.new result }
    {
        let differ = self.xor(x, y)?;
        self.not(differ)
    }

    /// The lanes in which a word is false.
    pub fn not(&mut self, x: u32) -> Result<u32, BuildErr>
        requires there { x < length self.old.gates }
        ensures made { Builds self.old self.new (not_gates x) result }
        ensures there { GivesGate self.new result }
    {
        let _gates = self.len();
        self.xor(x, 1)
    }

    /// The lanes in which all of these are true.
    fn all_of(&mut self, planes: &[u32]) -> Result<u32, BuildErr>
        requires there { All (λ plane. plane < length self.old.gates) planes.now }
        ensures made { Tries self.old self.new (all_of_gates planes.now) result }
        ensures there { GivesGate self.new result }
    {
        if planes.is_empty() {
            let _gates = self.len();
            return Ok(1);
        }
        let mut all = planes[0];
        for k in 1..planes.len() {
            all = self.and(all, planes[k])?;
        }
        Ok(all)
    }
}
