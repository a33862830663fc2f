//! A builder of circuits: each call makes its gates in order, or none.
ghost use Rattle.std.specs.Prelude.{◌≡◌, ◌≤◌, ◌<◌, ◌+◌, ◌∷◌, [], length, take, MatchResult, MatchOption};
ghost use Rattle.std.specs.List.{All};
ghost use Rattle.pdn_circuit.specs.Blocks.{one};
ghost use Rattle.pdn_circuit.specs.Building.{Made, Starts, StartRefused, IsMade, IsNext, IsMark, IsCut, Builds, GivesGate, constants, refusal};
ghost use Rattle.pdn_circuit.specs.Gates.{input_count, given_count};

use crate::tally::{Mark, Tally, tally_of};
use crate::{BuildErr, Circuit, Gate};
use pdn_base::{Site, Word};
use std::alloc::Global;
use std::marker::Model;

/// The most gates of a circuit.
pub const MOST_GATES: u32 = 16_777_216;

/// Gates so far, beginning with the constants Z (no lane) and O (all lanes) as gates 0 and 1.
#[derive(Debug, Drop)]
pub struct Builder {
    gates: Vec<Gate>,
    tally: Tally,
    most_ands: u32,
    most_gates: u32,
}

impl Model for Builder {
    ghost use Rattle.pdn_circuit.specs.Building.{Made};

    ghost Value = { Made };

    ghost use Rattle.pdn_circuit.specs.Builder.{made_of, IsBuilder};

    ghost view = { made_of };

    ghost invariant = { IsBuilder };
}

impl Builder {
    /// A builder of at most `ands` And gates and `gates` gates of all kinds, Z and O among them.
    pub fn new(alloc: Global, ands: u32, gates: u32) -> Result<Builder, BuildErr>
        requires { gates ≤ 16777216 }
        ensures { MatchResult result (Starts ands gates) (StartRefused ands gates) }
    {
        if gates < 2 {
            return Err(BuildErr::Full { limit: 3 });
        }
        let mut list = Vec::new(alloc);
        list.push(Gate::Const {
            word: Word::from_u64(0),
        })?;
        list.push(Gate::Const {
            word: Word::from_u64(u64::MAX),
        })?;
        Ok(Builder {
            gates: list,
            tally: Tally {
                ands: 0,
                a: 0,
                b: 0,
                given: 0,
            },
            most_ands: ands,
            most_gates: gates,
        })
    }

    /// How many gates there are: the number of the next one.
    pub fn len(&self) -> u32
        ensures count { result ≡ length self.now.gates }
        ensures kept { IsMade self.now }
    {
        self.gates.len() as u32
    }

    /// A place to which the builder can be cut back.
    pub(crate) fn mark(&self) -> Mark
        ensures mark { IsMark result self.now.gates }
        ensures two { 2 ≤ result.gates }
        ensures kept { IsMade self.now }
    {
        Mark {
            gates: self.gates.len(),
            tally: self.tally,
        }
    }

    /// Takes back what was made since the mark.
    pub(crate) fn cut(&mut self, mark: &Mark)
        requires mark { IsMark mark.now (take mark.now.gates self.old.gates) }
        requires two { 2 ≤ mark.now.gates }
        ensures { IsCut self.old self.new (take mark.now.gates self.old.gates) }
    {
        self.gates.truncate(mark.gates);
        self.tally = mark.tally;
    }

    /// The builder's allocator.
    pub(crate) fn allocator(&self) -> Global {
        *self.gates.allocator()
    }

    fn push(&mut self, gate: Gate) -> Result<u32, BuildErr>
        requires { IsNext self.old.gates gate }
        ensures made { Builds self.old self.new (one gate) result }
        ensures there { GivesGate self.new result }
    {
        let added = tally_of(&gate);
        if self.tally.ands + added.ands > self.most_ands {
            return Err(BuildErr::Full { limit: 2 });
        }
        let number = self.gates.len() as u32;
        if number == self.most_gates {
            return Err(BuildErr::Full { limit: 3 });
        }
        self.gates.push(gate)?;
        self.tally = self.tally.plus(&added);
        Ok(number)
    }

    /// The next input word of a site.
    pub fn input(&mut self, site: Site) -> Result<u32, BuildErr>
        ensures made { Builds self.old self.new
            (one (Gate.Input site (input_count site self.old.gates))) result }
        ensures there { GivesGate self.new result }
    {
        let index = self.inputs(site);
        self.push(Gate::Input { site, index })
    }

    fn inputs(&self, site: Site) -> u32
        ensures { result ≡ input_count site self.now.gates }
    {
        match site {
            Site::A => self.tally.a,
            Site::B => self.tally.b,
        }
    }

    /// The next given word.
    pub fn given(&mut self) -> Result<u32, BuildErr>
        ensures made { Builds self.old self.new (one (Gate.Given (given_count self.old.gates)))
            result }
        ensures there { GivesGate self.new result }
    {
        let index = self.tally.given;
        self.push(Gate::Given { index })
    }

    /// A word that is known to all.
    pub fn constant(&mut self, word: Word) -> Result<u32, BuildErr>
        ensures made { Builds self.old self.new (one (Gate.Const word)) result }
        ensures there { GivesGate self.new result }
    {
        self.push(Gate::Const { word })
    }

    /// The lanes in which just one of two words is true.
    pub fn xor(&mut self, a: u32, b: u32) -> Result<u32, BuildErr>
        requires a_there { a < length self.old.gates }
        requires b_there { b < length self.old.gates }
        ensures made { Builds self.old self.new (one (Gate.Xor a b)) result }
        ensures there { GivesGate self.new result }
    {
        self.push(Gate::Xor { a, b })
    }

    /// The lanes in which both words are true.
    pub fn and(&mut self, a: u32, b: u32) -> Result<u32, BuildErr>
        requires a_there { a < length self.old.gates }
        requires b_there { b < length self.old.gates }
        ensures made { Builds self.old self.new (one (Gate.And a b)) result }
        ensures there { GivesGate self.new result }
    {
        self.push(Gate::And { a, b })
    }

    /// One lane of a word in all lanes.
    pub fn spread(&mut self, a: u32, lane: u8) -> Result<u32, BuildErr>
        requires there { a < length self.old.gates }
        requires lane { lane < 64 }
        ensures made { Builds self.old self.new (one (Gate.Spread a lane)) result }
        ensures there { GivesGate self.new result }
    {
        self.push(Gate::Spread { a, lane })
    }

    /// `count` lanes of a word, from `from` on, at `to`.
    pub fn move_lanes(&mut self, a: u32, from: u8, count: u8, to: u8) -> Result<u32, BuildErr>
        requires there { a < length self.old.gates }
        requires some { 1 ≤ count }
        requires from { from + count ≤ 64 }
        requires to { to + count ≤ 64 }
        ensures made { Builds self.old self.new (one (Gate.Move a from count to)) result }
        ensures there { GivesGate self.new result }
    {
        self.push(Gate::Move { a, from, count, to })
    }

    /// The circuit of all gates with these outputs.
    pub fn finish(self, outputs: Vec<u32>, released: bool) -> Circuit
        requires few { length outputs.items ≤ 16777216 }
        requires there { All (λ output. output < length self.gates) outputs.items }
        ensures { result ≡ record {
          gates = self.gates;
          outputs = outputs.items;
          released = released;
        } }
    {
        Circuit {
            gates: self.gates,
            outputs,
            released,
        }
    }
}
