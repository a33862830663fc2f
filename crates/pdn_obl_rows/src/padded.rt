//! A list of rows whose length alone is known: its rows stand in the lanes of gates.
ghost use Rattle.std.specs.Prelude.{◌≡◌, ◌<◌, length, IfOk};
ghost use Rattle.pdn_obl_rows.specs.Lists.{IsShaped, PaddedList, column_planes};
ghost use Rattle.pdn_obl_rows.specs.Operators.{with_valid};

use crate::projecting::push_planes;
use crate::shape::width_at;
use pdn_base::{Kind, Memory};
use std::alloc::Global;
use std::marker::Model;

/// One bit of each row: row i is lane `i mod 64` of gate `i div 64`. Contracts see the list of gates.
#[derive(Debug, Drop)]
pub struct Plane {
    pub words: Vec<u32>,
}

impl Model for Plane {
    ghost use Rattle.std.specs.Prelude.{List, ℕ};

    ghost Value = { List ℕ };

    ghost view = { λ p. p.words.items };
}

/// A list of `len` rows, of which those are there whose lane of the valid plane is set. A column has a plane for each bit of its
/// kind's numbers, least significant first, and the planes of the columns stand one after the other.
#[derive(Debug, Drop)]
pub struct Padded {
    pub len: u32,
    pub valid: Vec<u32>,
    pub kinds: Vec<Kind>,
    pub planes: Vec<Plane>,
}

impl Model for Padded {
    ghost use Rattle.pdn_obl_rows.specs.Lists.{PaddedList, IsShaped};

    ghost Value = { PaddedList };

    ghost view = { λ p. record { len = p.len; valid = p.valid.items; kinds = p.kinds.items; planes = p.planes.items } };

    ghost invariant = { λ p. IsShaped (record { len = p.len; valid = p.valid.items; kinds = p.kinds.items; planes = p.planes.items }) };
}

impl Plane {
    /// Its gates, word by word.
    pub fn words(&self) -> &[u32]
        ensures { result.now ≡ self.now }
    {
        self.words.as_slice()
    }

    /// An equal plane.
    pub fn copy(&self, alloc: Global) -> Result<Plane, Memory>
        ensures { IfOk result (λ plane. plane ≡ self.now) }
    {
        Ok(Plane {
            words: Vec::from_slice(alloc, &self.words)?,
        })
    }
}

impl Padded {
    /// A list of these parts.
    pub fn of(len: u32, valid: Vec<u32>, kinds: Vec<Kind>, planes: Vec<Plane>) -> Padded
        requires { IsShaped (record {
          len = len;
          valid = valid.items;
          kinds = kinds.items;
          planes = planes.items;
        }) }
        ensures { result ≡ record {
          len = len;
          valid = valid.items;
          kinds = kinds.items;
          planes = planes.items;
        } }
    {
        Padded {
            len,
            valid,
            kinds,
            planes,
        }
    }

    /// How many rows it has, with those that are not there.
    pub fn len(&self) -> u32
        ensures { result ≡ self.now.len }
    {
        self.len
    }

    /// The gates of the valid plane.
    pub fn valid(&self) -> &[u32]
        ensures valid { result.now ≡ self.now.valid }
        ensures shaped { IsShaped self.now }
    {
        self.valid.as_slice()
    }

    /// The columns' kinds.
    pub fn kinds(&self) -> &[Kind]
        ensures { result.now ≡ self.now.kinds }
    {
        self.kinds.as_slice()
    }

    /// The planes of all columns.
    pub fn planes(&self) -> &[Plane]
        ensures planes { result.now ≡ self.now.planes }
        ensures shaped { IsShaped self.now }
    {
        self.planes.as_slice()
    }

    /// An equal list with another valid plane.
    pub fn with_valid(&self, alloc: Global, valid: Vec<u32>) -> Result<Padded, Memory>
        requires { length valid.items ≡ length self.now.valid }
        ensures { IfOk result (λ out. out ≡ with_valid self.now valid.items) }
    {
        let kinds = Vec::from_slice(alloc, self.kinds())?;
        let mut planes = Vec::new(alloc);
        push_planes(alloc, &mut planes, self.planes())?;
        Ok(Padded::of(self.len, valid, kinds, planes))
    }

    /// A column's planes.
    pub fn column(&self, column: usize) -> &[Plane]
        requires { column < length self.now.kinds }
        ensures planes { result.now ≡ column_planes self.now.kinds column self.now.planes }
        ensures shaped { IsShaped self.now }
    {
        let kinds = self.kinds();
        let mut planes = self.planes();
        for k in 0..column {
            planes = &planes[width_at(kinds, k) as usize..];
        }
        &planes[..width_at(kinds, column) as usize]
    }
}
