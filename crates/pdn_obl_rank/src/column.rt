//! Planes of columns, and the gates of one number.
ghost use Rattle.std.specs.Prelude.{◌≡◌};

use pdn_obl_rows::Plane;
use std::marker::Model;

/// The planes of a column, least significant first. Contracts see the list of planes.
#[derive(Debug, Drop)]
pub struct Column {
    pub planes: Vec<Plane>,
}

impl Model for Column {
    ghost use Rattle.std.specs.Prelude.{List, ℕ};

    ghost Value = { List (List ℕ) };

    ghost view = { λ c. c.planes.items };
}

/// A number in each lane of a word: a gate for each bit, least significant first. Contracts see the list of gates.
#[derive(Debug, Drop)]
pub struct Number {
    pub bits: Vec<u32>,
}

impl Model for Number {
    ghost use Rattle.std.specs.Prelude.{List, ℕ};

    ghost Value = { List ℕ };

    ghost view = { λ n. n.bits.items };
}

pub fn words_of(plane: &Plane) -> &[u32]
    ensures { result.now ≡ plane.now }
{
    plane.words.as_slice()
}

pub fn planes_of(column: &Column) -> &[Plane]
    ensures { result.now ≡ column.now }
{
    column.planes.as_slice()
}

pub fn bits_of(number: &Number) -> &[u32]
    ensures { result.now ≡ number.now }
{
    number.bits.as_slice()
}
