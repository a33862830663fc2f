//! The gates of a circuit.
use pdn_base::{Site, Word};

/// A gate; `a` and `b` name earlier gates by their numbers.
#[derive(Clone, Copy, Debug, PartialEq, Eq)]
pub enum Gate {
    /// A site's input word, by its number among that site's.
    Input { site: Site, index: u32 },
    /// A word that an earlier unit gave.
    Given { index: u32 },
    Const { word: Word },
    Xor { a: u32, b: u32 },
    And { a: u32, b: u32 },
    /// One lane of `a` in all lanes.
    Spread { a: u32, lane: u8 },
    /// `count` lanes of `a`, which begin at lane `from`, now begin at `to`; the others are false.
    Move { a: u32, from: u8, count: u8, to: u8 },
}
