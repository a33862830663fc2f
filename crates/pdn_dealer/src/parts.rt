//! What each site gets of a section.
use pdn_base::Word;
use std::marker::Model;

/// One site's words for one And gate: c is its share of the product of both sites' a and both sites' b.
#[derive(Clone, Copy, Debug, PartialEq, Eq)]
pub struct Triple {
    pub a: Word,
    pub b: Word,
    pub c: Word,
}

/// One site's part of a section: the words r of all Input gates, a triple for each And gate, and a mask for
/// each output of a released circuit.
#[derive(Drop)]
pub struct Part {
    pub r: Vec<Word>,
    pub triples: Vec<Triple>,
    pub masks: Vec<Word>,
}

impl Model for Part {
    ghost use Rattle.pdn_dealer.specs.Sections.{PartWords};

    ghost Value = { PartWords };

    ghost view = { λ p. record { r = p.r.items; triples = p.triples.items; masks = p.masks.items } };
}
