//! What the tape may change.
ghost use Rattle.pdn_query.specs.Answering.{SameOnTapes};

/// Without views the answer to a query is the same on every tape: no word that a dealer deals shows in it.
#[tactic(auto, using(crate::proofs::Tapes::same_on_tapes))]
pub fn answers_are_the_same_on_every_tape()
    ensures { SameOnTapes }
{}
