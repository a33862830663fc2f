//! What a site sees of a circuit's run.
use pdn_base::Word;
use std::marker::Model;

/// What a site sees of one And gate: its own triple, and the two words that it received for the gate, which are
/// the other side's shares of the operands, each under its mask.
#[derive(Clone, Copy, Debug, PartialEq, Eq)]
pub struct GateView {
    pub a: Word,
    pub b: Word,
    pub c: Word,
    pub d: Word,
    pub e: Word,
}

/// What a site sees of a circuit's run: the words r of its own Input gates and of the other site's, its view of each
/// And gate in gate order, and the masks of a released circuit's outputs.
#[derive(Debug, Drop)]
pub struct UnitView {
    pub own: Vec<Word>,
    pub other: Vec<Word>,
    pub gates: Vec<GateView>,
    pub masks: Vec<Word>,
}

impl Model for UnitView {
    ghost use Rattle.pdn_gmw.specs.Shares.{UnitWords};

    ghost Value = { UnitWords };

    ghost view = { λ v. record {
      own = v.own.items;
      other = v.other.items;
      gates = v.gates.items;
      masks = v.masks.items;
    } };
}
