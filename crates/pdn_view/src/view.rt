//! Views.
use pdn_base::{Site, Value, Word};
use pdn_gmw::UnitView;
use pdn_site::SegDirs;
use std::marker::Model;

/// Whose view it is.
#[derive(Clone, Copy, Debug, PartialEq, Eq)]
pub enum Party {
    A,
    B,
    Broker,
}

/// What a view has of a unit. A plain unit is known by its site and value alone. Of a secure unit and of the root a site sees
/// its side of the run; the broker sees the root's masked outputs, A's and B's.
#[derive(Debug, Drop)]
pub enum UnitPart {
    Plain(Site, Value),
    Secure(Value, UnitView),
    Root(UnitView),
    RootOut(Vec<Word>, Vec<Word>),
}

/// What a party sees of a query: the ticket, the directories of each segment, and the units. A site's view has the plain and the
/// secure units in unit order, then the root; the broker's has the root's outputs alone.
#[derive(Debug, Drop)]
pub struct View {
    pub party: Party,
    pub ticket: u64,
    pub dirs: Vec<SegDirs>,
    pub units: Vec<UnitPart>,
}

impl Model for View {
    ghost use Rattle.std.specs.Prelude.{map};
    ghost use Rattle.pdn_view.specs.Views.{ViewWords, part_of};

    ghost Value = { ViewWords };

    ghost view = { λ v. record {
      party = v.party;
      ticket = v.ticket;
      dirs = v.dirs.items;
      units = map part_of v.units.items;
    } };
}
