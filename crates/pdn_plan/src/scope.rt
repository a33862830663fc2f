//! What a block sees, and what earlier blocks give.

use crate::Node;
use pdn_base::{Cond, Kind};
use pdn_sql::Text;
use sqlite_items::Items;

/// Why a query is refused: the kind, and the name that is at fault.
#[derive(Debug, Drop)]
pub struct Refusal {
    pub kind: u8,
    pub name: Text,
}

/// A column that a block sees: by which name its source is known there, its own name, and the kind of its values.
#[derive(Debug, Drop)]
pub struct Seen {
    pub of: Text,
    pub name: Text,
    pub kind: Kind,
}

/// A column that a table or a block gives.
#[derive(Debug, Drop)]
pub struct Given {
    pub name: Text,
    pub kind: Kind,
}

/// What a name in FROM stands for: a plan, and its columns.
#[derive(Debug, Drop)]
pub struct Relation {
    pub columns: Items<Given>,
    pub plan: Node,
}

/// An earlier block of WITH.
#[derive(Debug, Drop)]
pub struct Earlier {
    pub name: Text,
    pub gives: Relation,
}

/// A source as it was bound: the plan of its rows and their width, and its ON clauses, by places in the row of all sources.
#[derive(Debug, Drop)]
pub struct Bound {
    pub plan: Node,
    pub width: u32,
    pub on: Cond,
}
