//! What a query says.

use crate::text::Text;
use pdn_base::{Code, Op};
use sqlite_items::Items;

/// A name in small letters, and the place of its first byte in the file.
#[derive(Debug, Drop)]
pub struct Name {
    pub text: Text,
    pub at: u32,
}

/// A column, with its source where that is written.
#[derive(Debug, Drop)]
pub struct Col {
    pub of: Option<Name>,
    pub name: Name,
}

/// A column of a window's order.
#[derive(Debug, Drop)]
pub struct OrderCol {
    pub col: Col,
    pub down: bool,
}

/// An output name of a block's order.
#[derive(Debug, Drop)]
pub struct OrderName {
    pub name: Name,
    pub down: bool,
}

/// What an item of a block shows.
#[derive(Debug, Drop)]
pub enum What {
    Column(Col),
    Count,
    Number {
        partition: Items<Col>,
        order: Items<OrderCol>,
    },
}

/// An item of a block, and its alias.
#[derive(Debug, Drop)]
pub struct Item {
    pub what: What,
    pub alias: Option<Name>,
}

/// A column, and what is added to it.
#[derive(Debug, Drop)]
pub struct SqlTerm {
    pub col: Col,
    pub plus: Option<u32>,
}

/// The right side of a comparison.
#[derive(Debug, Drop)]
pub enum SqlOperand {
    Term(SqlTerm),
    Int(u32),
    Code(Code),
}

/// A comparison.
#[derive(Debug, Drop)]
pub struct SqlCmp {
    pub left: SqlTerm,
    pub op: Op,
    pub right: SqlOperand,
}

/// Comparisons of which one must hold.
#[derive(Debug, Drop)]
pub struct SqlClause {
    pub any: Items<SqlCmp>,
}

/// A table or a block of WITH that a block reads, its alias, and the condition under which it is joined to those before
/// it. The first source of a block has no condition.
#[derive(Debug, Drop)]
pub struct Source {
    pub name: Name,
    pub alias: Option<Name>,
    pub on: Items<SqlClause>,
}

/// One SELECT.
#[derive(Debug, Drop)]
pub struct Block {
    pub distinct: bool,
    pub items: Items<Item>,
    pub sources: Items<Source>,
    pub filter: Items<SqlClause>,
    pub group: Items<Col>,
    pub having: Option<u32>,
    pub order: Items<OrderName>,
    pub limit: Option<u32>,
}

/// A block of WITH and its name.
#[derive(Debug, Drop)]
pub struct Named {
    pub name: Name,
    pub block: Block,
}

/// A query: its blocks of WITH, and its main block.
#[derive(Debug, Drop)]
pub struct Query {
    pub with: Items<Named>,
    pub main: Block,
}
