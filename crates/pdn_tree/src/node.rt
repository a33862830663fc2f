//! The tree of a plan.

ghost use Rattle.std.specs.Prelude.{◌≡◌, IfOk};
ghost use Rattle.pdn_tree.specs.Walks.{read_by, below};

use crate::makers::{
    make_count, make_distinct, make_filter, make_group, make_join, make_number, make_project,
    make_top,
};
use pdn_base::{Cond, Key, Memory};
use sqlite_items::{Boxed, Items};
use std::alloc::Global;

/// An operator and what it reads. A column is named by its place in the rows of what is read, counted from 0.
#[derive(Debug, Drop)]
pub enum Node {
    /// The rows of a table, by its place in the schema.
    Scan {
        table: u32,
    },
    /// The rows that meet the condition.
    Filter {
        child: Boxed<Node>,
        cond: Cond,
    },
    /// Each row cut to these columns, in this order.
    Project {
        child: Boxed<Node>,
        columns: Items<u32>,
    },
    /// Each left row followed by each right row, where they meet the condition together.
    Join {
        left: Boxed<Node>,
        right: Boxed<Node>,
        on: Cond,
    },
    /// Each key that occurs and how often, where that is at least `having`.
    Group {
        child: Boxed<Node>,
        keys: Items<u32>,
        having: Option<u32>,
    },
    /// One row: how many rows there are.
    Count {
        child: Boxed<Node>,
    },
    /// Each row that occurs, once.
    Distinct {
        child: Boxed<Node>,
    },
    /// Each row with its place among the rows of its partition.
    Number {
        child: Boxed<Node>,
        partition: Items<u32>,
        order: Items<Key>,
    },
    /// The rows in their order, the first `limit` of them.
    Top {
        child: Boxed<Node>,
        order: Items<Key>,
        limit: Option<u32>,
    },
}

/// What a node reads: nothing, one tree, or a left and a right one.
#[derive(Debug, Drop)]
pub enum Below<'a> {
    Nothing,
    One(&'a Node),
    Two(&'a Node, &'a Node),
}

impl Node {
    /// What the node reads, left to right. A walk that treats all kinds alike goes by it.
    pub fn below(&self) -> Below<'_>
        ensures { read_by result ≡ below self.now }
    {
        match self {
            Node::Scan { table: _ } => Below::Nothing,
            Node::Filter { child, cond: _ } => Below::One(child.get()),
            Node::Project { child, columns: _ } => Below::One(child.get()),
            Node::Join { left, right, on: _ } => Below::Two(left.get(), right.get()),
            Node::Group {
                child,
                keys: _,
                having: _,
            } => Below::One(child.get()),
            Node::Count { child } => Below::One(child.get()),
            Node::Distinct { child } => Below::One(child.get()),
            Node::Number {
                child,
                partition: _,
                order: _,
            } => Below::One(child.get()),
            Node::Top {
                child,
                order: _,
                limit: _,
            } => Below::One(child.get()),
        }
    }

    /// An equal tree. Its one error is Memory.
    pub fn copy(&self, alloc: Global) -> Result<Node, Memory>
        ensures { IfOk result (λ copied. copied ≡ self.now) }
    {
        match self {
            Node::Scan { table } => Ok(Node::Scan { table: *table }),
            Node::Filter { child, cond } => make_filter(alloc, child.get().copy(alloc)?, cond),
            Node::Project { child, columns } => make_project(
                alloc,
                child.get().copy(alloc)?,
                columns.as_slice(),
            ),
            Node::Join { left, right, on } => {
                let l = left.get().copy(alloc)?;
                make_join(alloc, l, right.get().copy(alloc)?, on)
            }
            Node::Group {
                child,
                keys,
                having,
            } => make_group(alloc, child.get().copy(alloc)?, keys.as_slice(), *having),
            Node::Count { child } => make_count(alloc, child.get().copy(alloc)?),
            Node::Distinct { child } => make_distinct(alloc, child.get().copy(alloc)?),
            Node::Number {
                child,
                partition,
                order,
            } => make_number(
                alloc,
                child.get().copy(alloc)?,
                partition.as_slice(),
                order.as_slice(),
            ),
            Node::Top {
                child,
                order,
                limit,
            } => make_top(alloc, child.get().copy(alloc)?, order.as_slice(), *limit),
        }
    }
}
