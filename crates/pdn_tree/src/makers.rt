//! Nodes above trees that are there.

ghost use Rattle.std.specs.Prelude.{◌≡◌, IfOk};
ghost use Rattle.pdn_tree.specs.declared.node.Node.TheVariants as node;

use crate::Node;
use crate::conditions::copy_cond;
use pdn_base::{Cond, Key, Memory};
use sqlite_items::{Boxed, Items};
use std::alloc::Global;

/// A Filter above a tree.
pub fn make_filter(alloc: Global, child: Node, cond: &Cond) -> Result<Node, Memory>
    ensures { IfOk result (λ tree. tree ≡ node.Filter child cond.now) }
{
    let child = Boxed::new(alloc, child)?;
    let cond = copy_cond(alloc, cond)?;
    Ok(Node::Filter { child, cond })
}

/// A Project above a tree.
pub fn make_project(alloc: Global, child: Node, columns: &[u32]) -> Result<Node, Memory>
    ensures { IfOk result (λ tree. tree ≡ node.Project child columns.now) }
{
    let child = Boxed::new(alloc, child)?;
    let columns = Items::from_slice(alloc, columns)?;
    Ok(Node::Project { child, columns })
}

/// A Join of two trees.
pub fn make_join(alloc: Global, left: Node, right: Node, on: &Cond) -> Result<Node, Memory>
    ensures { IfOk result (λ tree. tree ≡ node.Join left right on.now) }
{
    let left = Boxed::new(alloc, left)?;
    let right = Boxed::new(alloc, right)?;
    let on = copy_cond(alloc, on)?;
    Ok(Node::Join { left, right, on })
}

/// A Group above a tree.
pub fn make_group(
    alloc: Global,
    child: Node,
    keys: &[u32],
    having: Option<u32>,
) -> Result<Node, Memory>
    ensures { IfOk result (λ tree. tree ≡ node.Group child keys.now having) }
{
    let child = Boxed::new(alloc, child)?;
    let keys = Items::from_slice(alloc, keys)?;
    Ok(Node::Group {
        child,
        keys,
        having,
    })
}

/// A Count above a tree.
pub fn make_count(alloc: Global, child: Node) -> Result<Node, Memory>
    ensures { IfOk result (λ tree. tree ≡ node.Count child) }
{
    let child = Boxed::new(alloc, child)?;
    Ok(Node::Count { child })
}

/// A Distinct above a tree.
pub fn make_distinct(alloc: Global, child: Node) -> Result<Node, Memory>
    ensures { IfOk result (λ tree. tree ≡ node.Distinct child) }
{
    let child = Boxed::new(alloc, child)?;
    Ok(Node::Distinct { child })
}

/// A Number above a tree.
pub fn make_number(
    alloc: Global,
    child: Node,
    partition: &[u32],
    order: &[Key],
) -> Result<Node, Memory>
    ensures { IfOk result (λ tree. tree ≡ node.Number child partition.now order.now) }
{
    let child = Boxed::new(alloc, child)?;
    let partition = Items::from_slice(alloc, partition)?;
    let order = Items::from_slice(alloc, order)?;
    Ok(Node::Number {
        child,
        partition,
        order,
    })
}

/// A Top above a tree.
pub fn make_top(
    alloc: Global,
    child: Node,
    order: &[Key],
    limit: Option<u32>,
) -> Result<Node, Memory>
    ensures { IfOk result (λ tree. tree ≡ node.Top child order.now limit) }
{
    let child = Boxed::new(alloc, child)?;
    let order = Items::from_slice(alloc, order)?;
    Ok(Node::Top {
        child,
        order,
        limit,
    })
}
