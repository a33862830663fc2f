//! How large a tree is, and whether it joins.

ghost use Rattle.std.specs.Prelude.{◌≡◌, ◌+◌, IfOk};
ghost use Rattle.pdn_tree.specs.Shapes.{nodes, has_join};

use crate::Node;
use pdn_base::Memory;

fn sum(a: u32, b: u32) -> Result<u32, Memory>
    ensures { IfOk result (λ n. n ≡ a + b) }
{
    match a.checked_add(b) {
        Some(n) => Ok(n),
        None => Err(Memory),
    }
}

/// How many nodes a tree has.
pub fn nodes_of(node: &Node) -> Result<u32, Memory>
    ensures { IfOk result (λ n. n ≡ nodes node.now) }
{
    match node {
        Node::Scan { table: _ } => Ok(1),
        Node::Filter { child, cond: _ } => sum(1, nodes_of(child.get())?),
        Node::Project { child, columns: _ } => sum(1, nodes_of(child.get())?),
        Node::Join { left, right, on: _ } => {
            let l = nodes_of(left.get())?;
            let r = nodes_of(right.get())?;
            sum(1, sum(l, r)?)
        }
        Node::Group {
            child,
            keys: _,
            having: _,
        } => sum(1, nodes_of(child.get())?),
        Node::Count { child } => sum(1, nodes_of(child.get())?),
        Node::Distinct { child } => sum(1, nodes_of(child.get())?),
        Node::Number {
            child,
            partition: _,
            order: _,
        } => sum(1, nodes_of(child.get())?),
        Node::Top {
            child,
            order: _,
            limit: _,
        } => sum(1, nodes_of(child.get())?),
    }
}

/// Whether a Join is anywhere in a tree.
pub fn has_join_in(node: &Node) -> bool
    ensures { result ≡ has_join node.now }
{
    match node {
        Node::Scan { table: _ } => false,
        Node::Filter { child, cond: _ } => has_join_in(child.get()),
        Node::Project { child, columns: _ } => has_join_in(child.get()),
        Node::Join {
            left: _,
            right: _,
            on: _,
        } => true,
        Node::Group {
            child,
            keys: _,
            having: _,
        } => has_join_in(child.get()),
        Node::Count { child } => has_join_in(child.get()),
        Node::Distinct { child } => has_join_in(child.get()),
        Node::Number {
            child,
            partition: _,
            order: _,
        } => has_join_in(child.get()),
        Node::Top {
            child,
            order: _,
            limit: _,
        } => has_join_in(child.get()),
    }
}
