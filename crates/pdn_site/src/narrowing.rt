//! Trees whose leaves read only the rows that have a value in a column.
ghost use Rattle.std.specs.Prelude.{◌≡◌, IfOk, drop, length};
ghost use Rattle.pdn_tree.specs.Walks.{below};
ghost use Rattle.pdn_site.specs.Narrowing.{constant, has_value, narrowed_scan, over, scans, narrowed};

use pdn_base::{Clause, Cmp, Cond, Memory, Op, Operand, Term, Value};
use pdn_level::Leaf;
use pdn_tree::{
    Node, make_count, make_distinct, make_filter, make_group, make_join, make_number, make_project,
    make_top,
};
use sqlite_items::Boxed;
use std::alloc::Global;

fn constant(value: &Value) -> Operand
    ensures { result ≡ constant value.now }
{
    match value {
        Value::Int(n) => Operand::Int(*n),
        Value::Code(code) => Operand::Code(*code),
    }
}

/// The condition that a column has a value.
fn has_value(alloc: Global, column: u32, value: &Value) -> Result<Cond, Memory>
    ensures { IfOk result (λ cond. cond ≡ has_value column value.now) }
{
    let left = Term { column, plus: None };
    let mut any = Vec::new(alloc);
    any.push(Cmp {
        left,
        op: Op::Eq,
        right: constant(value),
    })?;
    let mut all = Vec::new(alloc);
    all.push(Clause { any })?;
    Ok(Cond { all })
}

fn narrowed_scan(alloc: Global, table: u32, leaves: &[Leaf], value: &Value) -> Result<Node, Memory>
    ensures { IfOk result (λ tree. tree ≡ narrowed_scan value.now table leaves.now) }
{
    let scan = Node::Scan { table };
    let Some(leaf) = leaves.first() else {
        return Ok(scan);
    };
    let cond = has_value(alloc, leaf.column, value)?;
    let child = Boxed::new(alloc, scan)?;
    Ok(Node::Filter { child, cond })
}

/// How many tables a tree reads.
pub fn scans(node: &Node, value: &Value) -> Result<usize, Memory>
    ensures { IfOk result (λ count. count ≡ scans value.now node.now) }
{
    match node {
        Node::Scan { .. } => Ok(1),
        Node::Join { left, right, .. } => {
            let l = scans(left.get(), value)?;
            let r = scans(right.get(), value)?;
            match l.checked_add(r) {
                Some(count) => Ok(count),
                // the count passes its type
                None => Err(Memory),
            }
        }
        Node::Filter { child, .. }
        | Node::Project { child, .. }
        | Node::Group { child, .. }
        | Node::Count { child }
        | Node::Distinct { child }
        | Node::Number { child, .. }
        | Node::Top { child, .. } => scans(child.get(), value),
    }
}

/// The leaves after the first `count`.
pub fn after(leaves: &[Leaf], count: usize) -> &[Leaf]
    ensures { result.now ≡ drop count leaves.now }
{
    let first = if count < leaves.len() {
        count
    } else {
        leaves.len()
    };
    &leaves[first..]
}

/// An operator over one tree, over another one.
fn made_over(alloc: Global, node: &Node, child: Node) -> Result<Node, Memory>
    requires { length (below node.now) ≡ 1 }
    ensures { IfOk result (λ tree. tree ≡ over node.now child) }
{
    match node {
        Node::Filter { cond, .. } => make_filter(alloc, child, cond),
        Node::Project { columns, .. } => make_project(alloc, child, columns.as_slice()),
        Node::Group { keys, having, .. } => make_group(alloc, child, keys.as_slice(), *having),
        Node::Count { .. } => make_count(alloc, child),
        Node::Distinct { .. } => make_distinct(alloc, child),
        Node::Number {
            partition,
            order,
            ..
        } => make_number(alloc, child, partition.as_slice(), order.as_slice()),
        Node::Top { order, limit, .. } => make_top(alloc, child, order.as_slice(), *limit),
        // these read no tree, or two
        Node::Scan { .. } | Node::Join { .. } => unreachable!(),
    }
}

/// The tree in which each Scan that has a leaf, left to right, gives only the rows with the value in the leaf's column. With
/// no leaves it is an equal tree.
pub fn narrowed(alloc: Global, node: &Node, leaves: &[Leaf], value: &Value) -> Result<Node, Memory>
    ensures { IfOk result (λ tree. tree ≡ narrowed value.now node.now leaves.now) }
{
    match node {
        Node::Scan { table } => narrowed_scan(alloc, *table, leaves, value),
        Node::Join { left, right, on } => {
            let l = narrowed(alloc, left.get(), leaves, value)?;
            let rest = after(leaves, scans(left.get(), value)?);
            let r = narrowed(alloc, right.get(), rest, value)?;
            make_join(alloc, l, r, on)
        }
        Node::Filter { child, .. }
        | Node::Project { child, .. }
        | Node::Group { child, .. }
        | Node::Count { child }
        | Node::Distinct { child }
        | Node::Number { child, .. }
        | Node::Top { child, .. } => {
            let child = narrowed(alloc, child.get(), leaves, value)?;
            made_over(alloc, node, child)
        }
    }
}
