//! The trees of queries.
use crate::plans::{RECURRENT, SCHEMA, bound, schema_of};
use pdn_base::Memory;
use pdn_plan::Node;
use std::alloc::Global;
use std::test::Fail;

/// An operator with its arguments; of a condition, how many clauses it has.
fn operator_text(alloc: Global, node: &Node) -> Result<String, Memory> {
    Ok(match node {
        Node::Scan { table } => format!(in alloc; "scan {table}")?,
        Node::Filter { cond, .. } => format!(in alloc; "filter {}", cond.all.len())?,
        Node::Project { columns, .. } => format!(in alloc; "project {:?}", columns.as_slice())?,
        Node::Join { on, .. } => format!(in alloc; "join {}", on.all.len())?,
        Node::Group { keys, having, .. } => {
            format!(in alloc; "group {:?} {having:?}", keys.as_slice())?
        }
        Node::Count { .. } => String::from_str(alloc, "count")?,
        Node::Distinct { .. } => String::from_str(alloc, "distinct")?,
        Node::Number {
            partition,
            order,
            ..
        } => {
            let order = order.as_slice();
            format!(in alloc; "number {:?} {order:?}", partition.as_slice())?
        }
        Node::Top { order, limit, .. } => {
            format!(in alloc; "top {:?} {limit:?}", order.as_slice())?
        }
    })
}

fn over(alloc: Global, operator: &str, below: String) -> Result<String, Memory> {
    Ok(format!(in alloc; "{operator} ({below})")?)
}

/// A tree on one line.
fn tree_text(alloc: Global, node: &Node) -> Result<String, Memory> {
    let said = operator_text(alloc, node)?;
    match node {
        Node::Scan { .. } => Ok(said),
        Node::Filter { child, .. } => over(alloc, &said, tree_text(alloc, child.get())?),
        Node::Project { child, .. } => over(alloc, &said, tree_text(alloc, child.get())?),
        Node::Join { left, right, .. } => {
            let left = tree_text(alloc, left.get())?;
            let right = tree_text(alloc, right.get())?;
            over(alloc, &said, format!(in alloc; "{left}, {right}")?)
        }
        Node::Group { child, .. } => over(alloc, &said, tree_text(alloc, child.get())?),
        Node::Count { child } => over(alloc, &said, tree_text(alloc, child.get())?),
        Node::Distinct { child } => over(alloc, &said, tree_text(alloc, child.get())?),
        Node::Number { child, .. } => over(alloc, &said, tree_text(alloc, child.get())?),
        Node::Top { child, .. } => over(alloc, &said, tree_text(alloc, child.get())?),
    }
}

/// A query and its tree.
const PLANS: &[(&str, &str)] = &[
    (
        "WITH a AS (SELECT pid FROM med) SELECT COUNT(*) FROM t;",
        "top [] None (count (project [] (scan 0)))",
    ),
    (
        "SELECT code, COUNT(*) AS n FROM diag GROUP BY code HAVING COUNT(*) >= 3;",
        "top [] None (group [0] Some(3) (project [1] (scan 1)))",
    ),
    (
        "SELECT pid FROM diag GROUP BY pid, pid ORDER BY pid DESC, pid LIMIT 2;",
        "top [Key { column: 0, down: true }] Some(2) (project [0] (group [0] None (project [0] (scan 1))))",
    ),
    (
        "SELECT d.pid FROM diag d JOIN med m ON d.pid = m.pid WHERE d.code = 'flu' AND d.day < m.day AND m.day > 3;",
        "top [] None (project [0] (filter 1 (join 1 (project [0, 2] (filter 1 (scan 1)), project [0, 2] (filter 1 (scan 2))))))",
    ),
    (
        RECURRENT,
        "top [Key { column: 0, down: false }] None (distinct (project [0] (filter 2 (join 2 (number [0] [Key { column: 1, down: false }] (project [0, 2] (filter 1 (scan 1))), number [0] [Key { column: 1, down: false }] (project [0, 2] (filter 1 (scan 1))))))))",
    ),
    // a scope of three tables of eight columns
    (
        "SELECT u.a FROM u JOIN v ON u.a = v.a JOIN w ON v.h = w.h WHERE w.b = 5;",
        "top [] None (project [0] (join 1 (join 1 (project [0] (scan 5), project [0, 7] (scan 6)), project [7] (filter 1 (scan 7)))))",
    ),
];

#[test]
fn a_query_has_this_plan(rt: HostRuntime) -> Result<(), Fail> {
    let alloc = rt.alloc();
    let schema = schema_of(alloc, SCHEMA)?;
    for (text, wanted) in PLANS {
        let plan = bound(alloc, &schema, text)?;
        assert_eq!(rt; tree_text(alloc, &plan.root)?.as_str(), *wanted);
    }
    Ok(())
}
