//! The levels of trees, and the segments of plans.
use crate::plans::{SCHEMA, bound, schema_of};
use pdn_base::Label;
use pdn_level::{level_of, levels};
use pdn_plan::{Node, Plan, labels_of};
use pdn_schema::Schema;
use std::alloc::Global;
use std::test::Fail;

/// The levels of a plan's root and of the three trees below it, each the only or the left one.
fn levels_text(alloc: Global, schema: &Schema, plan: &Plan) -> Result<String, Fail> {
    let mut text = String::new(alloc);
    let mut node = &plan.root;
    for _ in 0..4 {
        let level = level_of(alloc, node, schema)?;
        text.push_str(&format!(in alloc; "{level:?};")?)?;
        node = match node {
            Node::Top { child, .. }
            | Node::Project { child, .. }
            | Node::Distinct { child }
            | Node::Count { child } => child.get(),
            Node::Join { left, .. } => left.get(),
            _ => node,
        };
    }
    Ok(text)
}

/// A plan's segments: of each the way from the root, and how many leaves it has.
fn segments_text(alloc: Global, schema: &Schema, plan: &Plan) -> Result<String, Fail> {
    let staged = levels(alloc, schema, plan)?.copy(alloc)?;
    let mut text = String::new(alloc);
    for segment in &staged.segments {
        text.push_str(&format!(in alloc; "{:?} {};", segment.path, segment.leaves.len())?)?;
    }
    Ok(text)
}

/// A query, its levels and its segments.
const LEVELS: &[(&str, &str, &str)] = &[
    (
        "SELECT DISTINCT pid FROM diag;",
        "Secure;Sliced;Local;Local;",
        "[0] 1;",
    ),
    (
        "SELECT COUNT(*) FROM diag;",
        "Secure;Secure;Local;Local;",
        "",
    ),
    // a join on a private column below a projection
    (
        "SELECT a.y FROM wide a JOIN wide b ON a.x = b.x;",
        "Secure;Secure;Secure;Local;",
        "",
    ),
    // segments stand below secure nodes, in post-order
    (
        "WITH m AS (SELECT DISTINCT pid FROM med), d AS (SELECT DISTINCT pid FROM diag) SELECT m.pid FROM m JOIN d ON m.pid < d.pid;",
        "Secure;Secure;Secure;Sliced;",
        "[0, 0, 0] 1;[0, 0, 1] 1;",
    ),
];

#[test]
fn a_query_has_these_levels_and_segments(rt: HostRuntime) -> Result<(), Fail> {
    let alloc = rt.alloc();
    let schema = schema_of(alloc, SCHEMA)?;
    let labels = labels_of(alloc, &schema, &Node::Scan { table: 1 })?;
    let wanted = [Label::Public, Label::Protected, Label::Private];
    assert_eq!(rt; labels.as_slice(), wanted.as_slice());
    for (text, wanted, segments) in LEVELS {
        let plan = bound(alloc, &schema, text)?;
        assert_eq!(rt; levels_text(alloc, &schema, &plan)?.as_str(), *wanted);
        assert_eq!(rt; segments_text(alloc, &schema, &plan)?.as_str(), *segments);
    }
    Ok(())
}
