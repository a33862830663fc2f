//! The trees of segments.
ghost use Rattle.std.specs.Prelude.{◌≡◌};
ghost use Rattle.std.specs.Option.{option_copied};
ghost use Rattle.pdn_tree.specs.declared.node.Node.{out-Node};
ghost use Rattle.pdn_level.specs.Cutting.{child_of};
ghost use Rattle.pdn_site.specs.Compiling.{node_at};

use pdn_tree::Node;

/// What a node reads at a step of the way down: 0 is the only or the left child, 1 the right one.
fn child_of(node: &Node, way: u8) -> Option<&Node>
    ensures { option_copied result ≡ child_of way (out-Node node.now) }
{
    match node {
        Node::Scan { .. } => None,
        Node::Join { left, right, .. } => {
            if way == 0 {
                Some(left.get())
            } else {
                Some(right.get())
            }
        }
        Node::Filter { child, .. }
        | Node::Project { child, .. }
        | Node::Group { child, .. }
        | Node::Count { child }
        | Node::Distinct { child }
        | Node::Number { child, .. }
        | Node::Top { child, .. } => Some(child.get()),
    }
}

/// The tree at the end of a way from the root.
pub fn node_at<'a>(root: &'a Node, path: &[u8]) -> &'a Node
    ensures { result.now ≡ node_at path.now root.now }
{
    match path.split_first() {
        None => root,
        Some((way, rest)) => match child_of(root, *way) {
            None => node_at(root, rest),
            Some(child) => node_at(child, rest),
        },
    }
}
