//! The tree of a block, and what it gives to later ones.

ghost use Rattle.std.specs.Prelude.{◌≡◌, IfOk, length, map};
ghost use Rattle.pdn_tree.specs.Columns.{place_in, has, clauses_at};
ghost use Rattle.pdn_plan.specs.Splitting.{left_over, split};
ghost use Rattle.pdn_plan.specs.Names.{place, placed};
ghost use Rattle.pdn_plan.specs.Steps.{items_at, output_name};
ghost use Rattle.pdn_plan.specs.Planning.{named, sources_node, step_columns, chosen_node, block_node, what_kind, block_gives};
ghost use Rattle.pdn_plan.specs.Keeping.{least_tree, deepened, stand_in, capped, capped_relation};

use crate::Node;
use crate::names::{col_kind, placed};
use crate::refusals::output_name;
use crate::scope::{Bound, Given, Relation, Seen};
use crate::split::{Renaming, clauses_at, left_over};
use crate::steps::{
    Step, items_at, kept_columns, make_step, named_columns, step_columns, step_of, step_width,
};
use crate::tree::{cut_to, distinct_if, filtered, sources_node};
use pdn_base::{Cond, Kind, Memory};
use pdn_sql::{Block, Item, What};
use pdn_tree::{has_join_in, make_distinct, make_join, nodes_of};
use sqlite_items::Items;
use std::alloc::Global;

fn rest_of(alloc: Global, scope: &[Seen], bounds: &[Bound], block: &Block) -> Result<Cond, Memory>
    ensures { IfOk result (λ c. c ≡ left_over 0 (placed scope.now block.now.filter) bounds.now) }
{
    let asked = placed(alloc, scope, block.filter.as_slice())?;
    left_over(alloc, 0, asked, bounds)
}

fn joined(alloc: Global, scope: &[Seen], bounds: &[Bound], block: &Block) -> Result<Node, Memory>
    ensures { IfOk result (λ n. n ≡ sources_node
        (split (has (named scope.now bounds.now block.now)) 0 (placed scope.now block.now.filter)
        bounds.now)) }
{
    let needed = named_columns(alloc, scope, bounds, block)?;
    let asked = placed(alloc, scope, block.filter.as_slice())?;
    sources_node(alloc, needed.as_slice(), asked, bounds)
}

fn among(alloc: Global, kept: Vec<u32>, rest: &Cond) -> Result<Cond, Memory>
    ensures { IfOk result (λ c. c ≡ clauses_at (place_in kept.items) rest.now) }
{
    let by = Renaming::Among(Items::from_vec(kept));
    clauses_at(alloc, &by, rest)
}

fn chosen_node(
    alloc: Global,
    scope: &[Seen],
    bounds: &[Bound],
    block: &Block,
) -> Result<Node, Memory>
    ensures { IfOk result (λ n. n ≡ chosen_node scope.now bounds.now block.now) }
{
    let kept = kept_columns(alloc, scope, bounds, block)?;
    let rest = rest_of(alloc, scope, bounds, block)?;
    let asked = among(alloc, kept, &rest)?;
    let tree = joined(alloc, scope, bounds, block)?;
    let chosen = filtered(alloc, asked, tree)?;
    Ok(chosen)
}

fn items_of(
    alloc: Global,
    scope: &[Seen],
    kept: &[u32],
    step: &Step,
    items: &[Item],
) -> Result<Vec<u32>, Memory>
    ensures { IfOk result (λ out. out.items
        ≡ items_at (λ c. place_in (step_columns kept.now step.now) (place scope.now c)) (length
        (step_columns kept.now step.now)) items.now) }
{
    let columns = step_columns(alloc, kept, step)?;
    items_at(alloc, scope, columns.as_slice(), items)
}

/// The tree of a block.
pub fn block_node(
    alloc: Global,
    scope: &[Seen],
    bounds: &[Bound],
    block: &Block,
) -> Result<Node, Memory>
    ensures { IfOk result (λ n. n ≡ block_node scope.now bounds.now block.now) }
{
    let kept = kept_columns(alloc, scope, bounds, block)?;
    let step = step_of(alloc, scope, block)?;
    let chosen = chosen_node(alloc, scope, bounds, block)?;
    let tree = make_step(alloc, kept.as_slice(), &step, chosen)?;
    let items = items_of(alloc, scope, kept.as_slice(), &step, block.items.as_slice())?;
    let width = step_width(kept.as_slice(), &step)?;
    let cut = cut_to(alloc, width, items, tree)?;
    let node = distinct_if(alloc, block.distinct, cut)?;
    Ok(node)
}

/// The kind of an item.
pub fn what_kind(scope: &[Seen], what: &What) -> Kind
    ensures { result ≡ what_kind scope.now what.now }
{
    match what {
        What::Column(col) => col_kind(scope, col),
        What::Count => Kind::Int,
        What::Number {
            partition: _,
            order: _,
        } => Kind::Int,
    }
}

fn given_by(alloc: Global, scope: &[Seen], items: &[Item]) -> Result<Vec<Given>, Memory>
    ensures { IfOk result (λ out. out.items
        ≡ map (λ i. record { name = output_name i; kind = what_kind scope.now i.what }) items.now) }
{
    let mut out = Vec::new(alloc);
    for item in items {
        let name = output_name(alloc, item)?;
        out.push(Given {
            name,
            kind: what_kind(scope, &item.what),
        })?;
    }
    Ok(out)
}

fn least_tree(alloc: Global, joins: bool) -> Result<Node, Memory>
    ensures { IfOk result (λ n. n ≡ least_tree joins) }
{
    if joins {
        let all = Vec::new(alloc);
        return make_join(
            alloc,
            Node::Scan { table: 0 },
            Node::Scan { table: 0 },
            &Cond { all },
        );
    }
    Ok(Node::Scan { table: 0 })
}

fn deepened(alloc: Global, count: u32, tree: Node) -> Result<Node, Memory>
    ensures { IfOk result (λ n. n ≡ deepened count tree) }
{
    if count == 0 {
        return Ok(tree);
    }
    let child = deepened(alloc, count - 1, tree)?;
    let deeper = make_distinct(alloc, child)?;
    Ok(deeper)
}

fn stand_in(alloc: Global, joins: bool) -> Result<Node, Memory>
    ensures { IfOk result (λ n. n ≡ stand_in joins) }
{
    let tree = least_tree(alloc, joins)?;
    let deep = deepened(alloc, 32, tree)?;
    Ok(deep)
}

#[tactic(auto, unfolding(crate::specs::Keeping::capped))]
fn capped(alloc: Global, tree: Node) -> Result<Node, Memory>
    ensures { IfOk result (λ n. n ≡ capped tree) }
{
    if 32 < nodes_of(&tree)? {
        return stand_in(alloc, has_join_in(&tree));
    }
    Ok(tree)
}

/// What a block gives, its tree kept as far as a plan may go.
pub fn kept_relation(
    alloc: Global,
    scope: &[Seen],
    bounds: &[Bound],
    block: &Block,
) -> Result<Relation, Memory>
    ensures { IfOk result (λ r. r ≡ capped_relation (block_gives scope.now bounds.now block.now)) }
{
    let columns = Items::from_vec(given_by(alloc, scope, block.items.as_slice())?);
    let tree = block_node(alloc, scope, bounds, block)?;
    let plan = capped(alloc, tree)?;
    Ok(Relation { columns, plan })
}
