//! Binding: the plan of a query, or why it has none.

ghost use Rattle.std.specs.Prelude.{◌≡◌, ◌++◌, ◌∷◌, [], ◌||◌, nat_lt, true, map, is_some, None, IfOk, MatchResult};
ghost use Rattle.pdn_tree.specs.Shapes.{nodes, is_top, tops, fits};
ghost use Rattle.pdn_plan.specs.Steps.{output_name};
ghost use Rattle.pdn_tree.specs.Plans.{forbidden};
ghost use Rattle.pdn_plan.specs.Answer.{IsWritten};
ghost use Rattle.pdn_plan.specs.Names.{or_else, refuse_if};
ghost use Rattle.pdn_plan.specs.Planning.{relation, scope_of, bounds, block_node, block_gives, block_relation, bound_with, topped, root};
ghost use Rattle.pdn_plan.specs.Binding.{is_some_of, repeat_refusal, block_refusal, with_refusal, main_refusal, refusal, BindGives};
ghost use Rattle.pdn_plan.specs.Keeping.{AreKept, all_kept, kept_as, with_refusals, main_tree, main_refusals, Tells, Forbids};

use crate::Node;
use crate::answer::{answer_columns, order_keys, released, shown};
use crate::block::{block_node, kept_relation};
use crate::names::refuse_if;
use crate::plan_err::PlanErr;
use crate::refusals::{after_sources, kind_seven, order_refusals, output_names, repeat_refusal};
use crate::scope::{Bound, Earlier, Refusal, Seen};
use crate::sources::{bounds, joins_below, relation, scope_of, sources_refusal};
use pdn_base::Memory;
use pdn_schema::Schema;
use pdn_sql::{Block, Named, Query, Text};
use pdn_tree::{OutColumn, Plan, make_top, nodes_of};
use std::alloc::Global;

fn pass(alloc: Global, refusal: Option<Refusal>) -> Result<(), PlanErr>
    ensures { MatchResult result (λ _. refusal ≡ None) (Tells refusal) }
{
    match refusal {
        None => Ok(()),
        Some(r) => {
            let name = shown(alloc, &r.name)?;
            Err(PlanErr::Refused { kind: r.kind, name })
        }
    }
}

fn block_refusal(
    alloc: Global,
    schema: &Schema,
    earlier: &[Earlier],
    scope: &[Seen],
    bound: &[Bound],
    block: &Block,
) -> Result<Option<Refusal>, Memory>
    requires scope { scope.now ≡ scope_of schema.now earlier.now block.now.sources }
    requires bound { bound.now ≡ bounds schema.now earlier.now [] block.now.sources }
    ensures { IfOk result (λ r. r ≡ block_refusal schema.now earlier.now block.now) }
{
    let of_sources = sources_refusal(alloc, schema, earlier, block.sources.as_slice())?;
    if of_sources.is_some() {
        return Ok(of_sources);
    }
    let joins = joins_below(bound);
    let later = after_sources(alloc, scope, bound, block, joins)?;
    Ok(later)
}

fn named_refusal(
    alloc: Global,
    schema: &Schema,
    earlier: &[Earlier],
    named: &Named,
) -> Result<Option<Refusal>, Memory>
    ensures { IfOk result (λ r. r
        ≡ or_else (refuse_if (is_some_of named.now.block.order || is_some named.now.block.limit) 7
        named.now.name.text)
        (or_else (refuse_if (is_some (relation schema.now earlier.now named.now.name.text)) 3
        named.now.name.text) (repeat_refusal [] (map output_name named.now.block.items)))) }
{
    let listed = kind_seven(alloc, named)?;
    if listed.is_some() {
        return Ok(listed);
    }
    let found = relation(alloc, schema, earlier, &named.name.text)?;
    let taken = refuse_if(alloc, found.is_some(), 3, &named.name.text)?;
    if taken.is_some() {
        return Ok(taken);
    }
    let names = output_names(alloc, named.block.items.as_slice())?;
    repeat_refusal(alloc, names.as_slice())
}

fn with_refusal(
    alloc: Global,
    schema: &Schema,
    earlier: &[Earlier],
    scope: &[Seen],
    bound: &[Bound],
    named: &Named,
) -> Result<Option<Refusal>, Memory>
    requires scope { scope.now ≡ scope_of schema.now earlier.now named.now.block.sources }
    requires bound { bound.now ≡ bounds schema.now earlier.now [] named.now.block.sources }
    ensures { IfOk result (λ r. r ≡ with_refusal schema.now earlier.now named.now) }
{
    let of_block = block_refusal(alloc, schema, earlier, scope, bound, &named.block)?;
    if of_block.is_some() {
        return Ok(of_block);
    }
    named_refusal(alloc, schema, earlier, named)
}

fn kept_block(
    alloc: Global,
    scope: &[Seen],
    bound: &[Bound],
    named: &Named,
) -> Result<Earlier, Memory>
    ensures { IfOk result (λ e. e
        ≡ kept_as (record {
          name = named.now.name.text;
          gives = block_gives scope.now bound.now named.now.block;
        })) }
{
    let name = named.name.text.copy(alloc)?;
    let gives = kept_relation(alloc, scope, bound, &named.block)?;
    Ok(Earlier { name, gives })
}

fn bind_block(
    alloc: Global,
    schema: &Schema,
    earlier: &[Earlier],
    named: &Named,
) -> Result<Earlier, PlanErr>
    ensures { MatchResult result (λ e. (with_refusal schema.now earlier.now named.now ≡ None)
        × (e ≡ kept_as (record {
          name = named.now.name.text;
          gives = block_relation schema.now earlier.now named.now.block;
        })))
        (Tells (with_refusal schema.now earlier.now named.now)) }
{
    let sources = named.block.sources.as_slice();
    let scope = scope_of(alloc, schema, earlier, sources)?;
    let bound = bounds(alloc, schema, earlier, sources)?;
    let refusal = with_refusal(
        alloc,
        schema,
        earlier,
        scope.as_slice(),
        bound.as_slice(),
        named,
    )?;
    pass(alloc, refusal)?;
    Ok(kept_block(alloc, scope.as_slice(), bound.as_slice(), named)?)
}

fn with_block(earlier: Vec<Earlier>, block: Earlier) -> Result<Vec<Earlier>, Memory>
    ensures { IfOk result (λ out. out.items ≡ earlier.items ++ block ∷ []) }
{
    let mut out = earlier;
    out.push(block)?;
    Ok(out)
}

fn bind_with(
    alloc: Global,
    schema: &Schema,
    earlier: Vec<Earlier>,
    with: &[Named],
) -> Result<Vec<Earlier>, PlanErr>
    requires { AreKept earlier.items }
    ensures { MatchResult result (λ es. (with_refusals schema.now earlier.items with.now ≡ None)
        × (es.items ≡ all_kept (bound_with schema.now earlier.items with.now)))
        (Tells (with_refusals schema.now earlier.items with.now)) }
{
    match with.split_first() {
        None => Ok(earlier),
        Some((named, rest)) => {
            let block = bind_block(alloc, schema, earlier.as_slice(), named)?;
            let more = with_block(earlier, block)?;
            bind_with(alloc, schema, more, rest)
        }
    }
}

fn main_refusal(
    alloc: Global,
    schema: &Schema,
    earlier: &[Earlier],
    scope: &[Seen],
    bound: &[Bound],
    main: &Block,
) -> Result<Option<Refusal>, Memory>
    requires scope { scope.now ≡ scope_of schema.now earlier.now main.now.sources }
    requires bound { bound.now ≡ bounds schema.now earlier.now [] main.now.sources }
    ensures { IfOk result (λ r. r ≡ main_refusal schema.now earlier.now main.now) }
{
    let of_block = block_refusal(alloc, schema, earlier, scope, bound, main)?;
    if of_block.is_some() {
        return Ok(of_block);
    }
    let names = output_names(alloc, main.items.as_slice())?;
    order_refusals(alloc, names.as_slice(), main.order.as_slice())
}

fn topped(alloc: Global, scope: &[Seen], bound: &[Bound], main: &Block) -> Result<Node, Memory>
    ensures { IfOk result (λ n. n ≡ topped main.now (block_node scope.now bound.now main.now)) }
{
    let tree = block_node(alloc, scope, bound, main)?;
    let names = output_names(alloc, main.items.as_slice())?;
    let order = order_keys(alloc, names.as_slice(), main.order.as_slice())?;
    make_top(alloc, tree, order.as_slice(), main.limit)
}

fn size_refusal(alloc: Global, root: &Node) -> Result<Option<Refusal>, Memory>
    ensures { IfOk result (λ r. r ≡ refuse_if (nat_lt 32 (nodes root.now)) 8 []) }
{
    let none = Text::of(Vec::new(alloc));
    refuse_if(alloc, 32 < nodes_of(root)?, 8, &none)
}

#[tactic(auto, using(crate::proofs::BindingLaws::main_size))]
fn sized_tree(
    alloc: Global,
    schema: &Schema,
    earlier: &[Earlier],
    scope: &[Seen],
    bound: &[Bound],
    main: &Block,
) -> Result<Node, PlanErr>
    requires scope { scope.now ≡ scope_of schema.now earlier.now main.now.sources }
    requires bound { bound.now ≡ bounds schema.now earlier.now [] main.now.sources }
    requires passes { main_refusal schema.now earlier.now main.now ≡ None }
    ensures { MatchResult result (λ n. (main_refusals schema.now earlier.now main.now ≡ None)
        × (n ≡ main_tree schema.now earlier.now main.now))
        (Tells (main_refusals schema.now earlier.now main.now)) }
{
    let tree = topped(alloc, scope, bound, main)?;
    let size = size_refusal(alloc, &tree)?;
    match pass(alloc, size) {
        Err(e) => Err(e),
        Ok(()) => Ok(tree),
    }
}

#[tactic(auto, using(crate::proofs::BindingLaws::main_first))]
fn bind_main(
    alloc: Global,
    schema: &Schema,
    earlier: &[Earlier],
    scope: &[Seen],
    main: &Block,
) -> Result<Node, PlanErr>
    requires scope { scope.now ≡ scope_of schema.now earlier.now main.now.sources }
    ensures { MatchResult result (λ n. (main_refusals schema.now earlier.now main.now ≡ None)
        × (n ≡ main_tree schema.now earlier.now main.now))
        (Tells (main_refusals schema.now earlier.now main.now)) }
{
    let bound = bounds(alloc, schema, earlier, main.sources.as_slice())?;
    let refusal = main_refusal(alloc, schema, earlier, scope, bound.as_slice(), main)?;
    match pass(alloc, refusal) {
        Err(e) => Err(e),
        Ok(()) => sized_tree(alloc, schema, earlier, scope, bound.as_slice(), main),
    }
}

fn released_plan(alloc: Global, root: Node, columns: Vec<OutColumn>) -> Result<Plan, PlanErr>
    requires top { is_top root ≡ true }
    requires one { tops root ≡ 1 }
    ensures { MatchResult result (λ p. (forbidden columns.items ≡ None)
        × (p ≡ record { root = root; columns = columns.items }))
        (Forbids (forbidden columns.items)) }
{
    released(alloc, columns.as_slice())?;
    Ok(Plan { root, columns })
}

fn released_root(
    alloc: Global,
    schema: &Schema,
    query: &Query,
    scope: &[Seen],
    tree: Node,
) -> Result<Plan, PlanErr>
    requires passes { refusal schema.now query.now ≡ None }
    requires root { tree ≡ root schema.now query.now }
    requires scope { scope.now ≡ scope_of schema.now (bound_with schema.now [] query.now.with)
        query.now.main.sources }
    ensures { BindGives schema.now query.now result }
{
    let items = query.main.items.as_slice();
    let columns = answer_columns(alloc, schema, scope, &tree, items)?;
    released_plan(alloc, tree, columns)
}

#[tactic(auto, using(crate::proofs::BindingLaws::tells_main, crate::proofs::BindingLaws::passes_by_kept, crate::proofs::BindingLaws::root_is, crate::proofs::BindingLaws::scope_is))]
fn bind_after(
    alloc: Global,
    schema: &Schema,
    earlier: &[Earlier],
    query: &Query,
) -> Result<Plan, PlanErr>
    requires passes { with_refusals schema.now [] query.now.with ≡ None }
    requires kept { earlier.now ≡ all_kept (bound_with schema.now [] query.now.with) }
    ensures { BindGives schema.now query.now result }
{
    let scope = scope_of(alloc, schema, earlier, query.main.sources.as_slice())?;
    match bind_main(alloc, schema, earlier, scope.as_slice(), &query.main) {
        Err(e) => Err(e),
        Ok(root) => released_root(alloc, schema, query, scope.as_slice(), root),
    }
}

#[tactic(auto, using(crate::proofs::BindingLaws::tells_with))]
fn bind_query(alloc: Global, schema: &Schema, query: &Query) -> Result<Plan, PlanErr>
    ensures { BindGives schema.now query.now result }
{
    match bind_with(alloc, schema, Vec::new(alloc), query.with.as_slice()) {
        Err(e) => Err(e),
        Ok(earlier) => bind_after(alloc, schema, earlier.as_slice(), query),
    }
}

/// The plan of a query, where no rule of binding is broken and every column of its answer is public.
///
/// Errors: the first rule that is broken, else the first column that isn't public; and want of memory.
pub fn bind(alloc: Global, schema: &Schema, query: &Query) -> Result<Plan, PlanErr>
    ensures gives { BindGives schema.now query.now result }
    ensures fits { IsWritten query.now → IfOk result (λ p. fits schema.now p.root ≡ true) }
{
    // what a schema keeps is known once it is looked at
    let _floor = schema.floor;
    bind_query(alloc, schema, query)
}
