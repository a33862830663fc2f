//! The sources of a block: what their names stand for, and what they bring.

ghost use Rattle.std.specs.Prelude.{◌≡◌, ◌++◌, ◌∷◌, [], IfOk, map, is_none};
ghost use Rattle.std.specs.List.{list_any};
ghost use Rattle.pdn_schema.specs.Names.{is_among};
ghost use Rattle.pdn_plan.specs.Names.{or_else, refuse_if, cond_refusal, placed};
ghost use Rattle.pdn_plan.specs.Planning.{given_column, table_from, relation, columns_of, plan_of, source_name, seen_as, seen_by, scope_of, bounds};
ghost use Rattle.pdn_tree.specs.Shapes.{has_join};
ghost use Rattle.pdn_plan.specs.Binding.{sources_refusal, joins_below};
ghost use Rattle.pdn_tree.specs.declared.node.Node.TheVariants as node;

use crate::Node;
use crate::names::{cond_refusal, placed, refuse_if};
use crate::refusals::is_among;
use crate::scope::{Bound, Earlier, Given, Refusal, Relation, Seen};
use crate::steps::count_of;
use pdn_base::Memory;
use pdn_schema::{Column, Schema, Table};
use pdn_sql::{Source, SqlClause, Text};
use pdn_tree::has_join_in;
use sqlite_items::Items;
use std::alloc::Global;

fn given_columns(alloc: Global, columns: &[Column]) -> Result<Vec<Given>, Memory>
    ensures { IfOk result (λ out. out.items ≡ map given_column columns.now) }
{
    let mut out = Vec::new(alloc);
    for column in columns {
        let name = Text::of(Vec::from_slice(alloc, column.name.as_bytes())?);
        out.push(Given {
            name,
            kind: column.kind,
        })?;
    }
    Ok(out)
}

fn table_relation(alloc: Global, at: u32, columns: &[Column]) -> Result<Relation, Memory>
    ensures { IfOk result (λ r. r ≡ record {
      columns = map given_column columns.now;
      plan = node.Scan at;
    }) }
{
    let columns = Items::from_vec(given_columns(alloc, columns)?);
    Ok(Relation {
        columns,
        plan: Node::Scan { table: at },
    })
}

fn table_from(
    alloc: Global,
    at: u32,
    tables: &[Table],
    name: &Text,
) -> Result<Option<Relation>, Memory>
    ensures { IfOk result (λ r. r ≡ table_from at tables.now name.now) }
{
    match tables.split_first() {
        None => Ok(None),
        Some((table, rest)) => {
            if name.as_bytes() == table.name.as_bytes() {
                return Ok(Some(table_relation(alloc, at, table.columns.as_slice())?));
            }
            if at == u32::MAX {
                return Err(Memory);
            }
            table_from(alloc, at + 1, rest, name)
        }
    }
}

fn copy_columns(alloc: Global, columns: &[Given]) -> Result<Vec<Given>, Memory>
    ensures { IfOk result (λ out. out.items ≡ columns.now) }
{
    let mut out = Vec::new(alloc);
    for column in columns {
        let name = column.name.copy(alloc)?;
        out.push(Given {
            name,
            kind: column.kind,
        })?;
    }
    Ok(out)
}

fn copy_relation(alloc: Global, relation: &Relation) -> Result<Relation, Memory>
    ensures { IfOk result (λ r. r ≡ relation.now) }
{
    let columns = Items::from_vec(copy_columns(alloc, relation.columns.as_slice())?);
    let plan = relation.plan.copy(alloc)?;
    Ok(Relation { columns, plan })
}

/// What a name in FROM stands for: an earlier block of WITH, or a table.
pub fn relation(
    alloc: Global,
    schema: &Schema,
    earlier: &[Earlier],
    name: &Text,
) -> Result<Option<Relation>, Memory>
    ensures { IfOk result (λ r. r ≡ relation schema.now earlier.now name.now) }
{
    match earlier.split_first() {
        None => table_from(alloc, 0, schema.tables.as_slice(), name),
        Some((block, rest)) => {
            if name.as_bytes() == block.name.as_bytes() {
                return Ok(Some(copy_relation(alloc, &block.gives)?));
            }
            relation(alloc, schema, rest, name)
        }
    }
}

fn source_name(source: &Source) -> &Text
    ensures { result.now ≡ source_name source.now }
{
    match &source.alias {
        None => &source.name.text,
        Some(alias) => &alias.text,
    }
}

fn seen_as(alloc: Global, alias: &Text, columns: &[Given]) -> Result<Vec<Seen>, Memory>
    ensures { IfOk result (λ out. out.items ≡ seen_as alias.now columns.now) }
{
    let mut out = Vec::new(alloc);
    for column in columns {
        let of = alias.copy(alloc)?;
        let name = column.name.copy(alloc)?;
        out.push(Seen {
            of,
            name,
            kind: column.kind,
        })?;
    }
    Ok(out)
}

fn seen_of(alloc: Global, alias: &Text, found: &Option<Relation>) -> Result<Vec<Seen>, Memory>
    ensures { IfOk result (λ out. out.items ≡ seen_as alias.now (columns_of found.now)) }
{
    match found {
        None => Ok(Vec::new(alloc)),
        Some(relation) => seen_as(alloc, alias, relation.columns.as_slice()),
    }
}

fn seen_by(
    alloc: Global,
    schema: &Schema,
    earlier: &[Earlier],
    source: &Source,
) -> Result<Vec<Seen>, Memory>
    ensures { IfOk result (λ out. out.items ≡ seen_by schema.now earlier.now source.now) }
{
    let found = relation(alloc, schema, earlier, &source.name.text)?;
    seen_of(alloc, source_name(source), &found)
}

/// The columns of all sources, side by side.
pub fn scope_of(
    alloc: Global,
    schema: &Schema,
    earlier: &[Earlier],
    sources: &[Source],
) -> Result<Vec<Seen>, Memory>
    ensures { IfOk result (λ out. out.items ≡ scope_of schema.now earlier.now sources.now) }
{
    match sources.split_first() {
        None => Ok(Vec::new(alloc)),
        Some((source, rest)) => {
            let mut out = seen_by(alloc, schema, earlier, source)?;
            let mut more = scope_of(alloc, schema, earlier, rest)?;
            out.append(&mut more)?;
            Ok(out)
        }
    }
}

fn unknown_refusal(
    alloc: Global,
    found: &Option<Relation>,
    source: &Source,
) -> Result<Option<Refusal>, Memory>
    ensures { IfOk result (λ r. r ≡ refuse_if (is_none found.now) 1 source.now.name.text) }
{
    refuse_if(alloc, found.is_none(), 1, &source.name.text)
}

fn taken_refusal(alloc: Global, before: &[Text], source: &Source) -> Result<Option<Refusal>, Memory>
    ensures { IfOk result (λ r. r ≡ refuse_if (is_among before.now (source_name source.now)) 3
        (source_name source.now)) }
{
    let name = source_name(source);
    refuse_if(alloc, is_among(before, name), 3, name)
}

fn source_refusal(
    alloc: Global,
    found: &Option<Relation>,
    before: &[Text],
    scope: &[Seen],
    source: &Source,
) -> Result<Option<Refusal>, Memory>
    ensures { IfOk result (λ r. r ≡ or_else (refuse_if (is_none found.now) 1 source.now.name.text)
        (or_else (refuse_if (is_among before.now (source_name source.now)) 3
        (source_name source.now)) (cond_refusal scope.now source.now.on))) }
{
    let unknown = unknown_refusal(alloc, found, source)?;
    if unknown.is_some() {
        return Ok(unknown);
    }
    let taken = taken_refusal(alloc, before, source)?;
    if taken.is_some() {
        return Ok(taken);
    }
    cond_refusal(alloc, scope, source.on.as_slice())
}

fn with_name(alloc: Global, before: Vec<Text>, name: &Text) -> Result<Vec<Text>, Memory>
    ensures { IfOk result (λ out. out.items ≡ before.items ++ name.now ∷ []) }
{
    let mut out = before;
    out.push(name.copy(alloc)?)?;
    Ok(out)
}

fn with_seen(scope: Vec<Seen>, more: Vec<Seen>) -> Result<Vec<Seen>, Memory>
    ensures { IfOk result (λ out. out.items ≡ scope.items ++ more.items) }
{
    let mut out = scope;
    let mut more = more;
    out.append(&mut more)?;
    Ok(out)
}

fn refusal_after(
    alloc: Global,
    schema: &Schema,
    earlier: &[Earlier],
    before: Vec<Text>,
    scope: Vec<Seen>,
    sources: &[Source],
) -> Result<Option<Refusal>, Memory>
    ensures { IfOk result (λ r. r ≡ sources_refusal schema.now earlier.now before.items scope.items
        sources.now) }
{
    match sources.split_first() {
        None => Ok(None),
        Some((source, rest)) => {
            let found = relation(alloc, schema, earlier, &source.name.text)?;
            let scope = with_seen(scope, seen_of(alloc, source_name(source), &found)?)?;
            let here = source_refusal(alloc, &found, before.as_slice(), scope.as_slice(), source)?;
            if here.is_some() {
                return Ok(here);
            }
            let before = with_name(alloc, before, source_name(source))?;
            let later = refusal_after(alloc, schema, earlier, before, scope, rest)?;
            Ok(later)
        }
    }
}

/// Why the sources of a block can't stand: the first from the left that can't.
pub fn sources_refusal(
    alloc: Global,
    schema: &Schema,
    earlier: &[Earlier],
    sources: &[Source],
) -> Result<Option<Refusal>, Memory>
    ensures { IfOk result (λ r. r ≡ sources_refusal schema.now earlier.now [] [] sources.now) }
{
    refusal_after(
        alloc,
        schema,
        earlier,
        Vec::new(alloc),
        Vec::new(alloc),
        sources,
    )
}

fn plan_of(found: Option<Relation>) -> Node
    ensures { result ≡ plan_of found }
{
    match found {
        None => Node::Scan { table: 0 },
        Some(relation) => relation.plan,
    }
}

fn bound_of(
    alloc: Global,
    found: Option<Relation>,
    width: u32,
    scope: &[Seen],
    on: &[SqlClause],
) -> Result<Bound, Memory>
    ensures { IfOk result (λ b. b ≡ record {
      plan = plan_of found;
      width = width;
      on = placed scope.now on.now;
    }) }
{
    let on = placed(alloc, scope, on)?;
    Ok(Bound {
        plan: plan_of(found),
        width,
        on,
    })
}

fn bounds_after(
    alloc: Global,
    schema: &Schema,
    earlier: &[Earlier],
    scope: Vec<Seen>,
    sources: &[Source],
) -> Result<Vec<Bound>, Memory>
    ensures { IfOk result (λ out. out.items ≡ bounds schema.now earlier.now scope.items
        sources.now) }
{
    match sources.split_first() {
        None => Ok(Vec::new(alloc)),
        Some((source, rest)) => {
            let found = relation(alloc, schema, earlier, &source.name.text)?;
            let seen = seen_of(alloc, source_name(source), &found)?;
            let width = count_of(seen.as_slice())?;
            let scope = with_seen(scope, seen)?;
            let here = bound_of(alloc, found, width, scope.as_slice(), source.on.as_slice())?;
            let mut out = Vec::new(alloc);
            out.push(here)?;
            let mut more = bounds_after(alloc, schema, earlier, scope, rest)?;
            out.append(&mut more)?;
            Ok(out)
        }
    }
}

/// The sources of a block, each ON by the columns of the sources up to it.
pub fn bounds(
    alloc: Global,
    schema: &Schema,
    earlier: &[Earlier],
    sources: &[Source],
) -> Result<Vec<Bound>, Memory>
    ensures { IfOk result (λ out. out.items ≡ bounds schema.now earlier.now [] sources.now) }
{
    bounds_after(alloc, schema, earlier, Vec::new(alloc), sources)
}

fn some_join(bounds: &[Bound]) -> bool
    ensures { result ≡ list_any (λ s. has_join s.plan) bounds.now }
{
    bounds.iter().any(
        |bound: &Bound| -> bool
            ensures { result ≡ has_join bound.now.plan }
        { has_join_in(&bound.plan) },
    )
}

/// Whether a Join stands below what the sources give.
pub fn joins_below(bounds: &[Bound]) -> bool
    ensures { result ≡ joins_below bounds.now }
{
    1 < bounds.len() || some_join(bounds)
}
