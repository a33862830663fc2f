//! `check`: prints the schema, and of each query of a file itself, its output columns and its segments.
ghost use Rattle.std.specs.Prelude.{◌≡◌, ◌<◌, ◌+◌, ◌++◌, ◌^◌, decimal, ℕ, List, length, IfOk, OnOk};
ghost use Rattle.std.specs.String.{string_bytes};
ghost use Rattle.pdn_commands.specs.Checking.{query_line, column_line, column_lines, dotted, leaf_text, leaves_text, segment_line, segment_lines, query_report, query_reporting, reporting};
ghost use Rattle.pdn_commands.specs.Commands.{check_script};
ghost use Rattle.pdn_query.specs.Script.{Script, column_name};
ghost use Rattle.pdn_query.specs.Walk.{Came, Along};
ghost use Rattle.pdn_query.specs.World.{WorldModel};
ghost use Rattle.pdn_script.specs.Stops.{end_of};

use crate::inputs::{queries_of, read_inputs};
use pdn_base::Memory;
use pdn_level::{Leaf, Segment, levels};
use pdn_plan::{OutColumn, Plan};
use pdn_query::{Outside, bound, column_name, query_name, say};
use pdn_schema::{Schema, Table, print_schema};
use pdn_script::Stop;
use pdn_sql::{Query, print_query};
use std::alloc::{AllocError, Global};

/// Prints the schema and the report of each query of the file, in one put.
pub fn check<W: Outside>(alloc: Global, file: &str, world: &mut W) -> Result<(), Stop>
    ensures goes { Along (W.state world.old) (W.state world.new)
        (check_script file.now) (end_of result) }
    ensures same { (W.state world.new).told ≡ (W.state world.old).told }
{
    let inputs = read_inputs(alloc, file, world)?;
    let queries = queries_of(alloc, &inputs.text)?;
    let mut lines = reports(alloc, &inputs.schema, 1, &queries)?;
    let mut text = print_schema(alloc, &inputs.schema)?;
    text.append(&mut lines)?;
    say(world, &text)
}

// The reports of queries, numbered from this number on, or the refusal of the first that has no plan.
fn reports(
    alloc: Global,
    schema: &Schema,
    number: usize,
    queries: &[Query],
) -> Result<Vec<u8>, Stop>
    requires { number + length queries.now < 2 ^ 64 }
    ensures { (w : WorldModel) (next : List ℕ → Script) →
        Came w w (reporting schema.now number queries.now next) (λ text. next text.items) result }
{
    let Some((query, later)) = queries.split_first() else {
        return Ok(Vec::new(alloc));
    };
    let mut text = report(alloc, schema, number, query)?;
    let mut more = reports(alloc, schema, number + 1, later)?;
    text.append(&mut more)?;
    Ok(text)
}

// The report of one query, or the refusal.
fn report(alloc: Global, schema: &Schema, number: usize, query: &Query) -> Result<Vec<u8>, Stop>
    ensures { (w : WorldModel) (next : List ℕ → Script) →
        Came w w (query_reporting schema.now number query.now next)
        (λ text. next text.items) result }
{
    let plan = bound(alloc, schema, query)?;
    let text = query_report(alloc, schema, number, query, &plan)?;
    Ok(text)
}

// The lines of one query.
fn query_report(
    alloc: Global,
    schema: &Schema,
    number: usize,
    query: &Query,
    plan: &Plan,
) -> Result<Vec<u8>, Memory>
    ensures { IfOk result (λ text. text.items ≡ query_report schema.now number query.now plan.now) }
{
    let mut text = query_line(alloc, number, query)?;
    put_columns(alloc, &mut text, &plan.columns)?;
    let staged = levels(alloc, schema, plan)?;
    put_segments(alloc, &mut text, schema, 0, &staged.segments)?;
    Ok(text)
}

fn query_line(alloc: Global, number: usize, query: &Query) -> Result<Vec<u8>, Memory>
    ensures { IfOk result (λ text. text.items ≡ query_line number query.now) }
{
    let name = query_name(alloc, number as u64)?;
    let printed = print_query(alloc, query)?;
    let mut text = Vec::from_slice(alloc, name.as_bytes())?;
    text.push(b' ')?;
    text.extend_from_slice(&printed)?;
    text.push(b'\n')?;
    Ok(text)
}

fn put_columns(alloc: Global, out: &mut Vec<u8>, columns: &[OutColumn]) -> Result<(), AllocError>
    ensures { OnOk result (out.new.items ≡ out.old.items ++ column_lines columns.now) }
{
    let Some((column, later)) = columns.split_first() else {
        return Ok(());
    };
    put_column(alloc, out, column)?;
    put_columns(alloc, out, later)
}

fn put_column(alloc: Global, out: &mut Vec<u8>, column: &OutColumn) -> Result<(), AllocError>
    ensures { OnOk result (out.new.items ≡ out.old.items ++ column_line column.now) }
{
    let name = column.name.as_str();
    let text = format!(in alloc; "column {name} public\n")?;
    out.extend_from_slice(text.as_bytes())
}

fn put_segments(
    alloc: Global,
    out: &mut Vec<u8>,
    schema: &Schema,
    number: usize,
    segments: &[Segment],
) -> Result<(), Memory>
    requires { number + length segments.now < 2 ^ 64 }
    ensures { OnOk result
        (out.new.items ≡ out.old.items ++ segment_lines schema.now number segments.now) }
{
    let Some((segment, later)) = segments.split_first() else {
        return Ok(());
    };
    put_segment(alloc, out, schema, number, segment)?;
    put_segments(alloc, out, schema, number + 1, later)
}

fn put_segment(
    alloc: Global,
    out: &mut Vec<u8>,
    schema: &Schema,
    number: usize,
    segment: &Segment,
) -> Result<(), Memory>
    ensures { OnOk result
        (out.new.items ≡ out.old.items ++ segment_line schema.now number segment.now) }
{
    let head = format!(in alloc; "segment {number} by")?;
    out.extend_from_slice(head.as_bytes())?;
    put_leaves(alloc, out, schema, segment.leaves.as_slice())?;
    out.push(b'\n')?;
    Ok(())
}

fn put_leaves(
    alloc: Global,
    out: &mut Vec<u8>,
    schema: &Schema,
    leaves: &[Leaf],
) -> Result<(), Memory>
    ensures { OnOk result (out.new.items ≡ out.old.items ++ leaves_text schema.now leaves.now) }
{
    let Some((leaf, later)) = leaves.split_first() else {
        return Ok(());
    };
    let text = leaf_text(alloc, schema, *leaf)?;
    out.extend_from_slice(text.as_bytes())?;
    put_leaves(alloc, out, schema, later)
}

// A leaf's table and column, by their names, or by numbers where the schema has no such table.
fn leaf_text(alloc: Global, schema: &Schema, leaf: Leaf) -> Result<String, Memory>
    ensures { IfOk result (λ text. string_bytes text ≡ leaf_text schema.now leaf) }
{
    match schema.tables.get(leaf.table as usize) {
        Some(table) => named(alloc, table, leaf.column),
        None => numbered(alloc, leaf),
    }
}

fn named(alloc: Global, table: &Table, column: u32) -> Result<String, Memory>
    ensures { IfOk result (λ text.
        string_bytes text ≡ dotted table.now.name (column_name table.now column)) }
{
    let name = column_name(alloc, table, column)?;
    dotted(alloc, table.name.as_str(), name.as_str())
}

fn numbered(alloc: Global, leaf: Leaf) -> Result<String, Memory>
    ensures { IfOk result (λ text.
        string_bytes text ≡ dotted (decimal leaf.table) (decimal leaf.column)) }
{
    let table = leaf.table;
    let column = leaf.column;
    Ok(format!(in alloc; " {table}.{column}")?)
}

fn dotted(alloc: Global, table: &str, column: &str) -> Result<String, Memory>
    ensures { IfOk result (λ text. string_bytes text ≡ dotted table.now column.now) }
{
    Ok(format!(in alloc; " {table}.{column}")?)
}
