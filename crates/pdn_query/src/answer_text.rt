//! The text of an answer: its head line, the names of its columns, and its rows.
ghost use Rattle.std.specs.Prelude.{◌≡◌, ◌++◌, decimal, map, length, IfOk, OnOk};
ghost use Rattle.std.specs.List.{flat_map};
ghost use Rattle.std.specs.String.{string_bytes};
ghost use Rattle.pdn_tree.specs.declared.plan.OutColumn.{OutColumn as Column};
ghost use Rattle.pdn_query.specs.Answering.{query_name, head_line, after_commas, by_commas, value_text, row_line, names_line, answer_text};

use pdn_base::{Memory, Row, Rows, Value};
use pdn_plan::{OutColumn, Plan};
use std::alloc::Global;

/// The answer to the query of this number and ticket, with the columns of its plan and these rows.
pub fn answer_text(
    alloc: Global,
    query: u64,
    ticket: u64,
    plan: &Plan,
    rows: &Rows,
) -> Result<Vec<u8>, Memory>
    ensures { IfOk result (λ text.
        text.items ≡ answer_text query ticket plan.now.columns rows.now) }
{
    let head = head_line(alloc, query, ticket, rows.as_slice().len())?;
    let mut text = Vec::from_slice(alloc, head.as_bytes())?;
    put_names(&mut text, &plan.columns)?;
    put_rows(alloc, &mut text, rows.as_slice())?;
    Ok(text)
}

fn head_line(alloc: Global, query: u64, ticket: u64, rows: usize) -> Result<String, Memory>
    ensures { IfOk result (λ line. string_bytes line ≡ head_line query ticket rows) }
{
    Ok(format!(in alloc; "query {query} ticket {ticket} rows {rows}\n")?)
}

/// The name of the query of this number.
pub fn query_name(alloc: Global, query: u64) -> Result<String, Memory>
    ensures { IfOk result (λ name. string_bytes name ≡ query_name query) }
{
    Ok(format!(in alloc; "query {query}")?)
}

fn put_names(out: &mut Vec<u8>, columns: &[OutColumn]) -> Result<(), Memory>
    ensures { OnOk result (out.new.items ≡ out.old.items ++ names_line columns.now) }
{
    if let Some((column, later)) = columns.split_first() {
        put_name(out, column)?;
        put_later_names(out, later)?;
    }
    out.push(b'\n')?;
    Ok(())
}

fn put_later_names(out: &mut Vec<u8>, columns: &[OutColumn]) -> Result<(), Memory>
    ensures { OnOk result (out.new.items
        ≡ out.old.items ++ after_commas (map (λ (c : Column). c.name) columns.now)) }
{
    let Some((column, later)) = columns.split_first() else {
        return Ok(());
    };
    out.push(b',')?;
    put_name(out, column)?;
    put_later_names(out, later)
}

fn put_name(out: &mut Vec<u8>, column: &OutColumn) -> Result<(), Memory>
    ensures { OnOk result (out.new.items ≡ out.old.items ++ column.now.name) }
{
    out.extend_from_slice(column.name.as_str().as_bytes())?;
    Ok(())
}

/// Adds a line for each of the rows.
pub fn put_rows(alloc: Global, out: &mut Vec<u8>, rows: &[Row]) -> Result<(), Memory>
    ensures { OnOk result (out.new.items ≡ out.old.items ++ flat_map row_line rows.now) }
{
    for row in rows {
        put_row(alloc, out, row.values())?;
    }
    Ok(())
}

fn put_row(alloc: Global, out: &mut Vec<u8>, values: &[Value]) -> Result<(), Memory>
    ensures { OnOk result (out.new.items ≡ out.old.items ++ row_line values.now) }
{
    if let Some((value, later)) = values.split_first() {
        put_value(alloc, out, *value)?;
        put_later_values(alloc, out, later)?;
    }
    out.push(b'\n')?;
    Ok(())
}

fn put_later_values(alloc: Global, out: &mut Vec<u8>, values: &[Value]) -> Result<(), Memory>
    ensures { OnOk result
        (out.new.items ≡ out.old.items ++ after_commas (map value_text values.now)) }
{
    let Some((value, later)) = values.split_first() else {
        return Ok(());
    };
    out.push(b',')?;
    put_value(alloc, out, *value)?;
    put_later_values(alloc, out, later)
}

fn put_value(alloc: Global, out: &mut Vec<u8>, value: Value) -> Result<(), Memory>
    ensures { OnOk result (out.new.items ≡ out.old.items ++ value_text value) }
{
    let text = value_text(alloc, value)?;
    out.extend_from_slice(&text)?;
    Ok(())
}

fn value_text(alloc: Global, value: Value) -> Result<Vec<u8>, Memory>
    ensures { IfOk result (λ text. text.items ≡ value_text value) }
{
    match value {
        Value::Int(n) => decimal_text(alloc, n),
        Value::Code(code) => code.text(alloc),
    }
}

fn decimal_text(alloc: Global, n: u32) -> Result<Vec<u8>, Memory>
    ensures { IfOk result (λ text. text.items ≡ decimal n) }
{
    let text = format!(in alloc; "{n}")?;
    Ok(Vec::from_slice(alloc, text.as_bytes())?)
}
