//! The body of an answer.
ghost use Rattle.std.specs.Prelude.{◌≡◌, ◌++◌, ◌∷◌, [], codes, decimal, false, map, IfOk, OnOk};
ghost use Rattle.std.specs.String.{string_bytes};
ghost use Rattle.serde_json.specs.Data.{member, no_members, number, object, unsigned};
ghost use Rattle.serde_json.specs.View.{view};
ghost use Rattle.serde_json.specs.Written.{compact_text, has_float};
ghost use Rattle.pdn_base.specs.declared.value.Value.{Value as RowValue};
ghost use Rattle.pdn_tree.specs.declared.plan.OutColumn.{OutColumn as Column};
ghost use Rattle.pdn_reply.specs.Bodies.{answer_text, columns_text, list_text, rows_text, value_text};
ghost use Rattle.pdn_reply.specs.Values.{Says, SayEach};
ghost use Rattle.json.specs.Print.{quoted};
ghost use Rattle.pdn_base.specs.Codes.{code_text};

use pdn_base::{Code, Memory, Row, Rows, Value};
use pdn_tree::OutColumn;
use serde_json::{Value as Json, json};
use std::alloc::{AllocError, Global};

/// The body that gives the rows of an answer, with its columns and its ticket.
pub fn answer_body(
    alloc: Global,
    columns: &[OutColumn],
    rows: &Rows,
    ticket: u64,
) -> Result<Vec<u8>, Memory>
    ensures { IfOk result (λ body. body.items ≡ answer_text columns.now rows.now ticket) }
{
    let columns = columns_json(alloc, columns)?;
    let rows = rows_json(alloc, rows.as_slice())?;
    let text = object_text(alloc, &columns, &rows, ticket)?;
    Ok(text.into_bytes())
}

fn columns_json(alloc: Global, columns: &[OutColumn]) -> Result<Json, Memory>
    ensures { IfOk result (λ json. Says json (columns_text columns.now)) }
{
    let mut list = Vec::new(alloc);
    for column in columns {
        let json = Json::try_from_str(alloc, column.name.as_str())?;
        list.push(json)?;
    }
    Ok(Json::Array(list))
}

fn rows_json(alloc: Global, rows: &[Row]) -> Result<Json, Memory>
    ensures { IfOk result (λ json. Says json (rows_text rows.now)) }
{
    let mut list = Vec::new(alloc);
    for row in rows {
        let json = row_json(alloc, row.values())?;
        list.push(json)?;
    }
    Ok(Json::Array(list))
}

fn row_json(alloc: Global, row: &[Value]) -> Result<Json, Memory>
    ensures { IfOk result (λ json. Says json (list_text (map value_text row.now))) }
{
    let mut list = Vec::new(alloc);
    for value in row {
        let json = value_json(alloc, *value)?;
        list.push(json)?;
    }
    Ok(Json::Array(list))
}

fn value_json(alloc: Global, value: Value) -> Result<Json, Memory>
    ensures { IfOk result (λ json. Says json (value_text value)) }
{
    match value {
        Value::Int(n) => Ok(Json::from(n)),
        Value::Code(code) => code_json(alloc, code),
    }
}

/// A code as a string: its text is ASCII.
fn code_json(alloc: Global, code: Code) -> Result<Json, Memory>
    ensures { IfOk result (λ json. Says json (quoted (code_text code))) }
{
    let text = code.text(alloc)?;
    let text = std::str::from_utf8(&text).unwrap();
    Ok(Json::try_from_str(alloc, text)?)
}

/// The object of an answer, whose members come in the order of their names.
fn object_json(alloc: Global, columns: &Json, rows: &Json, ticket: u64) -> Result<Json, AllocError>
    ensures { IfOk result (λ json. view json ≡ object
        (member (codes "columns") (view columns.now)
        (member (codes "rows") (view rows.now)
        (member (codes "ticket") (number (unsigned ticket)) no_members)))) }
{
    json!(in alloc; {"columns": columns, "rows": rows, "ticket": ticket})
}

fn object_text(
    alloc: Global,
    columns: &Json,
    rows: &Json,
    ticket: u64,
) -> Result<String, AllocError>
    requires columns { has_float (view columns.now) ≡ false }
    requires rows { has_float (view rows.now) ≡ false }
    ensures { IfOk result (λ text. string_bytes text ≡ codes "{\"columns\":"
        ++ (compact_text (view columns.now) ++ (codes ",\"rows\":" ++ (compact_text (view rows.now)
        ++ (codes ",\"ticket\":" ++ (decimal ticket ++ codes "}")))))) }
{
    let json = object_json(alloc, columns, rows, ticket)?;
    json.to_string(alloc)
}
