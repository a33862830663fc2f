//! The CSV files of a folder: rows of tables for the second world.
ghost use Rattle.std.specs.Prelude.{◌≡◌, ◌<◌, ◌-◌, ◌^◌, ℕ, List, Some, None, Option, length, map, IfOk, IfSome};
ghost use Rattle.std.specs.List.{All, zip};
ghost use Rattle.std.specs.String.{string_bytes};
ghost use Rattle.pdn_base.specs.Bounds.{IsShort};
ghost use Rattle.pdn_base.specs.Operators.{Rows as RowsModel};
ghost use Rattle.pdn_schema.specs.Models.{table_of};
ghost use Rattle.pdn_query.specs.Each.{each};
ghost use Rattle.pdn_query.specs.Script.{Script};
ghost use Rattle.pdn_query.specs.Walk.{Came};
ghost use Rattle.pdn_query.specs.World.{WorldModel};
ghost use Rattle.pdn_commands.specs.Twinning.{rows_file, finding, importing_from, importing_file};

use crate::load::rows_of;
use pdn_base::{FileErr, Memory, Rows, Status, Who};
use pdn_query::Outside;
use pdn_schema::{Schema, Table};
use pdn_script::{Stop, refused};
use std::alloc::Global;
use std::marker::Model;

/// The text of a file, where it is there.
#[derive(Debug, Drop)]
pub(crate) struct FileText {
    pub bytes: Option<Vec<u8>>,
}

impl Model for FileText {
    ghost use Rattle.std.specs.Prelude.{ℕ, List, Option, ◌≤◌, length, IfSome};
    ghost use Rattle.std.specs.Option.{option_map};

    ghost Value = { Option (List ℕ) };

    ghost view = { λ f. option_map (λ bytes. bytes.items) f.bytes };

    ghost invariant = { λ f. IfSome f.bytes (λ bytes. length bytes.items ≤ 536870912) };
}

/// The text of each table's file in a folder, in the schema's order.
pub(crate) fn texts_in<W: Outside>(
    alloc: Global,
    folder: &str,
    schema: &Schema,
    world: &mut W,
) -> Result<Vec<FileText>, Stop>
    ensures came { (next : List (Option (List ℕ)) → Script) →
        Came (W.state world.old) (W.state world.new)
        (each (finding folder.now) schema.now.tables next) (λ texts. next texts.items) result }
    ensures count { IfOk result (λ texts. length texts.items ≡ length schema.now.tables) }
    ensures same { (W.state world.new).told ≡ (W.state world.old).told }
{
    let mut texts = Vec::new(alloc);
    for at in 0..schema.tables.len() {
        let text = text_in(alloc, folder, schema.table(at as u32), world)?;
        texts.push(text)?;
    }
    Ok(texts)
}

// The text of a table's file.
fn text_in<W: Outside>(
    alloc: Global,
    folder: &str,
    table: &Table,
    world: &mut W,
) -> Result<FileText, Stop>
    ensures came { (next : Option (List ℕ) → Script) →
        Came (W.state world.old) (W.state world.new)
        (finding folder.now table.now next) (λ text. next text) result }
    ensures same { (W.state world.new).told ≡ (W.state world.old).told }
{
    let name = rows_file(alloc, folder, table)?;
    match world.read(alloc, name.as_str()) {
        Ok(bytes) => Ok(FileText { bytes: Some(bytes) }),
        Err(FileErr::Absent) => Ok(FileText { bytes: None }),
        Err(FileErr::Failed) => Err(refused(alloc, Status::Unavailable { who: Who::Files })),
        Err(FileErr::Memory) => Err(Stop::Memory),
    }
}

// The name of a table's file.
fn rows_file(alloc: Global, folder: &str, table: &Table) -> Result<String, Memory>
    ensures { IfOk result (λ name. string_bytes name ≡ rows_file folder.now table.now) }
{
    let table = table.name.as_str();
    Ok(format!(in alloc; "{folder}/{table}.csv")?)
}

/// The rows of these tables' files, where they are there, or the refusal of the first bad record.
pub(crate) fn rows_given(
    alloc: Global,
    schema: &Schema,
    texts: &[FileText],
) -> Result<Vec<Option<Rows>>, Stop>
    requires { length texts.now ≡ length schema.now.tables }
    ensures came { (w : WorldModel) (next : List (Option RowsModel) → Script) →
        Came w w (each importing_file (zip schema.now.tables texts.now) next)
        (λ given. next given.items) result }
    ensures count { IfOk result (λ given. length given.items ≡ length schema.now.tables) }
    ensures short { IfOk result
        (λ given. All (λ (rows : Option RowsModel). IfSome rows IsShort) given.items) }
{
    let mut given = Vec::new(alloc);
    for at in 0..schema.tables.len() {
        let rows = rows_from(alloc, schema, at as u32, &texts[at])?;
        given.push(rows)?;
    }
    Ok(given)
}

// The rows of a table's file, where it is there.
fn rows_from(
    alloc: Global,
    schema: &Schema,
    table: u32,
    text: &FileText,
) -> Result<Option<Rows>, Stop>
    requires { table < length schema.now.tables }
    ensures came { (w : WorldModel) (next : Option RowsModel → Script) →
        Came w w (importing_from (table_of schema.now table) next text.now)
        (λ given. next given) result }
    ensures short { IfOk result (λ given. IfSome given IsShort) }
{
    match &text.bytes {
        Some(bytes) => Ok(Some(rows_of(alloc, schema, table, bytes)?)),
        None => Ok(None),
    }
}
