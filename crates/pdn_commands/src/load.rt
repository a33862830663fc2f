//! `load`: one batch of a table for one site.
ghost use Rattle.std.specs.Prelude.{◌≡◌, ◌<◌, [], ℕ, List, Some, length, IfOk, IfErr};
ghost use Rattle.std.specs.String.{string_bytes};
ghost use Rattle.pdn_base.specs.Bounds.{IsShort};
ghost use Rattle.pdn_base.specs.Operators.{Rows as RowsModel};
ghost use Rattle.pdn_schema.specs.Models.{table_of};
ghost use Rattle.pdn_query.specs.Questions.{OnlyAt};
ghost use Rattle.pdn_query.specs.Script.{Script, column_name};
ghost use Rattle.pdn_commands.specs.Script.{importing, handing, load_script, loaded_text};
ghost use Rattle.pdn_query.specs.Walk.{Came, Along, NoMemory};
ghost use Rattle.pdn_query.specs.World.{WorldModel};
ghost use Rattle.pdn_script.specs.Stops.{end_of, stop_of, IsRefusal};

use crate::inputs::{read_inputs, table_number};
use pdn_base::{Memory, Name, Rows, Site, Status};
use pdn_keeper::{AddErr, Added, CsvErr, import_csv};
use pdn_query::{Batch, Outside, column_name, failed_line, say, who_of};
use pdn_schema::{Schema, Table};
use pdn_script::{Stop, refused, refused_at};
use std::alloc::Global;

/// What a load asks for: the batch of this number of the table of this name, from this CSV file.
#[derive(Clone, Copy, Debug)]
pub struct BatchFile<'a> {
    pub table: &'a str,
    pub number: u64,
    pub file: &'a str,
}

/// Hands a batch to a site, and puts the line that says how it was taken.
pub fn load<W: Outside>(
    alloc: Global,
    site: Site,
    load: BatchFile<'_>,
    world: &mut W,
) -> Result<(), Stop>
    ensures goes { Along (W.state world.old) (W.state world.new)
        (load_script site load.entry.table.now load.entry.number load.entry.file.now)
        (end_of result) }
    ensures only { OnlyAt site (W.state world.old).told (W.state world.new).told }
    ensures spared { end_of result ≡ NoMemory
        → (W.state world.new).told ≡ (W.state world.old).told }
{
    let inputs = read_inputs(alloc, load.file, world)?;
    let Some(table) = table_number(&inputs.schema, load.table) else {
        return Err(no_table(alloc, load.table));
    };
    let rows = rows_of(alloc, &inputs.schema, table, &inputs.text)?;
    let batch = Batch {
        table,
        number: load.number,
        rows: &rows,
    };
    let text = hand_over(alloc, site, &inputs.schema, batch, world)?;
    say(world, text.as_bytes())
}

// The refusal of a name that no table has.
fn no_table(alloc: Global, name: &str) -> Stop
    ensures { IsRefusal [] [] (Status.Plan 1 name.now) result }
{
    match Name::new(alloc, name) {
        Ok(name) => refused(alloc, Status::Plan { kind: 1, name }),
        Err(_) => Stop::Memory,
    }
}

/// The rows of a CSV text, or the refusal.
pub(crate) fn rows_of(
    alloc: Global,
    schema: &Schema,
    table: u32,
    bytes: &[u8],
) -> Result<Rows, Stop>
    requires in_range { table < length schema.now.tables }
    requires short { IsShort bytes.now }
    ensures came { (w : WorldModel) (next : RowsModel → Script) →
        Came w w (importing (table_of schema.now table) bytes.now next) (λ rows. next rows) result }
    ensures few { IfOk result IsShort }
{
    match import_csv(alloc, schema, table, bytes) {
        Ok(rows) => Ok(rows),
        Err(CsvErr::At { entry, cause }) => Err(refused(alloc, Status::Csv { entry, cause })),
        Err(CsvErr::Memory) => Err(Stop::Memory),
    }
}

// The line that says how a site took a batch. Both such lines and that of a site that fails are made before the site is
// asked, so that memory can't run out behind it.
fn hand_over<W: Outside>(
    alloc: Global,
    site: Site,
    schema: &Schema,
    batch: Batch<'_>,
    world: &mut W,
) -> Result<String, Stop>
    requires { batch.table < length schema.now.tables }
    ensures came { (next : List ℕ → Script) →
        Came (W.state world.old) (W.state world.new)
        (handing site (table_of schema.now batch.entry.table) batch.entry.number
        batch.entry.rows.now next)
        (λ text. next (string_bytes text)) result }
    ensures only { OnlyAt site (W.state world.old).told (W.state world.new).told }
    ensures spared { IfErr result (λ stop. stop_of stop ≡ NoMemory
        → (W.state world.new).told ≡ (W.state world.old).told) }
{
    let named = schema.table(batch.table);
    let new = loaded_text(alloc, "new", named, batch.number, batch.rows)?;
    let again = loaded_text(alloc, "again", named, batch.number, batch.rows)?;
    let who = who_of(site);
    let line = failed_line(alloc, who)?;
    match world.add_batch(alloc, site, schema, batch) {
        Ok(Added::New) => Ok(new),
        Ok(Added::Again) => Ok(again),
        Err(AddErr::Failed) => Err(Stop::Refused {
            status: Status::Unavailable { who },
            line,
        }),
        Err(AddErr::Memory) => Err(Stop::Memory),
        Err(AddErr::Differs { at, .. }) => { Err(refused(alloc, Status::BatchDiffers { row: at })) }
        Err(AddErr::OverRows { .. }) => Err(refused(alloc, Status::OverBound { column: None })),
        Err(AddErr::OverPer { column, .. }) => Err(over_per(alloc, named, column)),
    }
}

// The refusal of too many rows of one value of a column.
fn over_per(alloc: Global, table: &Table, column: u32) -> Stop
    ensures { IsRefusal table.now.name (column_name table.now column)
        (Status.OverBound (Some column)) result }
{
    let Ok(name) = column_name(alloc, table, column) else {
        return Stop::Memory;
    };
    let status = Status::OverBound {
        column: Some(column),
    };
    refused_at(alloc, status, table.name.as_str(), name.as_str())
}

fn loaded_text(
    alloc: Global,
    how: &str,
    table: &Table,
    number: u64,
    rows: &Rows,
) -> Result<String, Memory>
    ensures { IfOk result (λ text.
        string_bytes text ≡ loaded_text how.now table.now.name number (length rows.now)) }
{
    let name = table.name.as_str();
    let count = rows.as_slice().len();
    Ok(format!(in alloc; "loaded {how} {name} batch {number} rows {count}\n")?)
}
