//! Rows and worlds that are judged.
ghost use Rattle.std.specs.Prelude.{◌≡◌, ◌<◌, ◌-◌, ◌^◌, None, length, IfOk};
ghost use Rattle.std.specs.List.{All};
ghost use Rattle.pdn_base.specs.Operators.{Rows as RowsModel};
ghost use Rattle.pdn_schema.specs.Models.{table_of};
ghost use Rattle.pdn_schema.specs.Rows.{AreValid};
ghost use Rattle.pdn_agree.specs.Spots.{IsSpot};
ghost use Rattle.pdn_query.specs.Answering.{judging};
ghost use Rattle.pdn_query.specs.Comparing.{comparing};
ghost use Rattle.pdn_query.specs.Script.{Script, column_name};
ghost use Rattle.pdn_query.specs.Walk.{Came};
ghost use Rattle.pdn_query.specs.World.{WorldModel};
ghost use Rattle.pdn_script.specs.Stops.{IsRefusal};

use crate::answer::wrong_rows;
use crate::columns::column_name;
use pdn_agree::{Spot, disagree};
use pdn_base::{Site, Status, Tables};
use pdn_schema::Schema;
use pdn_script::{Stop, refused_at};
use pdn_site::first_refused;
use std::alloc::Global;

/// That a site's rows of every table are valid, or the refusal of the first table whose rows aren't.
pub fn judged(alloc: Global, site: Site, schema: &Schema, tables: &Tables) -> Result<(), Stop>
    requires count { length tables.now ≡ length schema.now.tables }
    requires few { All (λ (rows : RowsModel). length rows < 2 ^ 32 - 1) tables.now }
    ensures came { (w : WorldModel) (next : Script) →
        Came w w (judging site 0 schema.now.tables tables.now next) (λ _. next) result }
    ensures valid { IfOk result (λ _. AreValid schema.now tables.now) }
{
    match first_refused(schema, tables) {
        None => Ok(()),
        Some((table, cause)) => Err(wrong_rows(alloc, schema, site, table, cause)),
    }
}

/// That two lists of tables have the same set of values in every public column, or the refusal of the first column where they
/// haven't.
pub fn compared(alloc: Global, schema: &Schema, first: &Tables, second: &Tables) -> Result<(), Stop>
    requires first { length first.now ≡ length schema.now.tables }
    requires second { length second.now ≡ length schema.now.tables }
    ensures came { (w : WorldModel) (next : Script) →
        Came w w (comparing schema.now first.now second.now next) (λ _. next) result }
    ensures agree { IfOk result (λ _. IsSpot schema.now first.now second.now None) }
{
    match disagree(schema, first, second) {
        None => Ok(()),
        Some(spot) => Err(disagreeing(alloc, schema, spot)),
    }
}

// The refusal of two worlds whose values differ in this column.
fn disagreeing(alloc: Global, schema: &Schema, spot: Spot) -> Stop
    requires { spot.table < length schema.now.tables }
    ensures { let t = table_of schema.now spot.table in
        IsRefusal t.name (column_name t spot.column) (Status.Disagree spot.table spot.column) result }
{
    let table = schema.table(spot.table);
    let Ok(column) = column_name(alloc, table, spot.column) else {
        return Stop::Memory;
    };
    let status = Status::Disagree {
        table: spot.table,
        column: spot.column,
    };
    refused_at(alloc, status, table.name.as_str(), column.as_str())
}
