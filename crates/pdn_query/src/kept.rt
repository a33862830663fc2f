//! The rows that a site keeps of every table.
ghost use Rattle.std.specs.Prelude.{◌≡◌, ◌<◌, ◌-◌, ◌^◌, List, length, IfOk};
ghost use Rattle.std.specs.List.{All};
ghost use Rattle.pdn_base.specs.Operators.{Rows as RowsModel};
ghost use Rattle.pdn_query.specs.Each.{each, keeping};
ghost use Rattle.pdn_query.specs.Script.{Script};
ghost use Rattle.pdn_query.specs.Walk.{Came};

use crate::tables::rows_at;
use crate::world::Outside;
use pdn_base::{Site, Tables};
use pdn_schema::Schema;
use pdn_script::Stop;
use std::alloc::Global;

/// For each table of the schema, in order, the rows that a site keeps of it.
pub fn kept_tables<W: Outside>(
    alloc: Global,
    site: Site,
    schema: &Schema,
    world: &mut W,
) -> Result<Tables, Stop>
    ensures came { (next : List RowsModel → Script) →
        Came (W.state world.old) (W.state world.new)
        (each (keeping site) schema.now.tables next) (λ tables. next tables) result }
    ensures count { IfOk result (λ tables. length tables ≡ length schema.now.tables) }
    ensures short { IfOk result
        (λ tables. All (λ (rows : RowsModel). length rows < 2 ^ 32 - 1) tables) }
    ensures same { (W.state world.new).told ≡ (W.state world.old).told }
{
    let mut lists = Vec::new(alloc);
    for at in 0..schema.tables.len() {
        let rows = rows_at(alloc, site, schema, at as u32, world)?;
        lists.push(rows)?;
    }
    Ok(Tables { lists })
}
