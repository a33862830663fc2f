//! Columns by their names.
ghost use Rattle.std.specs.Prelude.{◌≡◌, IfOk};
ghost use Rattle.std.specs.String.{string_bytes};
ghost use Rattle.pdn_query.specs.Script.{column_name};

use pdn_base::Memory;
use pdn_schema::Table;
use std::alloc::Global;

/// The name of a column, or its number where there is none.
pub fn column_name(alloc: Global, table: &Table, column: u32) -> Result<String, Memory>
    ensures { IfOk result (λ name. string_bytes name ≡ column_name table.now column) }
{
    match table.columns.get(column as usize) {
        Some(column) => Ok(String::from_str(alloc, column.name.as_str())?),
        None => Ok(format!(in alloc; "{column}")?),
    }
}
