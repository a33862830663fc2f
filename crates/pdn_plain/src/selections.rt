//! Some of the rows, and some of their columns.
ghost use Rattle.std.specs.Prelude.{◌≡◌, IfOk};
ghost use Rattle.pdn_base.specs.Values.{cut};
ghost use Rattle.pdn_base.specs.Conditions.{meets};
ghost use Rattle.pdn_base.specs.Operators.{filter_rows, project_rows};

use pdn_base::{Cond, Memory, Row, Rows, row_meets};
use std::alloc::Global;

/// The rows that meet the condition, in their order.
pub fn filter(rows: Rows, cond: &Cond) -> Rows
    ensures { result ≡ filter_rows cond.now rows }
{
    let mut rows = rows.rows;
    rows.retain(
        |row: &Row| -> bool
            ensures { result ≡ meets cond.entry.now row.now }
        { row_meets(cond, row) },
    );
    Rows { rows }
}

/// Each row cut to the columns, in their order.
pub fn project(alloc: Global, rows: &Rows, columns: &[u32]) -> Result<Rows, Memory>
    ensures { IfOk result (λ cuts. cuts ≡ project_rows columns.now rows.now) }
{
    let mut cuts = Vec::new(alloc);
    for row in rows.as_slice() {
        cuts.push(cut_row(alloc, row, columns)?)?;
    }
    Ok(Rows { rows: cuts })
}

/// A row cut to the columns.
pub fn cut_row(alloc: Global, row: &Row, columns: &[u32]) -> Result<Row, Memory>
    ensures { IfOk result (λ short. short ≡ cut columns.now row.now) }
{
    let mut values = Vec::new(alloc);
    for column in columns {
        values.push(row.cell(*column))?;
    }
    Ok(Row { values })
}
