//! What a site has.
ghost use Rattle.std.specs.Prelude.{◌<◌, ◌-◌, ◌^◌, length, IfOk};
ghost use Rattle.pdn_base.specs.Operators.{Rows as RowsModel};
ghost use Rattle.pdn_twin_tests.specs.Pairs.{AreTwo};

use pdn_base::{Code, Memory, Row, Rows, Tables, Value};
use std::alloc::Global;

/// A patient, what was found or given, and the day.
pub type Fact = (u32, &'static str, u32);

/// A site's diagnoses and medications.
#[derive(Clone, Copy)]
pub struct Records {
    pub diag: &'static [Fact],
    pub med: &'static [Fact],
}

fn row_of(alloc: Global, fact: &Fact) -> Result<Row, Memory> {
    let (pid, code, day) = *fact;
    let code = Code::read(code.as_bytes()).ok_or(Memory)?;
    let mut values = Vec::new(alloc);
    values.push(Value::Int(pid))?;
    values.push(Value::Code(code))?;
    values.push(Value::Int(day))?;
    Ok(Row::new(values))
}

fn rows_of(alloc: Global, facts: &[Fact]) -> Result<Rows, Memory>
    ensures { IfOk result (λ (rows : RowsModel). length rows < 2 ^ 32 - 1) }
{
    let mut rows = Vec::new(alloc);
    for fact in facts {
        rows.push(row_of(alloc, fact)?)?;
    }
    if 100 < rows.len() {
        return Err(Memory);
    }
    Ok(Rows { rows })
}

/// The tables of a site that has these.
pub fn tables_of(alloc: Global, records: Records) -> Result<Tables, Memory>
    ensures { IfOk result (λ tables. AreTwo tables) }
{
    let mut lists = Vec::new(alloc);
    lists.push(rows_of(alloc, records.diag)?)?;
    lists.push(rows_of(alloc, records.med)?)?;
    Ok(Tables { lists })
}
