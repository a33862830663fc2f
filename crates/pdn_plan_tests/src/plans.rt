//! The schema of the tests, the plan of a query over it, and rows of numbers.
ghost use Rattle.std.specs.Prelude.{IfOk};
ghost use Rattle.pdn_base.specs.Bounds.{IsShort};

use pdn_base::{Memory, Row, Rows, Value};
use pdn_plan::{Plan, bind};
use pdn_schema::{Schema, read_schema};
use pdn_sql::read_queries;
use std::alloc::Global;
use std::test::Fail;

/// Tables 0 to 4: `t` with a private column, `diag` and `med` with a public one, `wide`, whose second column is private, and
/// `two` with two public ones. Tables 5 to 7 have eight columns each.
pub const SCHEMA: &str =
    "version 1\nfloor 3\ncaller ann calls 2\ntable t rows 8\ncolumn c int private\ntable diag rows 16\ncolumn pid int public per 4\ncolumn code code protected\ncolumn day int private\ntable med rows 16\ncolumn pid int public per 4\ncolumn drug code protected\ncolumn day int private\ntable wide rows 256\ncolumn y int public per 64\ncolumn x int private\ntable two rows 8\ncolumn a int public per 2\ncolumn b int public per 2\ntable u rows 8\ncolumn a int public per 8\ncolumn b int private\ncolumn c int private\ncolumn d int private\ncolumn e int private\ncolumn f int private\ncolumn g int private\ncolumn h int private\ntable v rows 8\ncolumn a int public per 8\ncolumn b int private\ncolumn c int private\ncolumn d int private\ncolumn e int private\ncolumn f int private\ncolumn g int private\ncolumn h int private\ntable w rows 8\ncolumn a int public per 8\ncolumn b int private\ncolumn c int private\ncolumn d int private\ncolumn e int private\ncolumn f int private\ncolumn g int private\ncolumn h int private\nend\n";

/// Who was diagnosed again 15 to 56 days after a diagnosis.
pub const RECURRENT: &str =
    "WITH d AS (SELECT pid, day, ROW_NUMBER() OVER (PARTITION BY pid ORDER BY day) AS r FROM diag WHERE code = 'cdiff') SELECT DISTINCT a.pid FROM d a JOIN d b ON a.pid = b.pid AND b.r = a.r + 1 WHERE b.day >= a.day + 15 AND b.day <= a.day + 56 ORDER BY pid;";

/// The schema that a text of less than 4,096 bytes says.
pub fn schema_of(alloc: Global, text: &str) -> Result<Schema, Fail> {
    let read = if text.len() < 4_096 {
        read_schema(alloc, text.as_bytes()).ok()
    } else {
        None
    };
    Ok(read.ok_or("the text is a schema")?)
}

/// The plan of a text of less than 4,096 bytes that is a query with one.
pub fn bound(alloc: Global, schema: &Schema, text: &str) -> Result<Plan, Fail> {
    let read = if text.len() < 4_096 {
        read_queries(alloc, text.as_bytes(), 1).ok()
    } else {
        None
    };
    let queries = read.ok_or("the text is a query")?;
    let query = queries.first().ok_or("there is a query")?;
    let plan = bind(alloc, schema, query).ok().ok_or("it has a plan")?;
    Ok(plan)
}

/// Rows of numbers, fewer than 100.
pub fn ints(alloc: Global, table: &[&[u32]]) -> Result<Rows, Memory>
    ensures { IfOk result (λ rows. IsShort rows) }
{
    let mut rows = Vec::new(alloc);
    for numbers in table {
        let mut values = Vec::new(alloc);
        for number in *numbers {
            values.push(Value::Int(*number))?;
        }
        rows.push(Row::new(values))?;
    }
    if rows.len() < 100 {
        Ok(Rows { rows })
    } else {
        Err(Memory)
    }
}

/// Rows as a text: each number behind a blank, and each row in front of a semicolon.
pub fn text_of(alloc: Global, rows: &Rows) -> Result<String, Fail> {
    let mut text = String::new(alloc);
    for row in rows.as_slice() {
        for value in row.values() {
            text.push_str(&format!(in alloc; " {}", value.number())?)?;
        }
        text.push(';')?;
    }
    Ok(text)
}
