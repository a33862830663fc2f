//! What a keeper answers to batches, beyond what a load tells of it.
use crate::texts::{LARGE, code, rows_of, schema_of};
use pdn_base::{Rows, Value};
use pdn_keeper::{MemSite, SiteKeeper};
use pdn_schema::Schema;
use std::alloc::Global;
use std::test::Fail;

/// Rows of patient 7 with a code and these days.
fn visits(alloc: Global, days: &[u32]) -> Result<Rows, Fail> {
    let mut rows = rows_of(alloc, &[])?;
    for day in days {
        let one = rows_of(alloc, &[&[Value::Int(7), code(b"flu"), Value::Int(*day)]])?;
        rows.rows.extend(one.rows)?;
    }
    Ok(rows)
}

/// The answer to a batch of the second table.
fn answer(
    alloc: Global,
    site: &mut MemSite,
    schema: &Schema,
    batch: u64,
    rows: &Rows,
) -> Result<String, Fail> {
    if schema.tables.len() < 2 {
        return Err(Fail::new("there are two tables"));
    }
    Ok(format!(in alloc; "{:?}", site.add_batch(alloc, schema, 1, batch, rows))?)
}

/// Batches by number with the days of their rows, and the answers.
const BATCHES: &[(u64, &[u32], &str)] = &[
    (1, &[1, 2, 3], "Ok(New)"),
    (
        2,
        &[4, 5],
        "Err(OverPer { column: 0, value: Int(7), kept: 3 })",
    ),
    (1, &[1, 2, 3], "Ok(Again)"),
    (1, &[1, 2, 3, 4], "Err(Differs { at: 3, kept: None })"),
    (2, &[1; 17], "Err(OverRows { kept: 3 })"),
    (2, &[4], "Ok(New)"),
];

#[test]
fn a_batch_is_new_again_differing_or_over_a_bound(rt: HostRuntime) -> Result<(), Fail> {
    let alloc = rt.alloc();
    let schema = schema_of(alloc, LARGE)?;
    let mut site = MemSite::new(Vec::new(alloc), Vec::new(alloc));
    for (batch, days, wanted) in BATCHES {
        let rows = visits(alloc, days)?;
        let answer = answer(alloc, &mut site, &schema, *batch, &rows)?;
        assert_eq!(rt; answer.as_str(), *wanted);
    }
    Ok(())
}
