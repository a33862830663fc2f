//! A site's store.
use crate::disks::{Disks, closed, disks, opened};
use pdn_base::{Code, Row, Rows, Value};
use pdn_keeper::{MemSite, SiteKeeper};
use pdn_schema::{Schema, read_schema};
use pdn_store::SqliteSite;
use std::alloc::Global;
use std::test::Fail;

const SCHEMA: &str = "version 1
floor 3
table other rows 4
column n int private
table visit rows 16
column pid int public per 4
column code code protected
column day int private
end
";

pub(crate) fn schema(alloc: Global) -> Result<Schema, Fail> {
    let text = SCHEMA.as_bytes();
    if text.len() > 1000 {
        return Err(Fail::new("it is short"));
    }
    Ok(read_schema(alloc, text).ok().ok_or("it is a schema")?)
}

/// Rows of patient 7 with a code and these days.
pub(crate) fn visits(alloc: Global, days: &[u32]) -> Result<Rows, Fail> {
    let mut rows = Vec::new(alloc);
    for day in days {
        let code = Value::Code(Code::read(b"flu").ok_or("it is a code")?);
        let values = Vec::from_slice(alloc, &[Value::Int(7), code, Value::Int(*day)])?;
        rows.push(Row::new(values))?;
    }
    Ok(Rows { rows })
}

/// Batches by number with the days of their rows, and the answers.
const BATCHES: &[(u64, &[u32], &str)] = &[
    (1, &[1, 2, u32::MAX], "Ok(New)"),
    (
        2,
        &[4, 5],
        "Err(OverPer { column: 0, value: Int(7), kept: 3 })",
    ),
    (1, &[1, 2, u32::MAX], "Ok(Again)"),
    (
        1,
        &[1, 2, u32::MAX, 4],
        "Err(Differs { at: 3, kept: None })",
    ),
    (2, &[1; 17], "Err(OverRows { kept: 3 })"),
    (3, &[], "Ok(New)"),
    (u64::MAX, &[4], "Ok(New)"),
    (3, &[9], "Err(Differs { at: 0, kept: None })"),
    (3, &[], "Ok(Again)"),
];

/// What a site answers to a batch of the second table, and the table's rows then.
pub(crate) fn answer<K: SiteKeeper>(
    alloc: Global,
    site: &mut K,
    batch: u64,
    days: &[u32],
) -> Result<(String, String), Fail> {
    let schema = schema(alloc)?;
    let rows = visits(alloc, days)?;
    if schema.tables.len() < 2 {
        return Err(Fail::new("there are two tables"));
    }
    let answer = format!(in alloc; "{:?}", site.add_batch(alloc, &schema, 1, batch, &rows))?;
    let kept = format!(in alloc;
        "{:?} {:?}",
        site.rows(alloc, &schema, 1),
        site.rows(alloc, &schema, 0)
    )?;
    Ok((answer, kept))
}

/// The same of the store on these disks, which is then closed.
fn stored(
    alloc: Global,
    files: Disks,
    batch: u64,
    days: &[u32],
) -> Result<(String, String, Disks), Fail> {
    let mut site = SqliteSite::adopt(opened(alloc, files).ok().ok_or("it opens")?);
    let (answer, kept) = answer(alloc, &mut site, batch, days)?;
    Ok((
        answer,
        kept,
        closed(site.into_connection()).ok_or("it closes")?,
    ))
}

/// Each batch in a program of its own; the store answers as a site in memory.
#[test]
fn a_batch_is_answered_as_in_memory_and_read_again(rt: HostRuntime) -> Result<(), Fail> {
    let alloc = rt.alloc();
    let mut files = disks(alloc, u64::MAX)?;
    let mut site = MemSite::new(Vec::new(alloc), Vec::new(alloc));
    for (batch, days, wanted) in BATCHES {
        let (told, in_memory) = answer(alloc, &mut site, *batch, days)?;
        let (said, kept, after) = stored(alloc, files, *batch, days)?;
        assert_eq!(rt; told.as_str(), *wanted);
        assert_eq!(rt; said.as_str(), *wanted);
        assert_eq!(rt; kept.as_str(), in_memory.as_str());
        files = after;
    }
    Ok(())
}
