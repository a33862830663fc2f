//! Desks in memory, and what is asked of them.
use pdn_base::{MemFiles, MemSink, Row, Rows, Value};
use pdn_dealer::ListDeal;
use pdn_desk::{DeskEnd, serve_conn};
use pdn_desk_keeper::MemDesk;
use pdn_keeper::{MemSite, SiteKeeper};
use pdn_link::MemLink;
use pdn_query::{Crew, Workers, World};
use pdn_schema::{Schema, read_schema};
use std::alloc::Global;
use std::test::Fail;
use std::thread::Threads;

pub type Desk = World<MemFiles, MemSite, MemDesk, MemSink>;

/// A schema with the caller ann, in whose table t a site holds at most so many rows.
pub fn schema(alloc: Global, rows: u32) -> Result<Schema, Fail> {
    let text = format!(in alloc;
        "version 1\nfloor 3\ncaller ann calls 2\n\
        table t rows {rows}\ncolumn c int private\n\
        table diag rows 16\ncolumn pid int public per 4\ncolumn code code protected\ncolumn day int private\n\
        table wide rows 256\ncolumn y int public per 64\ncolumn x int private\nend\n"
    )?;
    let schema = match text.as_bytes() {
        bytes if bytes.len() <= 1000 => read_schema(alloc, bytes).ok(),
        _ => None,
    };
    Ok(schema.ok_or("it is a schema")?)
}

/// A site that keeps these values in table t, and whose calls of these numbers, from 1, fail once it does.
fn site(alloc: Global, values: &[u32], fail: Option<u64>) -> Result<MemSite, Fail> {
    let mut rows = Vec::new(alloc);
    for value in values {
        let values = vec![in alloc; Value::Int(*value)]?;
        rows.push(Row { values })?;
    }
    // the batch is the site's first call
    let mut fails = Vec::new(alloc);
    if let Some(number) = fail {
        fails.push(number.saturating_add(1))?;
    }
    let mut site = MemSite::new(Vec::new(alloc), fails);
    let schema = schema(alloc, 8)?;
    match site.add_batch(alloc, &schema, 0, 1, &Rows { rows }) {
        Ok(_) => Ok(site),
        Err(_) => Err("the batch is taken")?,
    }
}

/// What of a desk stands otherwise.
#[derive(Clone, Copy)]
pub enum Otherwise {
    Nothing,
    /// This call of A's keeper fails, by its number from 1.
    SiteAFails(u64),
    /// This call of B's keeper fails.
    SiteBFails(u64),
    /// This call of the desk's keeper fails.
    DeskFails(u64),
    /// A site may hold so many rows of table t.
    Rows(u32),
    /// The next ticket.
    Next(u64),
}

impl Otherwise {
    /// How many rows of table t a site may hold.
    pub fn rows(&self) -> u32 {
        match self {
            Otherwise::Rows(rows) => *rows,
            _ => 8,
        }
    }
}

fn listed(alloc: Global, number: Option<u64>) -> Result<Vec<u64>, Fail> {
    let mut numbers = Vec::new(alloc);
    if let Some(number) = number {
        numbers.push(number)?;
    }
    Ok(numbers)
}

/// A keeper of the desk that keeps nothing.
fn keeper(alloc: Global, otherwise: Otherwise) -> Result<MemDesk, Fail> {
    match otherwise {
        Otherwise::DeskFails(number) => Ok(MemDesk::new(0, listed(alloc, Some(number))?)),
        Otherwise::Next(next) if next <= 1099511627776 => Ok(MemDesk::new(next, Vec::new(alloc))),
        _ => Ok(MemDesk::new(0, Vec::new(alloc))),
    }
}

/// A desk that has answered nothing, over the rows 5, 7, 5 of A and 5 of B.
pub fn desk(alloc: Global, otherwise: Otherwise) -> Result<Desk, Fail> {
    let (a_fails, b_fails) = match otherwise {
        Otherwise::SiteAFails(number) => (Some(number), None),
        Otherwise::SiteBFails(number) => (None, Some(number)),
        _ => (None, None),
    };
    Ok(World {
        files: MemFiles::new(Vec::new(alloc), Vec::new(alloc)),
        site_a: site(alloc, &[5, 7, 5], a_fails)?,
        site_b: site(alloc, &[5], b_fails)?,
        desk: keeper(alloc, otherwise)?,
        out: MemSink::new(alloc, 0, Vec::new(alloc))
            .ok()
            .ok_or("memory")?,
    })
}

/// How a connection with these bytes ends, and what was sent on it.
pub fn ask<R: Threads + Sync>(
    rt: &R,
    alloc: Global,
    schema: &Schema,
    desk: &mut Desk,
    bytes: &[u8],
    fail: Option<u64>,
) -> Result<(DeskEnd, Vec<u8>), Fail> {
    let input = bytes.to_vec(alloc)?;
    let fail = listed(alloc, fail)?;
    let mut link = MemLink::new(alloc, input, 1000, fail).ok().ok_or("memory")?;
    let deal = ListDeal::new(Vec::new(alloc));
    let crew = Crew {
        rt,
        deal: &deal,
        workers: Workers { count: 1 },
    };
    let end = serve_conn(alloc, &mut link, schema, desk, &crew)
        .ok()
        .ok_or("memory")?;
    let sent = link.sent().to_vec(alloc)?;
    Ok((end, sent))
}
