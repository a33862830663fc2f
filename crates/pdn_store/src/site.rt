//! A site's rows in a database.
ghost use Rattle.std.specs.Prelude.{◌≡◌, ◌<◌, length, IfErr, IfOk, None};
ghost use Rattle.pdn_base.specs.Bounds.{IsShort};
ghost use Rattle.pdn_schema.specs.Models.{table_of};
ghost use Rattle.pdn_keeper.specs.Batches.{NamesColumn};

use crate::fault::Fault;
use crate::link::Link;
use crate::place::{Adopted, AtPath, Place};
use crate::site_tables::{FORM, append, batch_of, rows_of_batch, rows_of_table};
use pdn_base::Rows;
use pdn_keeper::{AddErr, Added, Batch, KeepErr, MemSite, SiteKeeper};
use pdn_schema::{Schema, Table};
use sqlite::{Alter, Connection, File, FileStore};
use std::alloc::Global;

/// A site's rows in a database, whose tables are made where it has none. It tells nothing of what it holds. Every refusal
/// of the database, and every content that isn't of the store's form, is counted as a fault; want of memory is none.
#[derive(Drop)]
pub struct SqliteSite<S: Alter, P = Adopted> {
    link: Link<S, P>,
    faults: u64,
}

impl<S: Alter> SqliteSite<S> {
    /// Over a connection that is open; no call has failed.
    pub fn adopt(connection: Connection<S>) -> SqliteSite<S>
        ensures { result.faults ≡ 0 }
    {
        SqliteSite {
            link: Link::new(Adopted, Some(connection)),
            faults: 0,
        }
    }
}

impl SqliteSite<FileStore<File>, AtPath> {
    /// Over the file at a path, which is opened at the first call, and made where there is none; no call has failed.
    pub fn open_at(rt: HostRuntime, path: &'static str) -> SqliteSite<FileStore<File>, AtPath>
        ensures { result.faults ≡ 0 }
    {
        SqliteSite {
            link: Link::new(AtPath::new(rt, path), None),
            faults: 0,
        }
    }
}

impl<S: Alter, P: Drop> SqliteSite<S, P> {
    /// Its connection, where one is open.
    pub fn into_connection(self) -> Option<Connection<S>> {
        let SqliteSite { link, faults: _ } = self;
        link.into_connection()
    }
}

impl<S: Alter + Drop, P: Place<S>> SiteKeeper for SqliteSite<S, P> {
    ghost batches = { λ _. None };

    ghost faults = { λ s. s.faults };

    fn rows(&mut self, alloc: Global, schema: &Schema, table: u32) -> Result<Rows, KeepErr> {
        let answer = rows_kept(alloc, &mut self.link, schema.table(table));
        if let Err(KeepErr::Failed) = answer {
            self.faults = self.faults.saturating_add(1);
        }
        answer
    }

    fn add_batch(
        &mut self,
        alloc: Global,
        schema: &Schema,
        table: u32,
        batch: u64,
        rows: &Rows,
    ) -> Result<Added, AddErr> {
        let answer = take(alloc, &mut self.link, schema, table, batch, rows);
        if let Err(AddErr::Failed) = answer {
            self.faults = self.faults.saturating_add(1);
        }
        answer
    }
}

// The rows of a table.
fn rows_kept<S: Alter + Drop, P: Place<S>>(
    alloc: Global,
    link: &mut Link<S, P>,
    table: &Table,
) -> Result<Rows, KeepErr>
    ensures { IfOk result (λ rows. IsShort rows) }
{
    Ok(rows_of_table(alloc, link.conn(&FORM)?, table)?)
}

// Answers a batch of a table as a site in memory does, and keeps it where it is new.
fn take<S: Alter + Drop, P: Place<S>>(
    alloc: Global,
    link: &mut Link<S, P>,
    schema: &Schema,
    table: u32,
    number: u64,
    rows: &Rows,
) -> Result<Added, AddErr>
    requires { table < length schema.now.tables }
    ensures { IfErr result (NamesColumn (table_of schema.now table).columns) }
{
    let conn = link.conn(&FORM)?;
    let mut kept = kept_beside(alloc, conn, schema.table(table), number)?;
    let answer = kept.add_batch(alloc, schema, table, number, rows)?;
    if answer == Added::New {
        append(alloc, conn, schema.table(table), number, rows.as_slice())?;
    }
    Ok(answer)
}

// A site in memory that answers a batch of this number as the store must: it has the number's rows, where they are kept,
// and else those of the table, under another number.
fn kept_beside<S: Alter>(
    alloc: Global,
    conn: &mut Connection<S>,
    table: &Table,
    number: u64,
) -> Result<MemSite, Fault> {
    let name = table.name.as_str();
    match batch_of(conn, name, number)? {
        Some(batch) => site_of(
            alloc,
            name,
            number,
            rows_of_batch(alloc, conn, &table.columns, batch)?,
        ),
        None => site_of(alloc, name, number ^ 1, rows_of_table(alloc, conn, table)?),
    }
}

// A site in memory that keeps one batch.
#[tactic(auto, using(crate::proofs::OneBatch::one_short))]
fn site_of(alloc: Global, table: &str, number: u64, rows: Rows) -> Result<MemSite, Fault>
    requires { IsShort rows }
{
    let table = String::from_str(alloc, table)?;
    let mut batches = Vec::new(alloc);
    batches.push(Batch {
        table,
        number,
        rows,
    })?;
    Ok(MemSite::new(batches, Vec::new(alloc)))
}
