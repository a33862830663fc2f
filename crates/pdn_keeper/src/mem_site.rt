//! A site's rows in memory.
ghost use Rattle.std.specs.Prelude.{◌≡◌, ◌≤◌, ◌<◌, ◌++◌, ◌^◌, ℕ, List, length, IfOk, IsErrOf, Some};
ghost use Rattle.std.specs.Result.{result_map_both};
ghost use Rattle.std.specs.Option.{option_copied};
ghost use Rattle.pdn_base.specs.Bounds.{IsShort};
ghost use Rattle.pdn_keeper.specs.Batches.{batch_held, kept_batch, kept_rows, IsTaken, IsAnswer, Stands};
ghost use Rattle.pdn_keeper.specs.declared.site_keeper.Added.TheVariants.{New};

use crate::batch::Batch;
use crate::bounds::over_per;
use crate::compare::compared;
use crate::{AddErr, Added, KeepErr, SiteKeeper};
use pdn_base::{Calls, Memory, Row, Rows};
use pdn_schema::{Schema, Table, count_of};
use std::alloc::Global;
use std::marker::Model;

/// A site's rows in memory, whose calls fail at those that are listed, by number from 1; nothing is then changed. With an
/// empty list none fails.
#[derive(Drop)]
pub struct MemSite {
    batches: Vec<Batch>,
    calls: Calls,
}

impl Model for MemSite {
    ghost use Rattle.std.specs.Prelude.{◌≡◌, List, ℕ, []};
    ghost use Rattle.pdn_base.specs.Bounds.{IsShort};
    ghost use Rattle.pdn_keeper.specs.Batches.{SiteHeld, kept_rows};

    ghost Value = { SiteHeld };

    ghost view = { λ s. record { batches = s.batches.items; calls = s.calls } };

    ghost invariant = { λ s. ((name : List ℕ) → IsShort (kept_rows name s.batches.items)) × (s.calls.fail ≡ [] → s.calls.faults ≡ 0) };
}

impl MemSite {
    ghost use Rattle.pdn_base.specs.Outside.{no_calls};

    /// These batches, of which no two have the same table and number, and the numbers of the calls that are to fail.
    pub fn new(batches: Vec<Batch>, fail: Vec<u64>) -> MemSite
        requires { (name : List ℕ) → IsShort (kept_rows name batches.items) }
        ensures { result ≡ record { batches = batches.items; calls = no_calls fail.items } }
    {
        MemSite {
            batches,
            calls: Calls::new(fail),
        }
    }
}

/// The table's batch of this number.
fn batch_of<'a>(batches: &'a [Batch], name: &str, number: u64) -> Option<&'a Batch>
    ensures { option_copied result ≡ kept_batch name.now number batches.now }
{
    batches.iter().find(|batch| batch.table.as_str() == name && batch.number == number)
}

/// The rows of a table, one batch after the other.
fn rows_of(alloc: Global, batches: &[Batch], name: &str) -> Result<Vec<Row>, Memory>
    ensures { IfOk result (λ rows. rows.items ≡ kept_rows name.now batches.now) }
{
    let mut rows = Vec::new(alloc);
    for batch in batches {
        if batch.table.as_str() == name {
            rows = followed_by(alloc, rows, batch.rows.as_slice())?;
        }
    }
    Ok(rows)
}

/// These rows, and copies of more.
fn followed_by(alloc: Global, rows: Vec<Row>, more: &[Row]) -> Result<Vec<Row>, Memory>
    ensures { IfOk result (λ all. all.items ≡ rows.items ++ more.now) }
{
    let mut all = rows;
    for row in more {
        all.push(row.copy(alloc)?)?;
    }
    Ok(all)
}

/// Whether more rows of a table fit behind those that are kept.
fn fit(alloc: Global, table: &Table, kept: Vec<Row>, rows: &[Row]) -> Result<(), AddErr>
    requires columns_few { length table.now.columns ≤ 8 }
    requires kept_few { IsShort kept.items }
    ensures taken { IsTaken table.now kept.items rows.now
        (result_map_both (λ _. New) (λ e. e) result) }
    ensures no_fault { IsErrOf result AddErr.Failed → ⊥ }
{
    let count = kept.len();
    let bound = table.rows as usize;
    if bound < count || bound - count < rows.len() {
        return Err(AddErr::OverRows { kept: count as u32 });
    }
    let all = followed_by(alloc, kept, rows)?;
    if let Some((column, value)) = over_per(&table.columns, &all) {
        return Err(AddErr::OverPer {
            column,
            value,
            kept: count_of(&all[..count], column, value.number()) as u32,
        });
    }
    Ok(())
}

fn batch(alloc: Global, table: &str, number: u64, rows: &Rows) -> Result<Batch, Memory>
    ensures { IfOk result (λ batch. batch ≡ batch_held table.now number rows.now) }
{
    Ok(Batch {
        table: String::from_str(alloc, table)?,
        number,
        rows: rows.copy(alloc)?,
    })
}

impl MemSite {
    /// Appends a batch of a table, none of whose batches has its number, where it fits.
    fn append(
        &mut self,
        alloc: Global,
        table: &Table,
        number: u64,
        rows: &Rows,
    ) -> Result<Added, AddErr>
        requires columns_few { length table.now.columns ≤ 8 }
        requires rows_few { table.now.rows ≤ 256 }
        ensures answer { IsTaken table.now (kept_rows table.now.name self.old.batches) rows.now
            result }
        ensures stands { Stands (Some self.old.batches) (Some self.new.batches)
            (batch_held table.now.name number rows.now) result }
        ensures same { self.new.calls ≡ self.old.calls }
        ensures no_fault { IsErrOf result AddErr.Failed → ⊥ }
    {
        let name = table.name.as_str();
        let kept = rows_of(alloc, &self.batches, name)?;
        fit(alloc, table, kept, rows.as_slice())?;
        let batch = batch(alloc, name, number, rows)?;
        self.batches.push(batch)?;
        Ok(Added::New)
    }

    /// Answers a batch of a table.
    fn answer(
        &mut self,
        alloc: Global,
        table: &Table,
        number: u64,
        rows: &Rows,
    ) -> Result<Added, AddErr>
        requires columns_few { length table.now.columns ≤ 8 }
        requires rows_few { table.now.rows ≤ 256 }
        ensures answer { IsAnswer table.now self.old.batches number rows.now result }
        ensures stands { Stands (Some self.old.batches) (Some self.new.batches)
            (batch_held table.now.name number rows.now) result }
        ensures same { self.new.calls ≡ self.old.calls }
        ensures no_fault { IsErrOf result AddErr.Failed → ⊥ }
    {
        match batch_of(&self.batches, table.name.as_str(), number) {
            Some(kept) => compared(alloc, kept.rows.as_slice(), rows.as_slice()),
            None => self.append(alloc, table, number, rows),
        }
    }
}

impl SiteKeeper for MemSite {
    ghost use Rattle.std.specs.Prelude.{◌≡◌, ◌<◌, ◌↔◌, length, OnOk, IfOk, IfErr, IsErrOf, IsTrue, Some};
    ghost use Rattle.std.specs.List.{All};
    ghost use Rattle.pdn_base.specs.Bounds.{IsShort};
    ghost use Rattle.pdn_base.specs.Outside.{HasCause, called, fails_next};
    ghost use Rattle.pdn_schema.specs.Models.{table_of};
    ghost use Rattle.pdn_schema.specs.Rows.{HasKinds, IsValid};
    ghost use Rattle.pdn_keeper.specs.Batches.{kept_rows, batch_held, IsAnswer, NamesColumn, Stands};

    ghost batches = { λ s. Some s.batches };

    ghost faults = { λ s. s.calls.faults };

    fn rows(&mut self, alloc: Global, schema: &Schema, table: u32) -> Result<Rows, KeepErr>
        requires in_range { table < length schema.now.tables }
        ensures size { IfOk result (λ rows. IsShort rows) }
        ensures kept { IfOk result (λ rows. rows
            ≡ kept_rows (table_of schema.now table).name self.old.batches) }
        ensures same { self.new.batches ≡ self.old.batches }
        ensures cause { HasCause self.old.calls.faults self.new.calls.faults
            (IsErrOf result KeepErr.Failed) }
        ensures counted { self.new.calls ≡ called self.old.calls }
        ensures failed { IsErrOf result KeepErr.Failed ↔ IsTrue (fails_next self.old.calls) }
    {
        if self.calls.fails() {
            return Err(KeepErr::Failed);
        }
        let rows = rows_of(alloc, &self.batches, schema.table(table).name.as_str())?;
        Ok(Rows { rows })
    }

    fn add_batch(
        &mut self,
        alloc: Global,
        schema: &Schema,
        table: u32,
        batch: u64,
        rows: &Rows,
    ) -> Result<Added, AddErr>
        requires in_range { table < length schema.now.tables }
        ensures answer { IsAnswer (table_of schema.now table) self.old.batches batch rows.now
            result }
        ensures column { IfErr result (NamesColumn (table_of schema.now table).columns) }
        ensures stands { Stands (Some self.old.batches) (Some self.new.batches)
            (batch_held (table_of schema.now table).name batch rows.now) result }
        ensures valid { OnOk result (
            All (HasKinds (table_of schema.now table).columns) rows.now → IsValid (table_of schema.now table) (kept_rows (table_of schema.now table).name self.old.batches)
            → IsValid (table_of schema.now table) (kept_rows (table_of schema.now table).name self.new.batches)) }
        ensures cause { HasCause self.old.calls.faults self.new.calls.faults
            (IsErrOf result AddErr.Failed) }
        ensures counted { self.new.calls ≡ called self.old.calls }
        ensures failed { IsErrOf result AddErr.Failed ↔ IsTrue (fails_next self.old.calls) }
    {
        if self.calls.fails() {
            return Err(AddErr::Failed);
        }
        self.answer(alloc, schema.table(table), batch, rows)
    }
}
