//! Who keeps a site's rows.
ghost use Rattle.std.specs.Prelude.{◌≡◌, ◌<◌, List, ℕ, Option, length, IfOk, IfErr, IfSome, IsErrOf, OnOk};
ghost use Rattle.std.specs.List.{All};
ghost use Rattle.pdn_base.specs.Bounds.{IsShort};
ghost use Rattle.pdn_base.specs.Outside.{HasCause};
ghost use Rattle.pdn_schema.specs.Models.{table_of};
ghost use Rattle.pdn_schema.specs.Rows.{HasKinds, IsValid};
ghost use Rattle.pdn_keeper.specs.Batches.{BatchHeld, kept_rows, batch_held, IsAnswer, NamesColumn, Stands};
ghost use Rattle.pdn_keeper.specs.declared.site_keeper.KeepErr.TheVariants.{Memory as RowsMemory};
ghost use Rattle.pdn_keeper.specs.declared.site_keeper.AddErr.TheVariants.{Memory as AddMemory};

use pdn_base::{Memory, Row, Rows, Value};
use pdn_schema::Schema;
use std::alloc::{AllocFailed, Global};

/// Why rows were not handed over: the keeper failed, or memory ran out.
#[derive(Clone, Copy, Debug, PartialEq, Eq)]
pub enum KeepErr {
    Failed,
    Memory,
}

/// How a batch was taken.
#[derive(Clone, Copy, Debug, PartialEq, Eq)]
pub enum Added {
    /// It is now the table's last batch.
    New,
    /// It was kept before, with the same rows.
    Again,
}

/// Why a batch was not taken.
#[derive(Debug, Drop)]
pub enum AddErr {
    /// Its number is kept with other rows: the first place where they differ, and the row that is kept there, if any.
    Differs {
        at: u32,
        kept: Option<Row>,
    },
    /// The table would have more rows than it may; so many are kept.
    OverRows {
        kept: u32,
    },
    /// A value of a public column would stand in more rows than it may: the first such column, its least such value, and
    /// the number of kept rows with that value.
    OverPer {
        column: u32,
        value: Value,
        kept: u32,
    },
    /// The keeper failed.
    Failed,
    /// Memory ran out.
    Memory,
}

impl From<Memory> for KeepErr {
    ghost from_gives = { λ _ e. e ≡ RowsMemory };

    fn from(_: Memory) -> KeepErr {
        KeepErr::Memory
    }
}

impl From<Memory> for AddErr {
    ghost from_gives = { λ _ e. e ≡ AddMemory };

    fn from(_: Memory) -> AddErr {
        AddErr::Memory
    }
}

impl<T: Drop> From<AllocFailed<T>> for AddErr {
    ghost from_gives = { λ _ e. e ≡ AddMemory };

    fn from(_: AllocFailed<T>) -> AddErr {
        AddErr::Memory
    }
}

/// Keeps the batches of a site's tables in the order in which it took them. A call fails only where the count of faults
/// rose.
pub trait SiteKeeper {
    /// The batches that are kept, where that is told.
    ghost batches: { Self → Option (List BatchHeld) };

    /// How many calls have failed.
    ghost faults: { Self → ℕ };

    /// The rows of a table, one batch after the other, fewer than 2^32 - 1. What is kept stays.
    fn rows(&mut self, alloc: Global, schema: &Schema, table: u32) -> Result<Rows, KeepErr>
        requires in_range { table < length schema.now.tables }
        ensures size { IfOk result (λ rows. IsShort rows) }
        ensures kept { IfSome (batches self.old)
            (λ held. IfOk result (λ rows. rows ≡ kept_rows (table_of schema.now table).name held)) }
        ensures same { batches self.new ≡ batches self.old }
        ensures cause { HasCause (faults self.old) (faults self.new)
            (IsErrOf result KeepErr.Failed) };

    /// Takes a batch of a table. The number decides first: where it is kept, the answer is Again or Differs, as the kept
    /// rows are these or others. Else the batch must leave the table within its bounds, OverRows before OverPer, and is
    /// then appended; OverPer names a column of the table. What is kept stays after every answer but New; after Failed the batch is appended or nothing changed.
    fn add_batch(
        &mut self,
        alloc: Global,
        schema: &Schema,
        table: u32,
        batch: u64,
        rows: &Rows,
    ) -> Result<Added, AddErr>
        requires in_range { table < length schema.now.tables }
        ensures answer { IfSome (batches self.old)
            (λ held. IsAnswer (table_of schema.now table) held batch rows.now result) }
        ensures column { IfErr result (NamesColumn (table_of schema.now table).columns) }
        ensures stands { Stands (batches self.old) (batches self.new)
            (batch_held (table_of schema.now table).name batch rows.now) result }
        ensures valid { IfSome (batches self.old) (λ held. OnOk result (
            All (HasKinds (table_of schema.now table).columns) rows.now → IsValid (table_of schema.now table) (kept_rows (table_of schema.now table).name held)
            → IfSome (batches self.new) (λ now. IsValid (table_of schema.now table) (kept_rows (table_of schema.now table).name now)))) }
        ensures cause { HasCause (faults self.old) (faults self.new)
            (IsErrOf result AddErr.Failed) };
}
