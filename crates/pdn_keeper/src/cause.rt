//! Why a CSV text gives no rows.
ghost use Rattle.std.specs.Prelude.{◌≡◌};
ghost use Rattle.pdn_keeper.specs.Import.{cause_number};
ghost use Rattle.pdn_keeper.specs.declared.cause.CsvErr.TheVariants.{Memory as NoMemory};

use pdn_base::Memory;
use std::alloc::AllocFailed;

/// What is wrong with a record.
#[derive(Clone, Copy, Debug, PartialEq, Eq)]
pub(crate) enum Cause {
    /// The first record isn't the table's column names in order, or there is none.
    Header,
    /// Another number of fields than columns.
    Width,
    /// A field that is no value of its column.
    Field,
}

impl Cause {
    /// The number by which refusals name it.
    pub(crate) fn number(self) -> u8
        ensures { result ≡ cause_number self }
    {
        match self {
            Cause::Header => 1,
            Cause::Width => 2,
            Cause::Field => 3,
        }
    }
}

/// Why a CSV text gives no rows: its first record that can't stand, by its number from 0, with the least cause there
/// (1: not the column names; 2: another number of fields; 3: a field that is no value of its column), or want of memory.
#[derive(Clone, Copy, Debug, PartialEq, Eq)]
pub enum CsvErr {
    At { entry: u32, cause: u8 },
    Memory,
}

impl From<Memory> for CsvErr {
    ghost from_gives = { λ _ e. e ≡ NoMemory };

    fn from(_: Memory) -> CsvErr {
        CsvErr::Memory
    }
}

impl<T: Drop> From<AllocFailed<T>> for CsvErr {
    ghost from_gives = { λ _ e. e ≡ NoMemory };

    fn from(_: AllocFailed<T>) -> CsvErr {
        CsvErr::Memory
    }
}
