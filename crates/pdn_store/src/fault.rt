//! Why a store gave no answer.
use pdn_base::Memory;
use pdn_keeper::{AddErr, KeepErr};
use sqlite::{Error, ErrorCode};
use std::alloc::{AllocError, AllocFailed};

/// Why a store gave no answer: the database refused, or its content isn't of the store's form; or memory ran out.
#[derive(Clone, Copy, Debug, PartialEq, Eq)]
pub(crate) enum Fault {
    Refused,
    Memory,
}

impl From<Error> for Fault {
    fn from(error: Error) -> Fault {
        match error {
            Error::SqliteFailure(ErrorCode::OutOfMemory) => Fault::Memory,
            _ => Fault::Refused,
        }
    }
}

impl From<Memory> for Fault {
    fn from(_: Memory) -> Fault {
        Fault::Memory
    }
}

impl From<AllocError> for Fault {
    fn from(_: AllocError) -> Fault {
        Fault::Memory
    }
}

impl<T: Drop> From<AllocFailed<T>> for Fault {
    fn from(_: AllocFailed<T>) -> Fault {
        Fault::Memory
    }
}

impl From<Fault> for KeepErr {
    fn from(fault: Fault) -> KeepErr {
        match fault {
            Fault::Refused => KeepErr::Failed,
            Fault::Memory => KeepErr::Memory,
        }
    }
}

impl From<Fault> for AddErr {
    ghost use Rattle.std.specs.Prelude.{List};
    ghost use Rattle.pdn_schema.specs.declared.schema.Column.{Column};
    ghost use Rattle.pdn_keeper.specs.Batches.{NamesColumn};

    ghost from_gives = { λ _ e. (columns : List Column) → NamesColumn columns e };

    fn from(fault: Fault) -> AddErr {
        match fault {
            Fault::Refused => AddErr::Failed,
            Fault::Memory => AddErr::Memory,
        }
    }
}
