//! Why nothing was measured.
use pdn_base::Memory;
use pdn_circuit::BuildErr;
use pdn_view::ViewErr;
use std::alloc::{AllocError, AllocFailed};
use std::io;

/// Why the program ends early.
#[derive(Debug, Drop)]
pub enum Stop {
    /// Memory ran out.
    Memory,
    /// The circuit, or the text of a view, is too large.
    Large,
    /// A view that was printed is not read again.
    Unread,
    /// The clock, or standard output, failed.
    Outside,
}

impl From<Memory> for Stop {
    fn from(_: Memory) -> Stop {
        Stop::Memory
    }
}

impl From<AllocError> for Stop {
    fn from(_: AllocError) -> Stop {
        Stop::Memory
    }
}

impl<T: Drop> From<AllocFailed<T>> for Stop {
    fn from(_: AllocFailed<T>) -> Stop {
        Stop::Memory
    }
}

impl From<BuildErr> for Stop {
    fn from(_: BuildErr) -> Stop {
        Stop::Large
    }
}

impl From<ViewErr> for Stop {
    fn from(e: ViewErr) -> Stop {
        match e {
            ViewErr::At { .. } => Stop::Unread,
            ViewErr::Memory => Stop::Memory,
        }
    }
}

impl From<io::Error> for Stop {
    fn from(_: io::Error) -> Stop {
        Stop::Outside
    }
}
