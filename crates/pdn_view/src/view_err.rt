//! Why a text is no view's.
use std::alloc::{AllocError, AllocFailed};

/// Why there is no view.
#[derive(Clone, Copy, Debug, PartialEq, Eq)]
pub enum ViewErr {
    /// The first line, counted from 1, at which the text leaves the grammar.
    At { line: u32 },
    /// Memory ran out.
    Memory,
}

impl From<pdn_base::Memory> for ViewErr {
    ghost use Rattle.std.specs.Prelude.{◌≡◌};
    ghost use Rattle.pdn_view.specs.declared.view_err.ViewErr.TheVariants.{Memory};

    ghost from_gives = { λ _ e. e ≡ Memory };

    fn from(_: pdn_base::Memory) -> ViewErr {
        ViewErr::Memory
    }
}

impl From<AllocError> for ViewErr {
    ghost use Rattle.std.specs.Prelude.{◌≡◌};
    ghost use Rattle.pdn_view.specs.declared.view_err.ViewErr.TheVariants.{Memory};

    ghost from_gives = { λ _ e. e ≡ Memory };

    fn from(_: AllocError) -> ViewErr {
        ViewErr::Memory
    }
}

impl<T: Drop> From<AllocFailed<T>> for ViewErr {
    ghost use Rattle.std.specs.Prelude.{◌≡◌};
    ghost use Rattle.pdn_view.specs.declared.view_err.ViewErr.TheVariants.{Memory};

    ghost from_gives = { λ _ e. e ≡ Memory };

    fn from(_: AllocFailed<T>) -> ViewErr {
        ViewErr::Memory
    }
}
