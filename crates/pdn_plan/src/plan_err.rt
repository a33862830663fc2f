//! Why a query has no plan.

ghost use Rattle.std.specs.Prelude.{◌≡◌};
ghost use Rattle.pdn_plan.specs.declared.plan_err.PlanErr.TheVariants.{Memory};

use pdn_base::{ColumnName, Label, Memory};
use std::alloc::{AllocError, AllocFailed};

/// Why a query has no plan.
#[derive(Debug, Drop)]
pub enum PlanErr {
    /// A rule of binding is broken: its kind, and the name that is at fault.
    Refused { kind: u8, name: ColumnName },
    /// The answer would show a column that is not public: the first such column.
    Forbidden { column: ColumnName, label: Label },
    /// Memory ran out.
    Memory,
}

impl From<AllocError> for PlanErr {
    ghost from_gives = { λ _ e. e ≡ Memory };

    fn from(_: AllocError) -> PlanErr {
        PlanErr::Memory
    }
}

impl<T: Drop> From<AllocFailed<T>> for PlanErr {
    ghost from_gives = { λ _ e. e ≡ Memory };

    fn from(_: AllocFailed<T>) -> PlanErr {
        PlanErr::Memory
    }
}

impl From<Memory> for PlanErr {
    ghost from_gives = { λ _ e. e ≡ Memory };

    fn from(_: Memory) -> PlanErr {
        PlanErr::Memory
    }
}
