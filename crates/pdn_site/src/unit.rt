//! The units of a query.
ghost use Rattle.std.specs.Prelude.{◌≡◌};
ghost use Rattle.pdn_site.specs.Engines.{value_of};

use pdn_base::{Memory, Site, Value};
use pdn_circuit::Circuit;
use std::alloc::{AllocError, AllocFailed};
use std::marker::Model;

/// How a unit is worked out: by one site alone, by both on shares, or as the last one, whose outputs are opened.
#[derive(Clone, Copy, Debug, Drop)]
pub enum UnitKind {
    Plain(Site),
    Secure,
    Root,
}

/// A unit of a query: of a segment, by its number, and a value of its leaves' columns, or the root, which has neither. Its
/// last list has room for `len` rows. A plain unit has no circuit.
#[derive(Debug, Drop)]
pub struct Unit {
    pub kind: UnitKind,
    pub segment: Option<u32>,
    pub value: Option<Value>,
    pub len: u32,
    pub circuit: Option<Circuit>,
}

impl Model for Unit {
    ghost use Rattle.pdn_site.specs.Models.{UnitModel};

    ghost Value = { UnitModel };

    ghost view = { λ u. record { kind = u.kind; segment = u.segment; value = u.value; len = u.len; circuit = u.circuit } };
}

pub fn value_of(unit: &Unit) -> Value
    ensures { result ≡ value_of unit.now }
{
    unit.value.unwrap_or(Value::Int(0))
}

/// The units of a query, those of its segments in order and the root. Contracts see the list of them.
#[derive(Debug, Drop)]
pub struct Units {
    pub units: Vec<Unit>,
}

impl Model for Units {
    ghost use Rattle.std.specs.Prelude.{List};
    ghost use Rattle.pdn_site.specs.Models.{UnitModel};

    ghost Value = { List UnitModel };

    ghost view = { λ u. u.units.items };
}

/// Why there are no units.
#[derive(Clone, Copy, Debug, Drop)]
pub enum CompileErr {
    /// A limit is passed, and by no unit before this one: 1 for a list of more than 4096 rows, else by the first gate too many,
    /// 2 for an And gate and 3 for any gate.
    TooLarge { limit: u8, unit: u64 },
    /// Memory ran out.
    Memory,
}

impl From<Memory> for CompileErr {
    ghost use Rattle.std.specs.Prelude.{◌≡◌};
    ghost use Rattle.pdn_site.specs.declared.unit.CompileErr.TheVariants.{Memory};

    ghost from_gives = { λ _ e. e ≡ Memory };

    fn from(_: Memory) -> CompileErr {
        CompileErr::Memory
    }
}

impl From<AllocError> for CompileErr {
    ghost use Rattle.std.specs.Prelude.{◌≡◌};
    ghost use Rattle.pdn_site.specs.declared.unit.CompileErr.TheVariants.{Memory};

    ghost from_gives = { λ _ e. e ≡ Memory };

    fn from(_: AllocError) -> CompileErr {
        CompileErr::Memory
    }
}

impl<T: Drop> From<AllocFailed<T>> for CompileErr {
    ghost use Rattle.std.specs.Prelude.{◌≡◌};
    ghost use Rattle.pdn_site.specs.declared.unit.CompileErr.TheVariants.{Memory};

    ghost from_gives = { λ _ e. e ≡ Memory };

    fn from(_: AllocFailed<T>) -> CompileErr {
        CompileErr::Memory
    }
}
