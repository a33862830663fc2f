//! The values of columns, and their order: by kind, and within a kind by number.
ghost use Rattle.std.specs.Prelude.{◌≡◌};
ghost use Rattle.std.specs.Ordering.{eq_by_cmp};
ghost use Rattle.pdn_base.specs.Values.{kind_of, number_of, rank_of, value_cmp};

use crate::Code;
use std::cmp::Ordering;

/// A value of a column.
#[derive(Clone, Copy, Debug, Drop)]
pub enum Value {
    Int(u32),
    Code(Code),
}

impl Value {
    /// Its number, by which the values of one column are ordered.
    pub fn number(&self) -> u64
        ensures { result ≡ number_of self.now }
    {
        match self {
            Value::Int(n) => u64::from(*n),
            Value::Code(code) => code.number(),
        }
    }

    /// Its kind and its number, by which all values are ordered.
    pub fn rank(&self) -> (u8, u64)
        ensures { result ≡ rank_of self.now }
    {
        (self.kind(), self.number())
    }

    fn kind(&self) -> u8
        ensures { result ≡ kind_of self.now }
    {
        match self {
            Value::Int(_) => 1,
            Value::Code(_) => 2,
        }
    }
}

impl PartialEq for Value {
    ghost use Rattle.std.specs.Ordering.{eq_by_cmp};
    ghost use Rattle.std.proofs.lemmas.Cmp.{eq_by_cmp_equiv};
    ghost use Rattle.std.specs.Cmp.{partial_equiv_from_equiv};
    ghost use Rattle.pdn_base.specs.Totals.{value_cmp-total};

    ghost eq = { eq_by_cmp value_cmp };

    ghost laws = { partial_equiv_from_equiv (eq_by_cmp_equiv value_cmp-total) };

    fn eq(&self, other: &Value) -> bool {
        self.cmp(other) == Ordering::Equal
    }
}

impl Eq for Value {
    ghost use Rattle.std.proofs.lemmas.Cmp.{eq_by_cmp_equiv};
    ghost use Rattle.pdn_base.specs.Totals.{value_cmp-total};

    ghost laws = { eq_by_cmp_equiv value_cmp-total };
}

impl PartialOrd for Value {
    ghost use Rattle.std.specs.Ordering.{as_partial_cmp};
    ghost use Rattle.std.specs.Cmp.{partial_order_from_own_ties};
    ghost use Rattle.std.specs.Cmp.Rules.{comparing};
    ghost use Rattle.std.proofs.Common.{rules};

    ghost partial_cmp = { as_partial_cmp value_cmp };

    ghost laws = { partial_order_from_own_ties (Prim.search (comparing, rules)) (Prim.search (comparing, rules)) };

    fn partial_cmp(&self, other: &Value) -> Option<Ordering> {
        Some(self.cmp(other))
    }
}

impl Ord for Value {
    ghost use Rattle.std.specs.Cmp.Rules.{comparing};
    ghost use Rattle.std.proofs.Common.{rules};
    ghost use Rattle.pdn_base.specs.Totals.{value_cmp-total};

    ghost cmp = { value_cmp };

    ghost total = { value_cmp-total };

    ghost matches_partial_cmp = { Prim.search (comparing, rules) };

    ghost matches_eq = { Prim.search (comparing, rules) };

    fn cmp(&self, other: &Value) -> Ordering {
        self.rank().cmp(&other.rank())
    }
}
