//! Equal conditions.

ghost use Rattle.std.specs.Prelude.{◌≡◌, IfOk};

use pdn_base::{Clause, Cond, Memory};
use std::alloc::Global;

/// An equal clause. Its one error is Memory.
pub fn copy_clause(alloc: Global, clause: &Clause) -> Result<Clause, Memory>
    ensures { IfOk result (λ c. c ≡ clause.now) }
{
    let any = Vec::from_slice(alloc, clause.any.as_slice())?;
    Ok(Clause { any })
}

/// An equal condition. Its one error is Memory.
pub fn copy_cond(alloc: Global, cond: &Cond) -> Result<Cond, Memory>
    ensures { IfOk result (λ c. c ≡ cond.now) }
{
    let mut all = Vec::new(alloc);
    for clause in &cond.all {
        all.push(copy_clause(alloc, clause)?)?;
    }
    Ok(Cond { all })
}
