//! Rows that are kept against rows that come again.
ghost use Rattle.std.specs.Prelude.{◌≡◌, ◌≤◌, ◌<◌, ◌^◌, length, IfSome, IsErrOf, MatchOption};
ghost use Rattle.pdn_base.specs.Bounds.{IsShort};
ghost use Rattle.pdn_base.specs.Values.{same_row};
ghost use Rattle.pdn_keeper.specs.Batches.{DifferFirst, IsCompared};

use crate::{AddErr, Added};
use pdn_base::Row;
use std::alloc::Global;

/// The answer to rows whose number is kept with these.
pub(crate) fn compared(alloc: Global, kept: &[Row], rows: &[Row]) -> Result<Added, AddErr>
    requires { IsShort kept.now }
    ensures answer { IsCompared kept.now rows.now result }
    ensures no_fault { IsErrOf result AddErr.Failed → ⊥ }
{
    let Some(at) = first_difference(kept, rows) else {
        return Ok(Added::Again);
    };
    let row = match kept.get(at) {
        Some(row) => Some(row.copy(alloc)?),
        None => None,
    };
    Err(AddErr::Differs {
        at: at as u32,
        kept: row,
    })
}

/// The first place where two lists of rows differ, where one of them may have ended.
fn first_difference(kept: &[Row], rows: &[Row]) -> Option<usize>
    ensures first { MatchOption result (kept.now ≡ rows.now) (DifferFirst kept.now rows.now) }
    ensures within { IfSome result (λ at. at ≤ length kept.now) }
{
    for (i, row) in kept.iter().enumerate() {
        let Some(other) = rows.get(i) else {
            return Some(i);
        };
        if !is_same(row, other) {
            return Some(i);
        }
    }
    if kept.len() < rows.len() {
        return Some(kept.len());
    }
    None
}

fn is_same(row: &Row, other: &Row) -> bool
    ensures { result ≡ same_row row.now other.now }
{
    row == other
}
