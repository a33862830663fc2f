//! Values that stand in too many rows.
ghost use Rattle.std.specs.Prelude.{◌≡◌, ◌≤◌, ◌<◌, ◌⊎◌, ℕ, length, IfSome, MatchOption, Some};
ghost use Rattle.pdn_base.specs.Values.{number_of};
ghost use Rattle.pdn_base.specs.declared.marks.Label.TheVariants as labels;
ghost use Rattle.pdn_schema.specs.Rows.{standing, KeepEach, KeepsPer};
ghost use Rattle.pdn_keeper.specs.Batches.{IsLeastOver, IsOverPer};

use pdn_base::{Label, Row, Value};
use pdn_schema::{Column, count_of};

/// The first public column with a value that stands in too many rows, and its least such value.
pub(crate) fn over_per(columns: &[Column], rows: &[Row]) -> Option<(u32, Value)>
    requires { length columns.now ≤ 8 }
    ensures { MatchOption result (KeepEach columns.now rows.now)
        (λ over. IsOverPer columns.now rows.now over.0 over.1) }
{
    for (i, column) in columns.iter().enumerate() {
        if let Some(value) = over_in(column, i as u32, rows) {
            return Some((i as u32, value));
        }
    }
    None
}

/// The least value that stands in more rows than a public column allows.
fn over_in(column: &Column, at: u32, rows: &[Row]) -> Option<Value>
    ensures { MatchOption result (KeepsPer rows.now at column.now)
        (λ v. (column.now.mark ≡ labels.Public) × IsLeastOver at column.now.per rows.now v) }
{
    if column.mark == Label::Public {
        least_over(rows, at, column.per)
    } else {
        None
    }
}

/// The least value that stands in a column of more rows than these.
fn least_over(rows: &[Row], column: u32, per: u32) -> Option<Value>
    ensures { MatchOption result ((number : ℕ) → standing column number rows.now ≤ per)
        (IsLeastOver column per rows.now) }
{
    let mut least = None;
    for row in rows {
        let value = row.cell(column);
        if (per as usize) < count_of(rows, column, value.number()) {
            least = Some(lesser(least, value));
        }
    }
    least
}

/// The one of the lesser number.
fn lesser(least: Option<Value>, value: Value) -> Value
    ensures one { (result ≡ value) ⊎ (least ≡ Some result) }
    ensures within { number_of result ≤ number_of value }
    ensures within_least { IfSome least (λ v. number_of result ≤ number_of v) }
{
    match least {
        Some(other) if other.number() <= value.number() => other,
        _ => value,
    }
}
