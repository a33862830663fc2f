//! The order of rows.
ghost use Rattle.std.specs.Prelude.{◌≡◌, IfOk};
ghost use Rattle.pdn_base.specs.Values.{key_cmp, keys_cmp, row_cmp};
ghost use Rattle.pdn_base.specs.Operators.{SameRows, InOrder, listed};

use crate::{Memory, Row, Rows};
use std::cmp::Ordering;

/// A column by which rows are ordered, ascending or descending.
#[derive(Clone, Copy, Debug, Drop)]
pub struct Key {
    pub column: u32,
    pub down: bool,
}

/// How two rows stand to each other: by the keys, and then by the columns from left to right.
pub fn rows_order(keys: &[Key], a: &Row, b: &Row) -> Ordering
    ensures { result ≡ row_cmp keys.now a.now b.now }
{
    keys_order(keys, a, b).then(a.cmp(b))
}

fn keys_order(keys: &[Key], a: &Row, b: &Row) -> Ordering
    ensures { result ≡ keys_cmp keys.now a.now b.now }
{
    for key in keys {
        let order = key_order(key, a, b);
        if order != Ordering::Equal {
            return order;
        }
    }
    Ordering::Equal
}

fn key_order(key: &Key, a: &Row, b: &Row) -> Ordering
    ensures { result ≡ key_cmp key.now a.now b.now }
{
    let x = a.cell(key.column);
    let y = b.cell(key.column);
    if key.down { y.cmp(&x) } else { x.cmp(&y) }
}

/// The same rows in their order: by the keys, and then by the columns from left to right, ascending.
pub fn sort_rows(rows: Rows, keys: &[Key]) -> Result<Rows, Memory>
    ensures bag { IfOk result (λ sorted. SameRows rows sorted) }
    ensures order { IfOk result (λ sorted. InOrder keys.now sorted) }
    ensures list { IfOk result (λ sorted. sorted ≡ listed keys.now rows) }
{
    let mut rows = rows.rows;
    rows.sort_by(
        |a: &Row, b: &Row| -> Ordering
            ensures { result ≡ row_cmp keys.entry.now a.now b.now }
        { rows_order(keys, a, b) },
    )?;
    Ok(Rows { rows })
}
