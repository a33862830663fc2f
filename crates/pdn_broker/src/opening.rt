//! The rows that opened words say.
ghost use Rattle.std.specs.Prelude.{◌≡◌, ◌+◌, ◌*◌, length, IfOk};
ghost use Rattle.pdn_base.specs.Operators.{listed};
ghost use Rattle.pdn_base.specs.Words.{xor_lists};
ghost use Rattle.pdn_obl_rows.specs.Lists.{valid_rows, widths, words_for};
ghost use Rattle.pdn_obl_rows.specs.Encoding.{RowsAreOf, list_from};

use pdn_base::{Key, Kind, Memory, Rows, Word, sort_rows};
use pdn_obl_rows::decode;
use std::alloc::Global;

/// The rows, in an order, that two outputs come to when they are put together.
pub(crate) fn opened_rows(
    alloc: Global,
    a: &[Word],
    b: &[Word],
    kinds: &[Kind],
    len: u32,
    order: &[Key],
) -> Result<Rows, Memory>
    requires same { length b.now ≡ length a.now }
    requires count { length (xor_lists a.now b.now) ≡ (widths kinds.now + 1) * words_for len }
    requires kinds { RowsAreOf kinds.now
        (valid_rows (xor_lists a.now b.now) (list_from 0 kinds.now len)) }
    ensures { IfOk result (λ rows.
        rows ≡ listed order.now (valid_rows (xor_lists a.now b.now) (list_from 0 kinds.now len))) }
{
    let words = xor_words(alloc, a, b)?;
    let rows = decode(alloc, words.as_slice(), kinds, len)?;
    sort_rows(rows, order)
}

/// What two lists come to, word by word.
fn xor_words(alloc: Global, a: &[Word], b: &[Word]) -> Result<Vec<Word>, Memory>
    requires { length b.now ≡ length a.now }
    ensures { IfOk result (λ words. words.items ≡ xor_lists a.now b.now) }
{
    let mut words = Vec::new(alloc);
    for k in 0..a.len() {
        words.push(a[k].xor(&b[k]))?;
    }
    Ok(words)
}
