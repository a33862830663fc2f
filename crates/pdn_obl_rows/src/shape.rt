//! Sizes of planes.
ghost use Rattle.std.specs.Prelude.{◌≡◌, ◌<◌, ◌≤◌, length};
ghost use Rattle.pdn_obl_rows.specs.Lists.{width_of, words_for, kind_at};

use pdn_base::Kind;

/// The planes of a column of this kind.
pub fn width(kind: Kind) -> u32
    ensures { result ≡ width_of kind }
{
    match kind {
        Kind::Int => 32,
        Kind::Code => 64,
    }
}

/// The words that have a lane for each of so many rows.
#[tactic(auto, unfolding(crate::specs::Lists::words_for))]
pub fn words_for(len: u32) -> usize
    ensures { result ≡ words_for len }
{
    (len as usize + 63) / 64
}

/// The kind of a column.
pub(crate) fn kind_at(kinds: &[Kind], column: usize) -> Kind
    requires { column < length kinds.now }
    ensures { result ≡ kind_at kinds.now column }
{
    kinds[column]
}

/// The planes of a column of these kinds.
pub(crate) fn width_at(kinds: &[Kind], column: usize) -> u32
    requires { column < length kinds.now }
    ensures width { result ≡ width_of (kind_at kinds.now column) }
    ensures most { result ≤ 64 }
{
    width(kind_at(kinds, column))
}
