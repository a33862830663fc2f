//! What a site sends for an And gate.
use pdn_base::Word;

/// A site's shares of both operands, each under its own mask: `x xor a` and `y xor b`.
#[derive(Clone, Copy, Debug, PartialEq, Eq)]
pub struct Masked {
    pub d: Word,
    pub e: Word,
}
