//! Tokens, and where they stand.

use crate::text::Text;
use pdn_base::Code;

#[derive(Clone, Copy, Debug, PartialEq, Eq)]
pub enum Keyword {
    Select,
    Distinct,
    From,
    As,
    Join,
    Inner,
    On,
    Where,
    And,
    Or,
    Group,
    By,
    Having,
    Order,
    Limit,
    With,
    Count,
    RowNumber,
    Over,
    Partition,
    Asc,
    Desc,
}

#[derive(Clone, Copy, Debug, PartialEq, Eq)]
pub enum Symbol {
    Open,
    Close,
    Comma,
    Dot,
    Semicolon,
    Star,
    Plus,
    Equal,
    Unequal,
    Less,
    AtMost,
    More,
    AtLeast,
}

/// A token, or a mark that no token can stand at a place.
#[derive(Debug, Drop)]
pub enum Token {
    Word(Keyword),
    Name(Text),
    Number(u32),
    Code(Code),
    Mark(Symbol),
    /// Nothing that can stand here, and the kind of fault that it is.
    Bad(u8),
}

/// A token and the place of its first byte.
#[derive(Debug, Drop)]
pub struct Placed {
    pub at: u32,
    pub token: Token,
}
