//! Whose views are shown.

/// Whose views are shown after an answer: one party's, or all three, A's first, then B's and the broker's.
#[derive(Clone, Copy, Debug, PartialEq, Eq)]
pub enum Show {
    A,
    B,
    Broker,
    All,
}
