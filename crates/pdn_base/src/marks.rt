//! What a schema says of a column.

/// The kind of a column's values.
#[derive(Clone, Copy, Debug, PartialEq, Eq)]
pub enum Kind {
    Int,
    Code,
}

/// How far a column may be shown, in rising order.
#[derive(Clone, Copy, Debug, PartialEq, Eq)]
pub enum Label {
    Public,
    Protected,
    Private,
}
