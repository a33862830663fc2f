//! What is wrong with the rows of a table.

/// Why rows are not valid for their table: too many rows, too many rows of one value of a public column, or a value
/// of the wrong kind.
#[derive(Clone, Copy, Debug, PartialEq, Eq)]
pub enum RowsErr {
    TooMany,
    PerValue(u32),
    WrongType { row: u32, column: u32 },
}
