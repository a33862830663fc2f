//! What a request speaks of.

/// A number of a caller, who is given by their place in the schema.
#[derive(Clone, Copy, Debug, PartialEq, Eq)]
pub struct Call {
    pub caller: u32,
    pub number: u64,
}
