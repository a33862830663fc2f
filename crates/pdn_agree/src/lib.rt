//! Unions of two sites' tables that a site can't tell apart by what it may see.
#![tactic(auto)]

mod laws;
mod spot;

pub use laws::{agreeing_unions_have_equal_own_words, agreeing_unions_have_equal_shapes};
pub use spot::{Spot, disagree};
