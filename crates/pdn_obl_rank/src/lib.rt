//! The places of rows in their order, and the rows that a limit keeps, as circuits.
#![tactic(auto)]

mod column;
mod comparing;
mod counting;
mod hits;
mod inverting;
mod keys;
mod laws;
mod limiting;
mod numbering;
mod numbers;
mod spreading;

pub use laws::{ranks_mean, ranks_worked};
pub use limiting::top;
pub use numbering::number;
