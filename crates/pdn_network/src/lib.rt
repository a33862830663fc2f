//! The stated network of a seed, of any size, and its standing queries.
#![tactic(auto)]

mod laws;
mod network;
mod standing;

pub use laws::standing_queries_are_said;
pub use network::{Network, stated_network};
pub use standing::standing_queries;
