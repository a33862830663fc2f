//! Circuits of words of 64 lanes, and what they mean in plain.
#![tactic(auto)]

mod adding;
mod builder;
mod circuit;
mod compare;
mod depths;
mod gate;
mod joined;
mod laws;
mod lay;
mod run;
mod sums;
mod tally;

pub use builder::{Builder, MOST_GATES};
pub use circuit::{Circuit, Inputs};
pub use depths::gate_depths;
pub use gate::Gate;
pub use laws::{block_laws, blocks_stand};
pub use lay::Pick;
pub use run::eval;
pub use tally::BuildErr;
