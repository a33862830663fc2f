//! The commands of the network, and the one call that does what the words of a command line say.
#![tactic(auto)]

mod check;
mod command;
mod folder;
mod generate;
mod inputs;
mod laws;
mod load;
mod run;
mod top;
mod twin;
mod twin_text;
mod worlds;

pub use laws::{scripts_are_the_same_on_every_tape, twins_have_equal_views};
pub use pdn_query::{Outside, World};
pub use top::pdn;
