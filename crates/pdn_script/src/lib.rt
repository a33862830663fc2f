//! Scripts: what a command should do, as a tree of questions and texts, over any type of question; how a command may go along
//! its script, and how it ends.
#![tactic(auto)]

mod closing;
mod stop;

pub use closing::conclude;
pub use stop::{Stop, refused, refused_at};
