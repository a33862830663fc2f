//! The replies of the desk: their heads, and their bodies as JSON.
#![tactic(auto)]

mod answer;
mod failure;
mod message;

pub use answer::answer_body;
pub use failure::error_body;
pub use message::reply;
