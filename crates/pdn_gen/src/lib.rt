//! The standing queries of a stated network, answered in short.
#![tactic(auto)]

mod answering;
mod laws;
mod size;
mod summary;

pub use answering::{Counted, answer_over};
pub use laws::{standing_queries_are_written, standing_queries_bind};
pub use size::Size;
pub use summary::short_text;
