//! The desk: one connection asks for a query's answer, or for one that is kept.
#![tactic(auto)]

mod answer;
mod call;
mod desk_end;
mod laws;
mod line;
mod numbers;
mod outside;
mod reply;
mod serve;
mod start;

pub use desk_end::DeskEnd;
pub use laws::{callers_are_apart, repeats_are_kept};
pub use line::line_of;
pub use outside::DeskOutside;
pub use serve::serve_conn;
pub use start::{Start, serve_start};
