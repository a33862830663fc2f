//! The program explains itself: what a line `refused ..` or `fault ..` says, in plain words.
//!
//! `explain("refused 9 none.sql")` is `Some("There is no file of this name; ..")`, and `explain("loaded new")` is `None`. The sentences
//! are data: a table of forms of lines, by status, kind and cause (`LINES`).
#![tactic(auto)]

mod lines;
mod places;
mod table;

pub use lines::{explain, explain_in, meaning, meaning_in, place_of};
pub use places::place_text;
pub use table::{LINES, Told};
