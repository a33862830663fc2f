//! One query over both sites' rows, and the objects outside a command as one value.
#![tactic(auto)]

mod answer;
mod answer_text;
mod binding;
mod columns;
mod judging;
mod kept;
mod laws;
mod show;
mod tables;
mod tickets;
mod views;
mod who;
mod workers;
mod world;

pub use answer::{AnsweredQuery, Numbered, answer_prepared, answered_query, query_answer, ready};
pub use answer_text::{put_rows, query_name};
pub use binding::bound;
pub use columns::column_name;
pub use judging::{compared, judged};
pub use kept::kept_tables;
pub use laws::answers_are_the_same_on_every_tape;
pub use show::Show;
pub use tickets::next_ticket;
pub use who::{failed_line, who_of};
pub use workers::{Crew, Workers};
pub use world::{Batch, Outside, World, say};
