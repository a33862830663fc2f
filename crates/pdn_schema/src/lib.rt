//! The schema of the network: its file, read and printed, and the rows that are valid for a table.
#![tactic(auto)]

mod cause;
mod form;
mod name;
mod partial;
mod print;
mod read;
mod schema;
mod valid;
mod words;

pub use name::Name;
pub use print::print_schema;
pub use read::{SchemaErr, read_schema};
pub use schema::{Caller, Column, Schema, Table};
pub use valid::{count_of, valid_rows};
