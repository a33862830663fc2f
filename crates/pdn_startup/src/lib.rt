//! What a program takes up before its command: the key of the tape, and the rows of the sites' files.
#![tactic(auto)]

mod imports;
mod key;

pub use imports::{ImportErr, import_tables, schema_there};
pub use key::dealer_of;
