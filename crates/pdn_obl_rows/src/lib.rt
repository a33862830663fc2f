//! Lists of rows as planes of gates, and the operators on them that keep or join rows.
#![tactic(auto)]

mod appending;
mod conditions;
mod decoding;
mod encoding;
mod filtering;
mod joining;
mod laws;
mod padded;
mod projecting;
mod shape;

pub use appending::append;
pub use conditions::{filled, word_planes};
pub use decoding::decode;
pub use encoding::encode;
pub use filtering::filter;
pub use joining::join;
pub use laws::{operators_keep_kinds, operators_mean};
pub use padded::{Padded, Plane};
pub use projecting::project;
pub use shape::{width, words_for};
