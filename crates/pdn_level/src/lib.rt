//! Which part of a plan runs where: slice columns, levels, and segments with the columns of tables to which they are traced.
#![tactic(auto)]

mod laws;
mod links;
mod slices;
mod staged;
mod staging;

pub use laws::{root_fits, unions_are_wide, units_fit, units_fit_together};
pub use staged::{Leaf, Level, Segment, Staged};
pub use staging::{level_of, levels};
