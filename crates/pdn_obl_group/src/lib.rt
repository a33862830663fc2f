//! Distinct rows, groups and counts of padded lists, as circuits.
#![tactic(auto)]

mod counting;
mod cutting;
mod grouping;
mod having;
mod kept;
mod keys;
mod laws;
mod repeats;
mod rows;
mod single;
mod slices;

pub use counting::{bits, count, count_planes, no_count};
pub use cutting::cut_distinct;
pub use grouping::group;
pub use laws::{groups_keep_kinds, groups_mean};
pub use repeats::distinct;
pub use rows::{Spread, match_gate, spread_row};
pub use slices::cut_group;
