//! Two worlds of one unit: the change of a unit's section under which a site sees the same in both.
#![tactic(auto)]

mod change;
mod laws;

pub use change::shift;
pub use laws::{change_is_undone, small_shift_comes_out, worlds_look_alike};
