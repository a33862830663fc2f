//! What each party to a query sees of it, as text.
#![tactic(auto)]

mod due;
mod guesses;
mod laws;
mod lines;
mod machine;
mod printing;
mod reading;
mod view;
mod view_err;
mod words;

pub use due::{Counts, Due};
pub use laws::units_are_those_of_the_directories;
pub use printing::print_view;
pub use reading::read_view;
pub use view::{Party, UnitPart, View};
pub use view_err::ViewErr;
