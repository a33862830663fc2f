//! The relational operators in plain: one function an operator, each with its definition on lists of rows as its contract.
#![tactic(auto)]

mod groups;
mod numbers;
mod products;
mod running;
mod selections;

pub use groups::{count, distinct, group};
pub use numbers::{number, top};
pub use products::join;
pub use running::run_local;
pub use selections::{filter, project};
