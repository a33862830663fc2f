//! Plans: a query bound to a schema, what it means, and which columns it would release.
#![tactic(auto)]

mod answer;
mod binding;
mod block;
mod laws;
mod names;
mod plan_err;
mod refusals;
mod scope;
mod sources;
mod split;
mod steps;
mod tree;

pub use binding::bind;
pub use laws::{
    answers_worked, plan_fits_schema, plan_means_answer, texts_are_written, valid_unions_fit,
};
pub use pdn_tree::{Node, OutColumn, Plan, labels_of};
pub use plan_err::PlanErr;
