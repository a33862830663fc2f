//! The tree of a plan: its shape, what it means, and how far its columns may be shown.
#![tactic(auto)]

mod conditions;
mod labels;
mod makers;
mod node;
mod plan;
mod sizes;

pub use conditions::{copy_clause, copy_cond};
pub use labels::{is_public, label_at, labels_of};
pub use makers::{
    make_count, make_distinct, make_filter, make_group, make_join, make_number, make_project,
    make_top,
};
pub use node::{Below, Node};
pub use plan::{OutColumn, Plan};
pub use sizes::{has_join_in, nodes_of};
