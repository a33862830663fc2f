//! What the sites and the desk keep, in databases: a site's batches of rows, and the desk's next ticket and calls.
#![tactic(auto)]

mod cells;
mod desk;
mod desk_tables;
mod fault;
mod form;
mod link;
mod place;
mod site;
mod site_tables;

pub use desk::SqliteDesk;
pub use place::{Adopted, AtPath, Place};
pub use site::SqliteSite;
