//! A query run in two worlds that a site can't tell apart: the site's view in each, and the places at which the sections change.
#![tactic(auto)]

mod runs;
mod starts;
mod twin_job;
mod twinning;
mod twins;
mod unit_twin;

pub use twinning::twin;
pub use twins::{Change, Twin, Worlds};
