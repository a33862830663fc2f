//! The answer of a query over both sites' tables, by two halves for each secure unit and for the root.
#![tactic(auto)]

mod answered;
mod answering;
mod laws;
mod opening;
mod prepared;
mod preparing;
mod shares;
mod unit_job;
mod unit_run;
mod units;
mod views;
mod watch;

pub use answered::{Answered, Dealt};
pub use answering::answer;
pub use laws::{answers_mean, compiled_units_tell, prepared_form};
pub use prepared::Prepared;
pub use preparing::{PrepareErr, prepare};
pub use shares::Shares;
pub use unit_run::{run_dealt, run_unit};
pub use views::{broker_view, site_view};
pub use watch::Watch;
