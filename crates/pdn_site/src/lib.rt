//! What each site does of a query alone: its directories, the units of a query, their circuits and their input words.
#![tactic(auto)]

mod budget;
mod compiling;
mod directories;
mod engine;
mod entering;
mod fits;
mod holding;
mod laws;
mod laying;
mod lengths;
mod narrowing;
mod numbers;
mod operating;
mod outputs;
mod root;
mod root_lengths;
mod rooting;
mod segments;
mod shaping;
mod trees;
mod unit;
mod view;

pub use compiling::compile;
pub use engine::{SiteEngine, SiteErr, first_refused};
pub use entering::kinds_of;
pub use laws::{queries_mean, units_mean};
pub use unit::{CompileErr, Unit, UnitKind, Units};
pub use view::{PublicView, SegDirs};
