//! The protocol of Goldreich, Micali and Wigderson for two sites: each half holds shares of a circuit's words and
//! exchanges frames with the other, one for each depth of And gates.
#![tactic(auto)]

mod finished;
mod half;
mod holdings;
mod input_masks;
mod laws;
mod layers;
mod masked;
mod rounds;
mod run;
mod schedule;
mod stage;
mod step;
mod views;

pub use finished::Finished;
pub use half::Half;
pub use laws::{halves_meet, one_and_comes_out, rounds_tell_the_same, small_run_comes_out};
pub use run::{UnitRun, run_pair};
pub use schedule::Schedule;
pub use step::{FrameErr, Step};
pub use views::{GateView, UnitView};
