//! What the desk keeps: the next ticket, and the calls that it answered.
#![tactic(auto)]

mod desk_keeper;
mod kept;
mod laws;
mod mem_desk;

pub use desk_keeper::DeskKeeper;
pub use kept::Kept;
pub use laws::tickets_rise;
pub use mem_desk::MemDesk;
