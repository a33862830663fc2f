//! The link to a peer: what it sends is received, and what it is told is sent.
#![tactic(auto)]

mod link;
mod mem_link;
mod tcp_link;

pub use link::{Link, LinkErr};
pub use mem_link::MemLink;
pub use tcp_link::TcpLink;
