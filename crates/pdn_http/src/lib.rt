//! HTTP for the desk: one request of a connection is read, and a reply is made.
#![tactic(auto)]

mod body;
mod call;
mod fields;
mod head;
mod laws;
mod length;
mod read_head;
mod receive;
mod refusal;
mod request;
mod route;
mod want;

pub use call::Call;
pub use laws::connections_have_one_outcome;
pub use refusal::Refusal;
pub use request::{NoRequest, Request, read_request};
