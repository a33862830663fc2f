//! Tests of requests and replies: nothing but tests of public calls.
#![tactic(auto)]

#[cfg(test)]
mod bytes;
#[cfg(test)]
mod replies;
#[cfg(test)]
mod requests;
