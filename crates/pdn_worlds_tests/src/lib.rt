//! Two worlds of a query. Nothing but tests of public calls.
#![tactic(auto)]

#[cfg(test)]
mod spots;
