//! Tests of the desk's keeper in memory: nothing but tests of public calls.
#![tactic(auto)]

#[cfg(test)]
mod calls;
#[cfg(test)]
mod tickets;
