//! Queries in two worlds that a site can't tell apart. Nothing but tests of public calls.
#![tactic(auto)]

#[cfg(test)]
mod plans;
#[cfg(test)]
mod tables;
#[cfg(test)]
mod twenty_pairs;
#[cfg(test)]
mod worlds;
