//! Tests of the desk's connections and of its start: what no clause says.
#![tactic(auto)]

#[cfg(test)]
mod connections;
#[cfg(test)]
mod desks;
#[cfg(test)]
mod starts;
