//! Tests of what a program says of its own lines: nothing but tests of public calls.
#![tactic(auto)]

#[cfg(test)]
mod lines;
#[cfg(test)]
mod places;
