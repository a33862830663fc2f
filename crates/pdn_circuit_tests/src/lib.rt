//! Circuits and what operators make of lists of rows: evaluated in plain, and refused past their bounds. Nothing but tests
//! of public calls.
#![tactic(auto)]

#[cfg(test)]
mod circuits;
#[cfg(test)]
mod groups;
#[cfg(test)]
mod lists;
#[cfg(test)]
mod ranks;
#[cfg(test)]
mod rows;
