//! Views as text. Nothing but tests of public calls.
#![tactic(auto)]

#[cfg(test)]
mod refusals;
#[cfg(test)]
mod texts;
#[cfg(test)]
mod views;
