//! Draws from one word, and jobs that several workers share. Nothing but tests of public calls.
#![tactic(auto)]

#[cfg(test)]
mod draws;
#[cfg(test)]
mod jobs;
#[cfg(test)]
mod meeting;
