//! Units of queries, what each site enters into them, a unit's run, and an answer by several workers. Nothing but tests of public calls.
#![tactic(auto)]

#[cfg(test)]
mod answers;
#[cfg(test)]
mod engines;
#[cfg(test)]
mod plans;
#[cfg(test)]
mod units;
#[cfg(test)]
mod workers;
