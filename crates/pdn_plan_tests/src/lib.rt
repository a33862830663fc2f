//! Plans, from a query on: the tree to which it is bound, at which level each part of it is worked out, and what its
//! operators give of rows in plain. Nothing but tests of public calls; what the top call tells of them stands in cases.
#![tactic(auto)]

#[cfg(test)]
mod binding;
#[cfg(test)]
mod levels;
#[cfg(test)]
mod plain;
#[cfg(test)]
mod plans;
