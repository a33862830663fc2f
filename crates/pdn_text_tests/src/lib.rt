//! What texts and files say, and what becomes of it: files and sinks, refusals, values and rows, schemas, queries and
//! batches. Nothing but tests of public calls; what the top call tells of them stands in cases.
#![tactic(auto)]

#[cfg(test)]
mod ends;
#[cfg(test)]
mod keepers;
#[cfg(test)]
mod queries;
#[cfg(test)]
mod rows;
#[cfg(test)]
mod schemas;
#[cfg(test)]
mod texts;
