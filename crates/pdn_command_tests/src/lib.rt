//! Tests of what no clause of the top call says, and of the blocks and sections below it.
#![tactic(auto)]

#[cfg(test)]
mod networks;
#[cfg(test)]
mod one_count;
#[cfg(test)]
mod recording;
#[cfg(test)]
mod recurrent_diagnosis;
#[cfg(test)]
mod sections;
#[cfg(test)]
mod waiting;
