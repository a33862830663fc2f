//! Tests of the stores over disks in memory: nothing but tests of public calls.
#![tactic(auto)]

#[cfg(test)]
mod bounds;
#[cfg(test)]
mod desk;
#[cfg(test)]
mod disks;
#[cfg(test)]
mod form;
#[cfg(test)]
mod site;
#[cfg(test)]
mod stopping;
#[cfg(test)]
mod stops;
