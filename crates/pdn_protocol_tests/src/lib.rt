//! Lists of words, what dealers deal, and what two halves send each other, see and put out. Nothing but tests of public
//! calls.
#![tactic(auto)]

#[cfg(test)]
mod dealers;
#[cfg(test)]
mod halves;
#[cfg(test)]
mod kernels;
#[cfg(test)]
mod runs;
#[cfg(test)]
mod shifts;
