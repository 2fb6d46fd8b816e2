//! The tests of what is printed, `psc_corefn` and `psc_js`, by their public calls: whole texts that were written by hand.
#![tactic(auto)]

#[cfg(test)]
mod corefn;
#[cfg(test)]
mod js;
#[cfg(test)]
mod notation;
#[cfg(test)]
mod rows;
