//! The tests of types and of what is built on them, by public calls: `psc_type`, `psc_type_text`, `psc_expand`,
//! `psc_groups` and `psc_brackets`. Each is a table, so that a new row needs no new proof.
#![tactic(auto)]

#[cfg(test)]
mod ask;
#[cfg(test)]
mod brackets;
#[cfg(test)]
mod expand;
#[cfg(test)]
mod groups;
#[cfg(test)]
mod texts;
#[cfg(test)]
mod types;
#[cfg(test)]
mod words;
