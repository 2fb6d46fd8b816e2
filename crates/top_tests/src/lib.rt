//! The tests of `psc_top`, by its public calls: whole runs in memory.
#![tactic(auto)]

#[cfg(test)]
mod tests;
