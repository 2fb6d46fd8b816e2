//! The tests of `psc_lex`, by its public calls: sources with the tokens and blocks that were written by hand.
#![tactic(auto)]

#[cfg(test)]
mod tests;
