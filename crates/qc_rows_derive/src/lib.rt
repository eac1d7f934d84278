//! Rows on derivations, by public calls alone.
#![tactic(auto)]

#[cfg(test)]
mod derivations;
