//! Rows on pools, laws, rewriting and tiles, by public calls alone.
#![tactic(auto)]

#[cfg(test)]
mod laws;
#[cfg(test)]
mod pool;
#[cfg(test)]
mod rewriting;
#[cfg(test)]
mod terms;
#[cfg(test)]
mod tiles;
