//! Rows on register transfer lists, descriptions and the shipped machines, by public calls alone.
#![tactic(auto)]

#[cfg(test)]
mod codings;
#[cfg(test)]
mod machines;
#[cfg(test)]
mod terms;
#[cfg(test)]
mod tiles;
