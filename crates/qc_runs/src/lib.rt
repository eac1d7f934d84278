//! Runs of deterministic automata and of machines of lines: what is shown before each turn, what a simulation says of it, and
//! that lines answered by groups of lines, or put at addresses, show the same.
//!
//! It has no code: definitions stand in `specs`, and laws for the crates above in `specs/Law`.
#![tactic(auto)]
