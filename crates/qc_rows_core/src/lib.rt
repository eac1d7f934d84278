//! Rows of the commands: words and files, and what the call of the program answers, puts and writes.
#![tactic(auto)]

#[cfg(test)]
mod checks;
#[cfg(test)]
mod commands;
#[cfg(test)]
mod compilations;
#[cfg(test)]
mod programs;
#[cfg(test)]
mod runs;
#[cfg(test)]
mod usages;
