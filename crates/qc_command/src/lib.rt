//! The words of a command: its name, words that set its options, and its files.
#![tactic(auto)]

mod laws;
mod settings;
mod words;

pub use laws::{one_command, one_usage, usage_is_no_command};
pub use words::{Command, CommandLine, command_in};
