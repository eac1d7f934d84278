//! The words of a command.
ghost use Rattle.std.specs.Prelude.{◌≡◌, ◌≢◌, IfSome, IsNone, IfOk, IfErr, drop, map, string_bytes, codes};
ghost use Rattle.qc_command.specs.Command as spec;
ghost use Rattle.qc_command.specs.Command.{texts_of, is_file_word as is_file, IsCommandLine, IsUsage};
ghost use Rattle.qc_command.specs.Inner.CommandWords.{option_of, AreFiles, HaveValues, IsSameKind, IsSetBy, IsWrongFile};

use crate::settings::{OptionRule, setting_count, value_of};

/// A command with its options.
#[derive(Clone, Copy, Debug, PartialEq, Eq)]
pub enum Command {
    Check,
    Compile,
    Run { steps: u64 },
}

/// A command, and how many words stand before its first file.
#[derive(Clone, Copy, Debug, PartialEq, Eq)]
pub struct CommandLine {
    pub command: Command,
    pub files: usize,
}

const STEPS: OptionRule = OptionRule {
    name: "steps",
    least: 0,
    most: 1_000_000_000,
    default: 10_000_000,
};

static RUN_RULES: [OptionRule; 1] = [STEPS];

/// The command of a name, with the defaults of its options.
fn command_named(name: &str) -> Option<Command>
    ensures some { IfSome result (λ command. name.now ≡ spec.command_name command) }
    ensures none { IsNone result → (command : Command) → name.now ≢ spec.command_name command }
{
    match name {
        "check" => Some(Command::Check),
        "compile" => Some(Command::Compile),
        "run" => Some(Command::Run {
            steps: STEPS.default,
        }),
        _ => None,
    }
}

/// The options of a command.
fn rules_of(command: Command) -> &'static [OptionRule]
    ensures { map option_of result.now ≡ spec.options_of command }
{
    match command {
        Command::Check | Command::Compile => &[],
        Command::Run { .. } => &RUN_RULES,
    }
}

/// The command with its options as the words set them.
fn set_by(command: Command, given: &[String]) -> Command
    requires { HaveValues (spec.options_of command) (texts_of given.now) }
    ensures kind { IsSameKind command result }
    ensures options { IsSetBy result (texts_of given.now) }
{
    match command {
        Command::Check => Command::Check,
        Command::Compile => Command::Compile,
        Command::Run { .. } => Command::Run {
            steps: value_of(&STEPS, given),
        },
    }
}

/// How many files a command names.
fn file_count(command: Command) -> usize
    ensures { result ≡ spec.file_count command }
{
    match command {
        Command::Check => 2,
        Command::Compile => 5,
        Command::Run { .. } => 4,
    }
}

fn is_file_word(word: &String) -> bool
    ensures { result ≡ is_file (string_bytes word.now) }
{
    match word.as_bytes() {
        [] => false,
        [first, ..] => *first != b'-',
    }
}

/// How many of the file words a command with so many files may start with, if they are not those of one.
fn wrong_file(files: &[String], count: usize) -> Option<usize>
    ensures wrong { IfSome result (IsWrongFile count (texts_of files.now)) }
    ensures right { IsNone result → AreFiles count (texts_of files.now) }
{
    for (place, file) in files.iter().enumerate() {
        if place == count || !is_file_word(file) {
            return Some(place);
        }
    }
    if files.len() < count {
        Some(files.len())
    } else {
        None
    }
}

/// The command that the words are, and where its files begin; or, of words that are no command, how many of them the
/// longest front has that begins some command.
pub fn command_in(words: &Vec<String>) -> Result<CommandLine, usize>
    ensures usage { IfErr result (IsUsage (texts_of words.now.items)) }
    ensures command { IfOk result (λ line.
        IsCommandLine (texts_of words.now.items) line.command (drop line.files (texts_of words.now.items))) }
{
    let Some((name, more)) = words.as_slice().split_first() else {
        return Err(0);
    };
    let Some(command) = command_named(name) else {
        return Err(0);
    };
    let count = setting_count(rules_of(command), more);
    let (given, files) = more.split_at(count);
    match wrong_file(files, file_count(command)) {
        Some(place) => Err(1 + count + place),
        None => Ok(CommandLine {
            command: set_by(command, given),
            files: 1 + count,
        }),
    }
}
