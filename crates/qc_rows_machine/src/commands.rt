//! Words of commands, and the word that is wrong.
use qc_command::{Command, CommandLine, command_in};
use std::alloc::{AllocError, Global};

/// The words of a call, and what they are: the command with the number of words before its files, or the wrong word.
type Row = (&'static [&'static str], Result<(Command, usize), usize>);

const ROWS: [Row; 42] = [
    (&[], Err(0)),
    (&["frob"], Err(0)),
    (&[""], Err(0)),
    (&["checks", "a", "b"], Err(0)),
    (&["--steps=1", "run", "a", "b", "c", "d"], Err(0)),
    (&["check"], Err(1)),
    (&["check", "a"], Err(2)),
    (&["check", "a", "b"], Ok((Command::Check, 1))),
    (&["check", "a", "b", "c"], Err(3)),
    (&["check", "", "b"], Err(1)),
    (&["check", "a", ""], Err(2)),
    (&["check", "a", "-"], Err(2)),
    (&["check", "--steps=1", "a", "b"], Err(1)),
    (&["compile", "a", "b", "c", "d"], Err(5)),
    (
        &["compile", "a", "b", "c", "d", "e"],
        Ok((Command::Compile, 1)),
    ),
    (&["compile", "--steps=1", "a", "b", "c", "d", "e"], Err(1)),
    (&["compile", "a", "b", "c", "d", "e", "f"], Err(6)),
    (&["run", "a", "b", "c"], Err(4)),
    (&["run", "--steps=7", "a", "b", "c"], Err(5)),
    (
        &["run", "a", "b", "c", "d"],
        Ok((Command::Run { steps: 10_000_000 }, 1)),
    ),
    (
        &["run", "--steps=0", "a", "b", "c", "d"],
        Ok((Command::Run { steps: 0 }, 2)),
    ),
    (
        &["run", "--steps=1000000000", "a", "b", "c", "d"],
        Ok((
            Command::Run {
                steps: 1_000_000_000,
            },
            2,
        )),
    ),
    (
        &["run", "--steps=0000000005", "a", "b", "c", "d"],
        Ok((Command::Run { steps: 5 }, 2)),
    ),
    (&["run", "--steps=00000000001", "a", "b", "c", "d"], Err(1)),
    (&["run", "--steps=1000000001", "a", "b", "c", "d"], Err(1)),
    (&["run", "--steps=9999999999", "a", "b", "c", "d"], Err(1)),
    (&["run", "--steps=", "a", "b", "c", "d"], Err(1)),
    (&["run", "--steps=x", "a", "b", "c", "d"], Err(1)),
    (&["run", "--steps=+1", "a", "b", "c", "d"], Err(1)),
    (&["run", "--steps=-1", "a", "b", "c", "d"], Err(1)),
    (&["run", "--steps=1 ", "a", "b", "c", "d"], Err(1)),
    (&["run", "--steps", "a", "b", "c", "d"], Err(1)),
    (&["run", "--steps", "1", "a", "b", "c", "d"], Err(1)),
    (&["run", "-steps=1", "a", "b", "c", "d"], Err(1)),
    (&["run", "--Steps=1", "a", "b", "c", "d"], Err(1)),
    (&["run", "--depth=3", "a", "b", "c", "d"], Err(1)),
    (&["run", "--", "a", "b", "c", "d"], Err(1)),
    (
        &["run", "--steps=1", "--steps=2", "a", "b", "c", "d"],
        Err(2),
    ),
    (
        &["run", "--steps=1", "--steps=1", "a", "b", "c", "d"],
        Err(2),
    ),
    (&["run", "a", "--steps=1", "b", "c", "d"], Err(2)),
    (&["run", "a", "b", "c", "d", "--steps=1"], Err(5)),
    (
        &["run", "steps=1", "a", "b", "c"],
        Ok((Command::Run { steps: 10_000_000 }, 1)),
    ),
];

fn answer(alloc: Global, list: &[&str]) -> Result<Result<CommandLine, usize>, AllocError> {
    let mut words = Vec::new(alloc);
    for word in list {
        words.push(String::from_str(alloc, word)?)?;
    }
    Ok(command_in(&words))
}

#[test]
fn words_of_commands(rt: HostRuntime) -> Result<(), AllocError> {
    for (words, want) in ROWS {
        let want = match want {
            Ok((command, files)) => Ok(CommandLine { command, files }),
            Err(word) => Err(word),
        };
        assert_eq!(rt; answer(rt.alloc(), words)?, want, "{words:?}");
    }
    Ok(())
}
