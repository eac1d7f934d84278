//! Words that are no command.
use crate::commands::{NO_FAULT, NO_FILES, Outcome, expect};
use qc_core::Status;

/// Words that are no command, and the number of the first wrong one.
const WRONG_WORDS: [(&[&str], usize); 29] = [
    (&[], 0),
    (&["frob"], 0),
    (&["check"], 1),
    (&["check", "a"], 2),
    (&["check", "a", "b", "c"], 3),
    (&["check", "-x", "b"], 1),
    (&["check", "a", ""], 2),
    (&["frob", "a"], 0),
    (&[""], 0),
    (&["compile"], 1),
    (&["compile", "a", "b", "c", "d"], 5),
    (&["compile", "a", "b", "c", "d", "e", "f"], 6),
    (&["compile", "", "b"], 1),
    (&["compile", "-a", "b", "c", "d", "e"], 1),
    (&["compile", "a", "-", "c", "d", "e"], 2),
    (&["compile", "a", "b", "", "d", "e"], 3),
    (&["compile", "a", "b", "c", "-d", "e"], 4),
    (&["compile", "a", "b", "c", "d", "-e"], 5),
    (&["compile", "a", "b", "c", "d", ""], 5),
    (&["compile", "--steps=1", "a", "b", "c", "d", "e"], 1),
    (&["check", "--steps=1", "a", "b"], 1),
    (&["run", "a", "b", "c"], 4),
    (&["run", "a", "b", "c", "d", "e"], 5),
    (&["run", "--steps=x", "a", "b", "c", "d"], 1),
    (&["run", "--steps=1000000001", "a", "b", "c", "d"], 1),
    (&["run", "--steps=1", "--steps=1", "a", "b", "c", "d"], 2),
    (&["run", "a", "b", "--steps=1", "c", "d"], 3),
    (&["run", "a", "b", "c", "d", "--steps=1"], 5),
    (&["run", "a", "b", "c", "-"], 4),
];

#[test]
fn finds_the_first_wrong_word(rt: HostRuntime) -> Outcome {
    for (list, word) in WRONG_WORDS {
        let want = (Status::Usage { word }, "", false);
        expect(&rt, rt.alloc(), list, NO_FILES, NO_FAULT, want)?;
    }
    Ok(())
}
