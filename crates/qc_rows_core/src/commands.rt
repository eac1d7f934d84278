//! Commands on files in memory, and what is to come of them.
use qc_core::{Status, quick};
use qc_outside::{MemOut, MemShelf};
use qc_text::NoMemory;
use std::alloc::Global;
use std::process::Abort;

pub(crate) type Outcome = Result<(), NoMemory>;

/// A text: bytes, a piece that follows so many times, and the bytes after.
pub(crate) type Text = (&'static [u8], &'static [u8], usize, &'static [u8]);

pub(crate) const NO_BYTE: Text = (b"", b"", 0, b"");

/// The contents of the files `a` to `d`.
pub(crate) type Files = [Text; 4];

pub(crate) const NO_FILES: Files = [NO_BYTE; 4];

/// The numbers of the calls that are to fail: of the shelf, and of the output.
pub(crate) type Failing = (&'static [u64], &'static [u64]);

pub(crate) const NO_FAULT: Failing = (&[], &[]);

/// What is to come of a command: the status, the lines, and whether there is a file `e`.
pub(crate) type Want = (Status, &'static str, bool);

/// The words of a list.
fn words(alloc: Global, list: &[&str]) -> Result<Vec<String>, NoMemory> {
    let mut words = Vec::new(alloc);
    for word in list {
        words.push(String::from_str(alloc, word)?)?;
    }
    Ok(words)
}

fn bytes(alloc: Global, text: Text) -> Result<Vec<u8>, NoMemory> {
    let (before, piece, times, after) = text;
    let mut bytes = Vec::from_slice(alloc, before)?;
    for _ in 0..times {
        bytes.extend_from_slice(piece)?;
    }
    bytes.extend_from_slice(after)?;
    Ok(bytes)
}

/// The bytes before the first place of a piece, and those from there on; or all bytes, where the piece stands nowhere.
pub(crate) fn split_at_piece<'a>(bytes: &'a [u8], piece: &[u8]) -> (&'a [u8], &'a [u8]) {
    for place in 0..bytes.len() {
        let (before, rest) = bytes.split_at(place);
        if rest.starts_with(piece) {
            return (before, rest);
        }
    }
    (bytes, b"")
}

/// The text of these bytes.
pub(crate) fn plain(bytes: &'static [u8]) -> Text {
    (bytes, b"", 0, b"")
}

/// A shelf with these files.
pub(crate) fn shelf(alloc: Global, files: Files, failing: &[u64]) -> Result<MemShelf, NoMemory> {
    let mut stored = Vec::new(alloc);
    let files = [
        ("a", files[0]),
        ("b", files[1]),
        ("c", files[2]),
        ("d", files[3]),
    ];
    for (name, text) in files {
        stored.push((String::from_str(alloc, name)?, bytes(alloc, text)?))?;
    }
    Ok(MemShelf::new(stored, Vec::from_slice(alloc, failing)?))
}

/// Whether the pieces are as many as there are line feeds in the text, and each ends with one.
fn are_lines(pieces: &[Vec<u8>], text: &[u8]) -> bool {
    let mut feeds = 0usize;
    for byte in text {
        if *byte == b'\n' {
            feeds = feeds.wrapping_add(1);
        }
    }
    pieces.len() == feeds && pieces.iter().all(|piece| piece.as_slice().ends_with(b"\n"))
}

/// Runs a command on a shelf, and compares what comes of it.
pub(crate) fn expect_on(
    rt: &impl Abort,
    alloc: Global,
    list: &[&str],
    shelf: &mut MemShelf,
    failing_puts: &[u64],
    want: Want,
) -> Outcome {
    let (status, lines, has_file) = want;
    let mut out = MemOut::new(alloc, Vec::from_slice(alloc, failing_puts)?);
    let answer = quick(alloc, &words(alloc, list)?, shelf, &mut out);
    let written = String::from_str(alloc, "e")?;
    assert_eq!(rt; answer, status, "{list:?}");
    assert!(rt; out.written() == lines.as_bytes(), "{list:?} {status:?}");
    assert!(rt;
        are_lines(out.pieces(), lines.as_bytes()),
        "{list:?} {status:?}"
    );
    assert_eq!(rt;
        shelf.file(&written).is_some(),
        has_file,
        "{list:?} {status:?}"
    );
    Ok(())
}

/// Runs a command on these files, and compares what comes of it.
pub(crate) fn expect(
    rt: &impl Abort,
    alloc: Global,
    list: &[&str],
    files: Files,
    failing: Failing,
    want: Want,
) -> Outcome {
    let mut shelf = shelf(alloc, files, failing.0)?;
    expect_on(rt, alloc, list, &mut shelf, failing.1, want)
}
