//! The shelf and the output in memory.
use qc_outside::{MemOut, MemShelf, NoMemory, Out, ReadEnd, Shelf, StoreEnd};
use std::alloc::Global;
use std::process::Abort;

type Outcome = Result<(), NoMemory>;

/// A call of a shelf, and what is to come of it: a read of this content, or one that fails; a write that succeeds, or
/// one that fails; or a file that isn't there.
#[derive(Clone, Copy)]
enum Step {
    Read(&'static str, &'static [u8]),
    FailedRead(&'static str),
    Write(&'static str, &'static [u8]),
    FailedWrite(&'static str, &'static [u8]),
    Absent(&'static str),
}

fn shelf(alloc: Global, contents: &[(&str, &[u8])], failing: &[u64]) -> Result<MemShelf, NoMemory> {
    let mut files = Vec::new(alloc);
    for (name, content) in contents {
        files.push((
            String::from_str(alloc, name)?,
            Vec::from_slice(alloc, content)?,
        ))?;
    }
    Ok(MemShelf::new(files, Vec::from_slice(alloc, failing)?))
}

fn is_content(read: &Result<Vec<u8>, ReadEnd>, content: &[u8]) -> bool {
    match read {
        Ok(bytes) => bytes.as_slice() == content,
        Err(_) => false,
    }
}

fn read(
    alloc: Global,
    files: &mut MemShelf,
    name: &str,
) -> Result<Result<Vec<u8>, ReadEnd>, NoMemory> {
    let name = String::from_str(alloc, name)?;
    Ok(files.read(alloc, &name))
}

fn write(
    alloc: Global,
    files: &mut MemShelf,
    name: &str,
    content: &[u8],
) -> Result<Result<(), StoreEnd>, NoMemory> {
    let name = String::from_str(alloc, name)?;
    Ok(files.write(alloc, &name, content))
}

fn is_absent(alloc: Global, files: &MemShelf, name: &str) -> Result<bool, NoMemory> {
    let name = String::from_str(alloc, name)?;
    Ok(files.file(&name).is_none())
}

/// Does a call, and tells whether what is to come of it came.
fn does(alloc: Global, files: &mut MemShelf, step: Step) -> Result<bool, NoMemory> {
    match step {
        Step::Read(name, content) => Ok(is_content(&read(alloc, files, name)?, content)),
        Step::FailedRead(name) => Ok(matches!(read(alloc, files, name)?, Err(ReadEnd::Failed))),
        Step::Write(name, content) => Ok(write(alloc, files, name, content)?.is_ok()),
        Step::FailedWrite(name, content) => Ok(matches!(
            write(alloc, files, name, content)?,
            Err(StoreEnd::Failed)
        )),
        Step::Absent(name) => is_absent(alloc, files, name),
    }
}

/// A name, the files of a shelf, the numbers of the calls that fail, and calls.
type Row = (
    &'static str,
    &'static [(&'static str, &'static [u8])],
    &'static [u64],
    &'static [Step],
);

const ROWS: [Row; 3] = [
    (
        "the first of a name is read",
        &[("a", b"one"), ("b", b"two"), ("a", b"three")],
        &[],
        &[
            Step::Read("a", b"one"),
            Step::FailedRead("c"),
            Step::Absent("c"),
        ],
    ),
    (
        "the first of a name is written over",
        &[("a", b"one"), ("a", b"two")],
        &[],
        &[
            Step::Write("a", b"four"),
            Step::Read("a", b"four"),
            Step::Write("b", b"five"),
            Step::Read("b", b"five"),
        ],
    ),
    (
        "the chosen calls fail",
        &[("a", b"one")],
        &[2, 3],
        &[
            Step::Read("a", b"one"),
            Step::FailedRead("a"),
            Step::FailedWrite("a", b"two"),
            Step::Read("a", b"one"),
        ],
    ),
];

fn expect(rt: &impl Abort, alloc: Global, row: &Row) -> Outcome {
    let &(name, contents, failing, steps) = row;
    let mut files = shelf(alloc, contents, failing)?;
    for step in steps {
        assert!(rt; does(alloc, &mut files, *step)?, "{name}");
    }
    Ok(())
}

#[test]
fn calls_of_a_shelf(rt: HostRuntime) -> Outcome {
    for row in &ROWS {
        expect(&rt, rt.alloc(), row)?;
    }
    Ok(())
}

/// Pieces that are put, the first at a call that fails.
const PIECES: [(&[u8], bool); 3] = [(b"one", true), (b"two", false), (b"three", false)];

#[test]
fn puts_nothing_at_a_chosen_call(rt: HostRuntime) -> Outcome {
    let alloc = rt.alloc();
    let mut out = MemOut::new(alloc, Vec::from_slice(alloc, &[1])?);
    for (piece, fails) in PIECES {
        let put = out.put(alloc, piece);
        assert_eq!(rt; matches!(put, Err(StoreEnd::Failed)), fails);
        assert_eq!(rt; put.is_ok(), !fails);
    }
    assert!(rt; out.written() == b"twothree".as_slice());
    assert_eq!(rt; out.pieces().len(), 2);
    for (piece, want) in out
        .pieces()
        .iter()
        .zip([b"two".as_slice(), b"three".as_slice()])
    {
        assert!(rt; piece.as_slice() == want);
    }
    Ok(())
}

/// Whether a file of so many zero bytes is read, or else is too long.
fn expect_size(rt: &impl Abort, alloc: Global, size: usize, fits: bool) -> Outcome {
    let mut content = Vec::new(alloc);
    content.resize(size, 0u8)?;
    let mut files = shelf(alloc, &[("a", content.as_slice())], &[])?;
    let found = read(alloc, &mut files, "a")?;
    assert_eq!(rt; found.is_ok(), fits, "at {size}");
    assert_eq!(rt; matches!(found, Err(ReadEnd::TooLong)), !fits, "at {size}");
    Ok(())
}

#[test]
fn refuses_a_file_past_the_limit(rt: HostRuntime) -> Outcome {
    expect_size(&rt, rt.alloc(), 4_194_304, true)?;
    expect_size(&rt, rt.alloc(), 4_194_305, false)
}
