//! The program over a runtime with given words and files.
ghost use Rattle.std.specs.Prelude.{IsErr};

use super::*;
use qc_core::{TIN32_LRTL, TIN32_SLED};
use std::alloc::Allocator;
use std::env::FillError;
use std::fmt::Display;
use std::fs::{Metadata, OpenFile, OpenOptions};
use std::io::{self, Error, ErrorKind, Read, Seek, SeekFrom, Write};

/// A runtime that gives these words, and takes what is printed only where it prints.
#[derive(Drop)]
struct Given {
    words: &'static [&'static str],
    prints: bool,
}

fn no<T>() -> io::Result<T>
    ensures { IsErr result }
{
    Err(Error::from(ErrorKind::Unsupported))
}

impl Env for Given {
    fn arg(&self, i: usize, buf: &mut [u8]) -> Result<usize, FillError> {
        let bytes = match self.words.get(i) {
            Some(word) => word.as_bytes(),
            None => return Err(FillError::NotPresent),
        };
        if bytes.len() > buf.len() {
            return Err(FillError::TooLong);
        }
        buf[..bytes.len()].copy_from_slice(bytes);
        Ok(bytes.len())
    }

    fn var(&self, _name: &str, _buf: &mut [u8]) -> Result<usize, FillError> {
        Err(FillError::NotPresent)
    }

    fn var_at(&self, _i: usize, _buf: &mut [u8]) -> Result<usize, FillError> {
        Err(FillError::NotPresent)
    }
}

impl Print for Given {
    fn print<D: Display + Drop>(&self, _value: D) -> io::Result<()> {
        no()
    }

    fn println<D: Display + Drop>(&self, _value: D) -> io::Result<()> {
        no()
    }

    fn write_all(&self, _bytes: &[u8]) -> io::Result<()> {
        if self.prints { Ok(()) } else { no() }
    }
}

/// An opened file: the bytes that are left to be read, and whether it takes what is written.
#[derive(Drop)]
struct Opened {
    rest: &'static [u8],
    takes: bool,
}

impl Read for Opened {
    fn read(&mut self, buf: &mut [u8]) -> io::Result<usize> {
        self.rest.read(buf)
    }
}

impl Write for Opened {
    fn write(&mut self, bytes: &[u8]) -> io::Result<usize> {
        if self.takes { Ok(bytes.len()) } else { no() }
    }

    fn flush(&mut self) -> io::Result<()> {
        Ok(())
    }
}

impl Seek for Opened {
    fn seek(&mut self, _to: SeekFrom) -> io::Result<u64> {
        no()
    }
}

impl OpenFile for Opened {
    fn metadata(&self) -> io::Result<Metadata> {
        no()
    }

    fn set_len(&self, _size: u64) -> io::Result<()> {
        no()
    }

    fn sync_all(&self) -> io::Result<()> {
        no()
    }

    fn sync_data(&self) -> io::Result<()> {
        no()
    }
}

impl Files for Given {
    type File = Opened;

    type Dir = &'static [u8];

    fn open_file(&self, _how: &OpenOptions, path: &str) -> io::Result<Opened> {
        let (rest, takes) = match path {
            "lrtl" => (TIN32_LRTL, false),
            "sled" => (TIN32_SLED, false),
            "tab" => (b"tables tin32 1;\n".as_slice(), false),
            "cmm" => (
                b"target byteorder little wordsize 32; main() { %out(7); return(0); }\n".as_slice(),
                false,
            ),
            "img" => (b"".as_slice(), true),
            "full" => (b"".as_slice(), false),
            _ => return no(),
        };
        Ok(Opened { rest, takes })
    }

    fn open_dir(&self, _path: &str) -> io::Result<&'static [u8]> {
        no()
    }

    fn metadata(&self, _path: &str) -> io::Result<Metadata> {
        no()
    }

    fn symlink_metadata(&self, _path: &str) -> io::Result<Metadata> {
        no()
    }

    fn copy(&self, _from: &str, _to: &str) -> io::Result<u64> {
        no()
    }

    fn rename(&self, _from: &str, _to: &str) -> io::Result<()> {
        no()
    }

    fn remove_file(&self, _path: &str) -> io::Result<()> {
        no()
    }

    fn create_dir(&self, _path: &str) -> io::Result<()> {
        no()
    }

    fn remove_dir(&self, _path: &str) -> io::Result<()> {
        no()
    }

    fn remove_dir_all<B: Allocator>(&self, _alloc: B, _path: &str) -> io::Result<()> {
        no()
    }
}

/// Words, whether the output takes what is printed, and the exit code. Each row differs from the others by what it
/// shows: with words in another order, or one less, its code is another one.
const ROWS: [(&[&str], bool, u8); 11] = [
    (&["quick", "check", "lrtl", "sled"], true, 0),
    (
        &["quick", "compile", "lrtl", "sled", "tab", "cmm", "img"],
        true,
        0,
    ),
    (&["quick", "check", "sled", "lrtl"], true, 1),
    (
        &["quick", "compile", "lrtl", "sled", "cmm", "tab", "img"],
        true,
        1,
    ),
    (&["quick"], true, 2),
    (&["quick", "lrtl", "check", "sled"], true, 2),
    (&["quick", "check", "lrtl", "sled", "tab"], true, 2),
    (&["quick", "check", "absent", "sled"], true, 3),
    (
        &["quick", "compile", "lrtl", "sled", "tab", "cmm", "full"],
        true,
        4,
    ),
    (&["quick", "check", "lrtl", "sled"], false, 5),
    (
        &["quick", "compile", "lrtl", "sled", "tab", "cmm", "img"],
        false,
        5,
    ),
];

#[test]
fn exit_codes(rt: HostRuntime) {
    for (words, prints, want) in ROWS {
        let given = Given { words, prints };
        assert_eq!(rt; exit_code(&given, rt.alloc()), want, "{words:?}");
    }
}
