use super::*;
use std::alloc::AllocError;
use std::io;

/// A writer that takes two bytes at a time, and none once it is full.
struct Bounded {
    room: usize,
}

impl Write for Bounded {
    fn write(&mut self, bytes: &[u8]) -> io::Result<usize> {
        let count = bytes.len().min(self.room).min(2);
        self.room -= count;
        Ok(count)
    }

    fn flush(&mut self) -> io::Result<()> {
        Ok(())
    }
}

#[test]
fn reads_to_the_end(rt: HostRuntime) {
    let mut source: &[u8] = b"two words";
    match read_to_limit(rt.alloc(), &mut source) {
        Ok(bytes) => assert!(rt; bytes.as_slice() == b"two words".as_slice()),
        Err(_) => assert!(rt; false, "not read"),
    }
}

#[test]
fn writes_all_that_fits(rt: HostRuntime) -> Result<(), AllocError> {
    let mut sink = Vec::new(rt.alloc());
    assert!(rt; write_whole(&mut sink, b"two words").is_ok());
    assert!(rt; sink.as_slice() == b"two words".as_slice());
    for (room, fits) in [(9, true), (8, false)] {
        let mut writer = Bounded { room };
        assert_eq!(rt;
            write_whole(&mut writer, b"two words").is_ok(),
            fits,
            "{room}"
        );
        let Bounded { room: _ } = writer;
    }
    Ok(())
}

#[test]
fn reads_back_what_it_wrote(rt: HostRuntime) -> Result<(), AllocError> {
    let alloc = rt.alloc();
    let name = String::from_str(alloc, "written_by_a_test")?;
    let mut shelf = FileShelf::new(&rt);
    let absent = shelf.read(alloc, &name);
    assert!(rt; matches!(absent, Err(ReadEnd::Failed)));
    assert!(rt; shelf.write(alloc, &name, b"three words").is_ok());
    assert!(rt; shelf.write(alloc, &name, b"two words").is_ok());
    match shelf.read(alloc, &name) {
        Ok(bytes) => assert!(rt; bytes.as_slice() == b"two words".as_slice()),
        Err(_) => assert!(rt; false, "not read"),
    }
    assert!(rt; fs::remove_file(&rt, &name).is_ok());
    assert_eq!(rt; shelf.faults, 1);
    Ok(())
}
