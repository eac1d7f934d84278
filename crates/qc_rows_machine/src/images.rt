//! Files of images for a machine by hand.
use qc_descr::Description;
use qc_layout::{ImageEnd, read_image};
use qc_terms::{Facts, Order};
use qc_text::{NoMemory, Text};
use qc_words::Width;
use sqlite_items::Items;
use std::alloc::Global;

/// A machine of words of 32 bits, the lowest byte first, with room for 4 bytes of code and 2 of data.
fn machine(alloc: Global) -> Result<Description, NoMemory> {
    let word = match Width::new(32) {
        Some(word) => word,
        None => Width::ONE,
    };
    Ok(Description {
        name: Text::new(alloc, b"m")?,
        facts: Facts {
            word,
            order: Order::Little,
            zero: None,
        },
        spaces: Items::new(alloc),
        align: 1,
        slot_bits: 8,
        frame: (0, 0),
        link: (0, 1),
        first: 2,
        last: 3,
        allocatable: 0,
        memory: 256,
        code_end: 4,
        data_end: 6,
        instructions: Items::new(alloc),
    })
}

/// Files that are read, with their code and data.
const READ: &[(&[u8], &[u8], &[u8])] = &[
    (
        b"QCI1\x20\0\0\0\x04\0\0\0\0\0\0\0\0\0\0\0",
        b"\0\0\0\0",
        b"",
    ),
    (
        b"QCI1\x20\0\0\0\x02\0\0\0\x02\0\0\0\x07\x08\0\x09",
        b"\x07\x08",
        b"\0\x09",
    ),
    (b"QCI1\x20\0\0\0\0\0\0\0\0\0\0\0", b"", b""),
];

/// Files that are refused, with the first faulty place.
const REFUSED: &[(&[u8], usize)] = &[
    (b"QCI1\x20\0\0\0\x04\0\0\0\0\0\0\0\0\0\0", 19),
    (b"qCI1\x20\0\0\0\x04\0\0\0\0\0\0\0\0\0\0\0", 0),
    (b"QcI1\x20\0\0\0\x04\0\0\0\0\0\0\0\0\0\0\0", 1),
    (b"QCi1\x20\0\0\0\x04\0\0\0\0\0\0\0\0\0\0\0", 2),
    (b"QCI2\x20\0\0\0\x04\0\0\0\0\0\0\0\0\0\0\0", 3),
    (b"QCI1\x10\0\0\0\x04\0\0\0\0\0\0\0\0\0\0\0", 4),
    (b"QCI1\x20\x01\0\0\x04\0\0\0\0\0\0\0\0\0\0\0", 5),
    (b"QCI1\x20\0\x01\0\x04\0\0\0\0\0\0\0\0\0\0\0", 6),
    (b"QCI1\x20\0\0\x01\x04\0\0\0\0\0\0\0\0\0\0\0", 7),
    (b"QCI1\x20\0\0\0\x05\0\0\0\0\0\0\0\0\0\0\0", 8),
    (b"QCI1\x20\0\0\0\0\0\0\x01\0\0\0\0", 8),
    (b"QCI1\x20\0\0\0\0\0\0\0\x03\0\0\0\x01\x01\x01", 12),
    (b"", 0),
    (b"Q", 1),
    (b"QCI1\x20\0\0", 7),
    (b"QCI1\x20\0\0\0\x04\0\0", 11),
    (b"QCI1\x20\0\0\0\xff\0\0", 11),
    (b"QCI1\x20\0\0\0\x05\0\0\0\0\0\0", 8),
    (b"QCI1\x20\0\0\0\x04\0\0\0\0\0\0", 15),
    (b"QCI1\x20\0\0\0\x04\0\0\0\0\0\0\0\0\0\0\0\x01", 20),
    (b"QCI1\x20\0\0\0\0\0\0\0\x02\0\0\0\x01\0", 17),
    (b"QCI1\x20\0\0\0\0\0\0\0\x02\0\0\0\x01\0\0", 17),
];

#[test]
fn images_are_read(rt: HostRuntime) -> Result<(), NoMemory> {
    let descr = machine(rt.alloc())?;
    for (file, code, initial) in READ {
        match read_image(rt.alloc(), file, &descr) {
            Ok(image) => {
                assert_eq!(rt; image.code.as_slice(), *code, "at {file:?}");
                assert_eq!(rt; image.initial.as_slice(), *initial, "at {file:?}");
            }
            Err(end) => panic!(rt; "{end:?} at {file:?}"),
        }
    }
    Ok(())
}

#[test]
fn no_images_are_refused(rt: HostRuntime) -> Result<(), NoMemory> {
    let descr = machine(rt.alloc())?;
    for (file, place) in REFUSED {
        match read_image(rt.alloc(), file, &descr) {
            Ok(_) => panic!(rt; "{file:?} is read"),
            Err(end) => assert_eq!(rt; end, ImageEnd::BadImage { at: *place }, "at {file:?}"),
        }
    }
    Ok(())
}
