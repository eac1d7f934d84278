//! Files of inputs.
use qc_machine::{InputEnd, read_input};
use qc_words::Width;

fn width(bits: u8) -> Width {
    match Width::new(bits) {
        Some(width) => width,
        None => Width::ONE,
    }
}

/// Files of inputs, with the width of a word and the words.
const READ: &[(&[u8], u8, &[u64])] = &[
    (b"", 32, &[]),
    (b"9", 32, &[9]),
    (b"1 2 // comment", 32, &[1, 2]),
    (b"0x10\n7\n", 32, &[16, 7]),
    (b"4294967295", 32, &[4294967295]),
    (b"65535/* two */0", 16, &[65535, 0]),
    (b"18446744073709551615", 64, &[18446744073709551615]),
];

/// Files that are refused, with the width of a word and the place of the fault.
const REFUSED: &[(&[u8], u8, usize)] = &[
    (b"4294967296", 32, 0),
    (b"65535 65536", 16, 6),
    (b"18446744073709551616", 64, 0),
    (b"1 x", 32, 2),
    (b"1 -1", 32, 2),
    (b"1 $", 32, 2),
    (b"1 x $", 32, 4),
    (b"1 2 /*", 32, 4),
];

#[test]
fn inputs_are_read(rt: HostRuntime) {
    for (file, bits, words) in READ {
        match read_input(rt.alloc(), file, width(*bits)) {
            Ok(found) => assert_eq!(rt; found.as_slice(), *words, "at {file:?}"),
            Err(end) => panic!(rt; "{end:?} at {file:?}"),
        }
    }
}

#[test]
fn no_inputs_are_refused(rt: HostRuntime) {
    for (file, bits, place) in REFUSED {
        match read_input(rt.alloc(), file, width(*bits)) {
            Ok(_) => panic!(rt; "{file:?} is read"),
            Err(end) => assert_eq!(rt; end, InputEnd::BadInput { at: *place }, "at {file:?}"),
        }
    }
}
