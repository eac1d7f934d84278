//! Names that are entered into a table.
use qc_names::NameTable;

#[test]
fn a_name_keeps_its_first_number(rt: HostRuntime) {
    let alloc = rt.alloc();
    let mut table = NameTable::new(alloc);
    assert_eq!(rt; table.number(b"pc"), None);
    assert!(rt; !table.enter(alloc, b"pc", 7).expect(&rt, "memory"));
    assert!(rt; !table.enter(alloc, b"p", 9).expect(&rt, "memory"));
    assert!(rt; table.enter(alloc, b"pc", 8).expect(&rt, "memory"));
    assert!(rt; !table.enter(alloc, b"", 0).expect(&rt, "memory"));
    assert_eq!(rt; table.number(b"pc"), Some(7));
    assert_eq!(rt; table.number(b"p"), Some(9));
    assert_eq!(rt; table.number(b""), Some(0));
    assert_eq!(rt; table.number(b"c"), None);
}
