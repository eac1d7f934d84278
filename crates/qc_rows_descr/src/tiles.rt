//! The shipped machine that has one instruction for each tile, from its texts.

ghost use Rattle.std.specs.Prelude.{IfOk};
ghost use Rattle.qc_descr.specs.Valid.{IsValid};

use qc_descr::Description;
use qc_join::{JoinEnd, join};
use qc_lrtl::read_lrtl;
use qc_shipped::shipped;
use qc_sled::read_sled;
use qc_tiles::{TileFacts, descriptions_have_tiles, tiles};
use qc_widths::elaborate;
use std::alloc::Global;
use std::process::Abort;

fn description(rt: &impl Abort, alloc: Global) -> Result<Description, JoinEnd>
    ensures { IfOk result (λ d. IsValid d) }
{
    let texts = shipped(b"tin32").expect(rt, "a shipped machine");
    let machine = read_lrtl(alloc, texts.lrtl).expect(rt, "a machine's text");
    let machine = elaborate(alloc, &machine).expect(rt, "a machine");
    let coding = read_sled(alloc, texts.sled).expect(rt, "a coding's text");
    join(alloc, machine, &coding)
}

/// Each instruction does what the tile of its number does, and has its name, some with other letters before it.
#[test]
fn instructions_are_tiles(rt: HostRuntime) {
    let machine = description(&rt, rt.alloc()).expect(&rt, "a description");
    descriptions_have_tiles();
    let facts = TileFacts::of(&machine);
    let list = tiles(rt.alloc(), &facts).expect(&rt, "memory");
    assert_eq!(rt; machine.instructions.len(), list.len());
    for (instruction, tile) in machine.instructions.as_slice().iter().zip(list.as_slice()) {
        let name = tile.name.text();
        assert!(rt;
            instruction.name.bytes().ends_with(name.as_bytes()),
            "{name}"
        );
        let found = format!(in rt.alloc(); "{:?}", tile.rtl).expect(&rt, "memory");
        let wanted = format!(in rt.alloc(); "{:?}", instruction.rtl).expect(&rt, "memory");
        assert_eq!(rt; found.as_str(), wanted.as_str(), "{name}");
    }
}
