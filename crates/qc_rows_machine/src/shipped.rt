//! Descriptions of the shipped machines, from their texts.
ghost use Rattle.qc_descr.specs.Valid.{IsValid};

use qc_descr::Description;
use qc_join::join;
use qc_lrtl::read_lrtl;
use qc_shipped::shipped;
use qc_sled::read_sled;
use qc_widths::elaborate;
use std::alloc::Global;
use std::process::Abort;

/// The description of the shipped machine of this name.
pub(crate) fn description(rt: &impl Abort, alloc: Global, name: &[u8]) -> Description
    ensures { IsValid result }
{
    let texts = shipped(name).expect(rt, "a shipped machine");
    let machine = read_lrtl(alloc, texts.lrtl).expect(rt, "a machine's text");
    let machine = elaborate(alloc, &machine).expect(rt, "a machine");
    let coding = read_sled(alloc, texts.sled).expect(rt, "a coding's text");
    join(alloc, machine, &coding).expect(rt, "a description")
}
