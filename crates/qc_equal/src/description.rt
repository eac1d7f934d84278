//! Instructions and descriptions.
ghost use Rattle.std.specs.Prelude.{◌≡◌, ◌↔◌, IsTrue};

use crate::equal::{Same, same_items};
use crate::term::same_rtl;
use qc_descr::{Coding, Description, Instruction, Space};

impl Same for Space {
    fn same(&self, other: &Space) -> bool {
        self.name.bytes() == other.name.bytes()
            && self.cells == other.cells
            && self.width == other.width
            && self.flags == other.flags
    }
}

impl Same for Coding {
    fn same(&self, other: &Coding) -> bool {
        same_items(self.tokens.as_slice(), other.tokens.as_slice())
            && same_items(self.bits.as_slice(), other.bits.as_slice())
            && same_items(self.reaches.as_slice(), other.reaches.as_slice())
    }
}

impl Same for Instruction {
    fn same(&self, other: &Instruction) -> bool {
        same_instruction(self, other)
    }
}

/// Whether two instructions are equal, with their names and the names of their operands.
pub fn same_instruction(a: &Instruction, b: &Instruction) -> bool
    ensures { IsTrue result ↔ (a.now ≡ b.now) }
{
    a.name.bytes() == b.name.bytes()
        && same_items(a.operands.as_slice(), b.operands.as_slice())
        && same_rtl(&a.rtl, &b.rtl)
        && a.coding.same(&b.coding)
}

/// Whether two descriptions are equal, with all names in them, and spaces and instructions in the same order.
pub fn same_description(a: &Description, b: &Description) -> bool
    ensures { IsTrue result ↔ (a.now ≡ b.now) }
{
    a.name.bytes() == b.name.bytes()
        && a.facts == b.facts
        && same_items(a.spaces.as_slice(), b.spaces.as_slice())
        && a.align == b.align
        && a.slot_bits == b.slot_bits
        && a.frame == b.frame
        && a.link == b.link
        && a.first == b.first
        && a.last == b.last
        && a.allocatable == b.allocatable
        && a.memory == b.memory
        && a.code_end == b.code_end
        && a.data_end == b.data_end
        && same_items(a.instructions.as_slice(), b.instructions.as_slice())
}
