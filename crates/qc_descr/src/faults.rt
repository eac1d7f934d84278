/// The parts of a machine's layout, in the order in which they are tested.
#[derive(Clone, Copy, Debug, PartialEq, Eq)]
pub enum Part {
    Word,
    Memory,
    Code,
    Data,
    Align,
    SlotBits,
    Frame,
    Link,
    Zero,
    Allocatable,
    Flags,
}

/// Why parts make no description. Instructions are counted from 0.
///
/// `BadLayout` is the first part of the layout that isn't given or doesn't fit. An instruction is `Uncovered` where it
/// hasn't one coding that leaves no bit open, and its `FieldRange` is wrong where some bits don't fit, or one is claimed
/// twice. Two instructions that `Overlap` have codings of which some bytes begin with both.
#[derive(Clone, Copy, Debug, PartialEq, Eq)]
pub enum DescrFault {
    Uncovered { instruction: u32 },
    Overlap { a: u32, b: u32 },
    FieldRange { instruction: u32 },
    BadLayout { part: Part },
}

/// Why no description was made.
#[derive(Clone, Copy, Debug, PartialEq, Eq)]
pub enum DescrEnd {
    Fault { fault: DescrFault },
    NoMemory,
}
