//! The bits that the instruction set of RISC-V fixes, against those of a shipped machine.
use crate::descriptions::description;
use qc_descr::{Bit, Coding};
use qc_shipped::{RV32IM_LRTL, RV32IM_SLED};

/// The constant bits of RISC-V's instructions, in the order of the machine's text: their values, and which bits they are.
/// The numbers are those of the instruction set's tables (The RISC-V Instruction Set Manual, Volume I, 2019).
const RISC_V: [(&[u8], u32, u32); 41] = [
    (b"lui", 0x37, 0x7F),
    (b"jal", 0x6F, 0x7F),
    (b"jalr", 0x67, 0x707F),
    (b"beq", 0x63, 0x707F),
    (b"bne", 0x1063, 0x707F),
    (b"blt", 0x4063, 0x707F),
    (b"bge", 0x5063, 0x707F),
    (b"bltu", 0x6063, 0x707F),
    (b"bgeu", 0x7063, 0x707F),
    (b"lb", 0x3, 0x707F),
    (b"lh", 0x1003, 0x707F),
    (b"lw", 0x2003, 0x707F),
    (b"lbu", 0x4003, 0x707F),
    (b"lhu", 0x5003, 0x707F),
    (b"sb", 0x23, 0x707F),
    (b"sh", 0x1023, 0x707F),
    (b"sw", 0x2023, 0x707F),
    (b"addi", 0x13, 0x707F),
    (b"slti", 0x2013, 0x707F),
    (b"sltiu", 0x3013, 0x707F),
    (b"xori", 0x4013, 0x707F),
    (b"ori", 0x6013, 0x707F),
    (b"andi", 0x7013, 0x707F),
    (b"slli", 0x1013, 0xFE00707F),
    (b"srli", 0x5013, 0xFE00707F),
    (b"srai", 0x40005013, 0xFE00707F),
    (b"add", 0x33, 0xFE00707F),
    (b"sub", 0x40000033, 0xFE00707F),
    (b"sll", 0x1033, 0xFE00707F),
    (b"slt", 0x2033, 0xFE00707F),
    (b"sltu", 0x3033, 0xFE00707F),
    (b"xor", 0x4033, 0xFE00707F),
    (b"srl", 0x5033, 0xFE00707F),
    (b"sra", 0x40005033, 0xFE00707F),
    (b"or", 0x6033, 0xFE00707F),
    (b"and", 0x7033, 0xFE00707F),
    (b"mul", 0x2000033, 0xFE00707F),
    (b"div", 0x2004033, 0xFE00707F),
    (b"divu", 0x2005033, 0xFE00707F),
    (b"rem", 0x2006033, 0xFE00707F),
    (b"remu", 0x2007033, 0xFE00707F),
];

/// The values of the constant bits of a coding of one token, and which bits they are.
fn constant_bits(coding: &Coding) -> (u32, u32) {
    let mut values = 0;
    let mut places = 0;
    for bit in coding.bits.as_slice().iter().rev() {
        values <<= 1;
        places <<= 1;
        if let Bit::Fixed { one } = bit {
            values |= u32::from(*one);
            places |= 1;
        }
    }
    (values, places)
}

#[test]
fn codes_of_risc_v(rt: HostRuntime) {
    let machine = description(&rt, rt.alloc(), RV32IM_LRTL, RV32IM_SLED).expect(
        &rt,
        "a description",
    );
    assert_eq!(rt; machine.instructions.len(), 45);
    for (instruction, &(name, values, places)) in machine
        .instructions
        .as_slice()
        .iter()
        .zip(&RISC_V)
    {
        assert_eq!(rt; instruction.name.bytes(), name);
        assert_eq!(rt; instruction.coding.tokens.as_slice(), [32].as_slice());
        assert_eq!(rt;
            constant_bits(&instruction.coding),
            (values, places),
            "of {name:?}"
        );
    }
}
