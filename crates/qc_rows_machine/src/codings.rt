//! Codes of the shipped machines: rows by hand, and each instruction there and back at the edges of its operands.
ghost use Rattle.std.specs.Prelude.{◌≤◌, ◌+◌, length};
ghost use Rattle.qc_decode.specs.Decoder.{IsDecoderOf};
ghost use Rattle.qc_descr.specs.Valid.{IsValid};

use crate::shipped::description;
use qc_decode::{Decoder, is_instance};
use qc_descr::{Bit, Coding, Description, Instance, OperandKind, Reach};
use qc_encode::{OutOfReach, encode};
use qc_text::NoMemory;
use smallvec::SmallVec;
use std::alloc::Global;
use std::process::Abort;

type Outcome = Result<(), NoMemory>;

/// The number of the instruction of a name.
fn number_of(rt: &impl Abort, descr: &Description, name: &[u8]) -> u32 {
    let mut number = 0u32;
    for instruction in descr.instructions.as_slice() {
        if *instruction.name.bytes() == *name {
            return number;
        }
        number = number.wrapping_add(1);
    }
    panic!(rt; "no instruction {name:?}")
}

fn instance(alloc: Global, instruction: u32, operands: &[u64]) -> Result<Instance, NoMemory> {
    let mut list = SmallVec::new(alloc);
    for operand in operands {
        list.push(*operand)?;
    }
    Ok(Instance {
        instruction,
        operands: list,
    })
}

/// What `encode` answers, with the bytes that it leaves where there were bytes 170.
fn encoded(
    rt: &impl Abort,
    descr: &Description,
    instance: &Instance,
    at: u64,
) -> (Result<usize, OutOfReach>, [u8; 16])
    requires { IsValid descr.now }
{
    let mut bytes = [0xAA; 16];
    if !is_instance(descr, instance) {
        panic!(rt; "{instance:?} is no instance");
    }
    let size = encode(descr, instance, at, &mut bytes);
    (size, bytes)
}

/// A name, operands, an address, and the bytes.
type Row = (&'static [u8], &'static [u64], u64, &'static [u8]);

fn expect_row(rt: &impl Abort, alloc: Global, descr: &Description, row: Row) -> Outcome
    requires { IsValid descr.now }
{
    let (name, operands, at, want) = row;
    let instance = instance(alloc, number_of(rt, descr, name), operands)?;
    let (size, bytes) = encoded(rt, descr, &instance, at);
    assert_eq!(rt; size, Ok(want.len()), "{name:?}");
    for (place, byte) in bytes.iter().enumerate() {
        let wanted = want.get(place).copied().unwrap_or(0xAA);
        assert_eq!(rt; *byte, wanted, "{name:?} at {place}");
    }
    Ok(())
}

/// Codes of rv32im by hand.
const RV32IM: &[Row] = &[
    (b"addi", &[10, 0, 5], 0, b"\x13\x05\x50\x00"),
    (b"beq", &[1, 2, 0x1000 + 4094], 0x1000, b"\xe3\x8f\x20\x7e"),
    (b"beq", &[1, 2, 0], 0x1000, b"\x63\x80\x20\x80"),
    (b"lui", &[11, 0x12345], 8, b"\xb7\x55\x34\x12"),
    (b"addi", &[10, 11, 0x678], 12, b"\x13\x85\x85\x67"),
];

/// Codes of cc16 by hand.
const CC16: &[Row] = &[
    (b"mov", &[3, 1], 0, b"\x05\x90"),
    (b"add", &[3, 2], 2, b"\x0d\xa0"),
    (b"mov", &[0, 3], 4, b"\x04\x30"),
    (b"bz", &[0], 2, b"\x34\x00\xff\xfe"),
];

const HAND: [(&[u8], &[Row]); 2] = [(b"rv32im", RV32IM), (b"cc16", CC16)];

#[test]
fn codes_by_hand(rt: HostRuntime) -> Outcome {
    let alloc = rt.alloc();
    for (name, rows) in HAND {
        let descr = description(&rt, alloc, name);
        for row in rows {
            expect_row(&rt, alloc, &descr, *row)?;
        }
    }
    Ok(())
}

/// Where a `beq` stands, and targets that it can't reach from there: two too far ahead, one of them at an odd distance,
/// two others at odd distances, one much too far ahead, and one too far behind.
const TOO_FAR: [(u64, u64); 6] = [
    (0x1000, 0x1000 + 4096),
    (0x1000, 0x1000 + 4095),
    (0x1000, 0x1000 + 4093),
    (0x1000, 0x0FFF),
    (0x1000, 0x3000),
    (0x2000, 0x2000 - 4098),
];

/// Bytes of a `beq` whose target is 4,096 before it.
const FAR_BEHIND: &[u8] = b"\x63\x80\x20\x80";

/// Addresses of these bytes, and the target where there is one.
const BEHIND: [(u64, Option<u64>); 3] = [(0x1000, Some(0)), (0x1002, Some(2)), (0x0FFE, None)];

#[test]
fn targets_of_a_branch(rt: HostRuntime) -> Outcome {
    let alloc = rt.alloc();
    let descr = description(&rt, alloc, b"rv32im");
    let beq = number_of(&rt, &descr, b"beq");
    for (at, target) in TOO_FAR {
        let instance = instance(alloc, beq, &[1, 2, target])?;
        let (size, bytes) = encoded(&rt, &descr, &instance, at);
        let refusal = OutOfReach {
            operand: 2,
            value: target,
        };
        assert_eq!(rt; size, Err(refusal));
        assert_eq!(rt; bytes, [0xAA; 16]);
    }
    let decoder = Decoder::new(alloc, &descr)?;
    for (at, want) in BEHIND {
        let mut memory = Vec::with_capacity(alloc, 0x2000)?;
        memory.resize(at as usize, 0)?;
        memory.extend_from_slice(FAR_BEHIND)?;
        let found = decoder.decode(&descr, memory.as_slice(), at);
        let target = match &found {
            Some((instance, 4)) if instance.instruction == beq => instance
                .operands
                .as_slice()
                .get(2)
                .copied(),
            _ => None,
        };
        assert_eq!(rt; target, want, "at {at}");
    }
    Ok(())
}

/// 2 to the number of an operand's bits that are dropped: of those below its lowest bit that has a place, or of all.
fn step_of(coding: &Coding, operand: u32, bits: u8) -> u64 {
    let mut lowest = bits;
    for stands in coding.bits.as_slice() {
        if let Bit::Piece { operand: own, bit } = *stands {
            if own == operand && bit < lowest {
                lowest = bit;
            }
        }
    }
    1u64.checked_shl(u32::from(lowest)).unwrap_or(0)
}

/// 2 to a number of bits below 64.
fn power(bits: u8) -> u64 {
    1u64.checked_shl(u32::from(bits)).unwrap_or(0)
}

/// The least and the greatest values of an operand, and two between them.
fn edges(descr: &Description, kind: OperandKind, reach: Reach, step: u64, at: u64) -> [u64; 4] {
    match kind {
        OperandKind::Register { space } => {
            let cells = descr
                .spaces
                .get(space as usize)
                .map_or(0, |space| u64::from(space.cells));
            [
                0,
                cells / 2,
                cells.saturating_sub(1),
                cells.saturating_sub(2),
            ]
        }
        OperandKind::Imm { width } => {
            let all = power(width.bits()).wrapping_sub(1);
            [0, 1, all, all / 2]
        }
        OperandKind::Addr => match reach {
            Reach::Plain => [0; 4],
            Reach::Absolute { bits } => {
                let end = power(bits);
                [0, step, end.wrapping_sub(step), end / 2]
            }
            Reach::Relative { bits } => {
                let half = power(bits) / 2;
                [
                    at.wrapping_sub(half),
                    at.wrapping_sub(step),
                    at.wrapping_add(half).wrapping_sub(step),
                    at.wrapping_add(step),
                ]
            }
        },
    }
}

/// Encodes an instance into a memory at an address, and decodes it again from the memory up to its end, and from one byte
/// less.
fn expect_there_and_back(
    rt: &impl Abort,
    descr: &Description,
    decoder: &Decoder,
    memory: &mut [u8],
    at: usize,
    instance: &Instance,
)
    requires valid { IsValid descr.now }
    requires made { IsDecoderOf descr.now decoder.now }
    requires room { at + 16 ≤ length memory.old }
{
    let (size, bytes) = encoded(rt, descr, instance, at as u64);
    let size = size.expect(rt, "a target within reach");
    if size == 0 || size > 16 {
        panic!(rt; "{size} bytes");
    }
    for place in 0..16 {
        memory[at + place] = bytes[place];
    }
    let Some((found, length)) = decoder.decode(descr, &memory[..at + size], at as u64) else {
        panic!(rt; "{instance:?} is not found");
    };
    assert_eq!(rt; length, size);
    assert_eq!(rt; found.instruction, instance.instruction);
    assert!(rt;
        found.operands.as_slice() == instance.operands.as_slice(),
        "{instance:?}"
    );
    assert!(rt;
        decoder
            .decode(descr, &memory[..at + size - 1], at as u64)
            .is_none(),
        "{instance:?}"
    );
}

/// Each instruction of a machine, with each operand at its edges and all others least, or at no distance.
fn expect_all(rt: &impl Abort, alloc: Global, descr: &Description, at: usize) -> Outcome
    requires valid { IsValid descr.now }
    requires at { at ≤ 1048576 }
{
    let decoder = Decoder::new(alloc, descr)?;
    let mut memory = Vec::with_capacity(alloc, at + 16)?;
    memory.resize(at + 16, 0)?;
    for (number, instruction) in descr.instructions.as_slice().iter().enumerate() {
        let mut operands = [0; 8];
        let count = instruction.operands.len();
        if count > 8 || instruction.coding.reaches.len() != count {
            panic!(rt; "too many operands");
        }
        for place in 0..count {
            if let Reach::Relative { .. } = instruction.coding.reaches.as_slice()[place] {
                operands[place] = at as u64;
            }
        }
        let nearest = instance(alloc, number as u32, &operands[..count])?;
        expect_there_and_back(rt, descr, &decoder, memory.as_mut_slice(), at, &nearest);
        for place in 0..count {
            let kind = instruction.operands.as_slice()[place].1;
            let reach = instruction.coding.reaches.as_slice()[place];
            let bits = match reach {
                Reach::Plain => 0,
                Reach::Relative { bits } | Reach::Absolute { bits } => bits,
            };
            let step = step_of(&instruction.coding, place as u32, bits);
            for edge in edges(descr, kind, reach, step, at as u64) {
                let mut others = operands;
                others[place] = edge;
                let instance = instance(alloc, number as u32, &others[..count])?;
                expect_there_and_back(rt, descr, &decoder, memory.as_mut_slice(), at, &instance);
            }
        }
    }
    Ok(())
}

/// A machine, and an address for its instructions.
const MACHINES: [(&[u8], usize); 4] = [
    (b"tin32", 64),
    (b"rv32im", 1_048_576),
    (b"rv32i", 1_048_576),
    (b"cc16", 32_768),
];

#[test]
fn there_and_back(rt: HostRuntime) -> Outcome {
    for (name, at) in MACHINES {
        let descr = description(&rt, rt.alloc(), name);
        assert!(rt; at <= 1_048_576);
        expect_all(&rt, rt.alloc(), &descr, at)?;
    }
    Ok(())
}
