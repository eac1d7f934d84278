//! What the instructions of a machine's text do, and the facts that it gives.
use qc_descr::{Given, OperandKind};
use qc_lrtl::read_lrtl;
use qc_terms::{Dest, Effect, Order, Place, Term};
use qc_widths::{Machine, WidthEnd, elaborate};
use qc_words::{Op, Width};
use std::alloc::{AllocError, Global};
use std::process::Abort;

/// What a text comes to.
pub(crate) fn elaborated(rt: &impl Abort, alloc: Global, text: &[u8]) -> Result<Machine, WidthEnd> {
    let raw = read_lrtl(alloc, text).expect(rt, "a text of the grammar");
    elaborate(alloc, &raw)
}

const MACHINE: &[u8] =
    b"machine m16; word 16; byteorder big; align 2; slotbits 12; memory 0x10000; code 0x6000;
data 0xC000; space r 8 cells 16 bits; space f 3 cells 1 bits flags; link r 6; frame r 7; zero r 5;
allocatable r 0 .. 4;
fun place(base, i) = add(base, sx 16 (i));
fun through(g / 1, a) = g(a);
fun low(a) = slice 0 8 (a);
eff set(d, v) = d := v;
eff store(a, v) = mem 8 [a] := through(low, v) | when f[0] => pc := after;
instr st (s: r, b: r, i: imm 8) = when f[1] => store(place(b, i), s);
instr cp (d: r, s: r) = set(d, s) | f[2] := eq(s, 0'16);
instr to (t: addr) = pc := t;
instr in (d: r) = d := through(com, input) | when ltu(d, mem 16 [r[7]]) => trap := 3'8;";

/// What each instruction of that machine does: a cell is its space and its number with a dot between them, a register
/// operand its space and the operand's number, an immediate the operand's number and its width.
const EFFECTS: [(&[u8], &[u8]); 4] = [
    (
        b"st",
        b"1.1:1?mem8[Add(0#1:16,Sx16(#2:8))]:=Slice0,8(0#0:16);And(1.1:1,1.0:1)?pc:=after16;",
    ),
    (b"cp", b"0#0:=0#1:16;1.2:=Eq(0#1:16,0'16);"),
    (b"to", b"pc:=#0:16;"),
    (
        b"in",
        b"0#0:=Com(input16);Ltu(0#0:16,mem16[0.7:16])?trap:=3'8;",
    ),
];

fn put(out: &mut Vec<u8>, text: &str) -> Result<(), AllocError> {
    out.extend_from_slice(text.as_bytes())
}

fn put_place(alloc: Global, out: &mut Vec<u8>, place: Place) -> Result<(), AllocError> {
    let text = match place {
        Place::Cell { space, index } => format!(in alloc; "{space}.{index}")?,
        Place::Operand { space, number } => format!(in alloc; "{space}#{number}")?,
    };
    out.extend_from_slice(text.as_bytes())
}

fn put_operator(alloc: Global, out: &mut Vec<u8>, op: Op) -> Result<(), AllocError> {
    let text = match op {
        Op::Zx { to } => format!(in alloc; "Zx{}", to.bits())?,
        Op::Sx { to } => format!(in alloc; "Sx{}", to.bits())?,
        Op::Slice { low, to } => format!(in alloc; "Slice{low},{}", to.bits())?,
        _ => format!(in alloc; "{op:?}")?,
    };
    out.extend_from_slice(text.as_bytes())
}

/// A leaf with its width.
fn put_leaf(alloc: Global, out: &mut Vec<u8>, term: &Term) -> Result<(), AllocError> {
    let text = match term {
        Term::Num { value, width } => format!(in alloc; "{value}'{}", width.bits())?,
        Term::Imm { operand, width } => format!(in alloc; "#{operand}:{}", width.bits())?,
        Term::Input { width } => format!(in alloc; "input{}", width.bits())?,
        Term::After { width } => format!(in alloc; "after{}", width.bits())?,
        _ => format!(in alloc; "?")?,
    };
    out.extend_from_slice(text.as_bytes())
}

fn put_term(alloc: Global, out: &mut Vec<u8>, term: &Term) -> Result<(), AllocError> {
    match term {
        Term::Un { op, arg } => {
            put_operator(alloc, out, *op)?;
            put(out, "(")?;
            put_term(alloc, out, arg.get())?;
            put(out, ")")
        }
        Term::Bin { op, left, right } => {
            put_operator(alloc, out, *op)?;
            put(out, "(")?;
            put_term(alloc, out, left.get())?;
            put(out, ",")?;
            put_term(alloc, out, right.get())?;
            put(out, ")")
        }
        Term::Reg { place, width } => {
            put_place(alloc, out, *place)?;
            let width = format!(in alloc; ":{}", width.bits())?;
            out.extend_from_slice(width.as_bytes())
        }
        Term::Mem { width, address } => {
            let width = format!(in alloc; "mem{}[", width.bits())?;
            out.extend_from_slice(width.as_bytes())?;
            put_term(alloc, out, address.get())?;
            put(out, "]")
        }
        _ => put_leaf(alloc, out, term),
    }
}

fn put_dest(alloc: Global, out: &mut Vec<u8>, to: &Dest) -> Result<(), AllocError> {
    match to {
        Dest::Reg { place } => put_place(alloc, out, *place),
        Dest::Mem { width, address } => {
            let width = format!(in alloc; "mem{}[", width.bits())?;
            out.extend_from_slice(width.as_bytes())?;
            put_term(alloc, out, address)?;
            put(out, "]")
        }
        Dest::Pc => put(out, "pc"),
        Dest::Out => put(out, "out"),
        Dest::Halt => put(out, "halt"),
        Dest::Trap => put(out, "trap"),
    }
}

fn put_effect(alloc: Global, out: &mut Vec<u8>, effect: &Effect) -> Result<(), AllocError> {
    if let Some(guard) = &effect.guard {
        put_term(alloc, out, guard)?;
        put(out, "?")?;
    }
    put_dest(alloc, out, &effect.to)?;
    put(out, ":=")?;
    put_term(alloc, out, &effect.value)?;
    put(out, ";")
}

fn effects_text(alloc: Global, effects: &[Effect]) -> Result<Vec<u8>, AllocError> {
    let mut out = Vec::new(alloc);
    for effect in effects {
        put_effect(alloc, &mut out, effect)?;
    }
    Ok(out)
}

#[test]
fn effects_of_a_machine(rt: HostRuntime) {
    let machine = elaborated(&rt, rt.alloc(), MACHINE).expect(&rt, "a machine");
    assert_eq!(rt; machine.operations.len(), EFFECTS.len());
    for (operation, &(name, effects)) in machine.operations.as_slice().iter().zip(&EFFECTS) {
        assert_eq!(rt; operation.name.bytes(), name);
        let text = effects_text(rt.alloc(), operation.rtl.effects.as_slice()).expect(&rt, "memory");
        assert_eq!(rt; text.as_slice(), effects, "of {name:?}");
    }
}

#[test]
fn facts_of_a_machine(rt: HostRuntime) {
    let machine = elaborated(&rt, rt.alloc(), MACHINE).expect(&rt, "a machine");
    let given = Given {
        word: Width::new(16),
        order: Some(Order::Big),
        align: Some(2),
        slot_bits: Some(12),
        frame: Some((0, 7)),
        link: Some((0, 6)),
        zero: Some((0, 5)),
        allocatable: Some((0, 0, 4)),
        memory: Some(0x1_0000),
        code_end: Some(0x6000),
        data_end: Some(0xC000),
    };
    assert_eq!(rt; machine.name.bytes(), b"m16".as_slice());
    assert!(rt; machine.given == given);
    assert_eq!(rt; machine.spaces.len(), 2);
    let flags = &machine.spaces.as_slice()[1];
    assert!(rt; flags.name.bytes() == b"f".as_slice() && flags.cells == 3 && flags.flags);
    assert_eq!(rt; flags.width.bits(), 1);
}

/// The operand at this place of the instruction of this number is of this kind.
fn expect_kind(rt: &impl Abort, machine: &Machine, number: usize, place: usize, kind: OperandKind) {
    let operation = machine.operations.get(number).expect(rt, "an instruction");
    let operand = operation.operands.get(place).expect(rt, "an operand");
    assert!(rt; operand.1 == kind);
}

#[test]
fn operands_of_a_machine(rt: HostRuntime) {
    let machine = elaborated(&rt, rt.alloc(), MACHINE).expect(&rt, "a machine");
    let width = Width::new(8).expect(&rt, "a width");
    expect_kind(&rt, &machine, 0, 0, OperandKind::Register { space: 0 });
    expect_kind(&rt, &machine, 0, 1, OperandKind::Register { space: 0 });
    expect_kind(&rt, &machine, 0, 2, OperandKind::Imm { width });
    expect_kind(&rt, &machine, 2, 0, OperandKind::Addr);
}
