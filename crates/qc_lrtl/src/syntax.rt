//! The syntax tree of a machine's text. A node keeps the number of its first token: its own `token`, or that of the
//! name or the expression that it begins with.
use qc_grammar::{Ident, Number};
use sqlite_items::{Boxed, Items};

/// The text of a machine.
#[derive(Debug, Drop)]
pub struct RawMachine {
    pub name: Ident,
    pub items: Items<Item>,
}

#[derive(Clone, Copy, Debug, PartialEq, Eq)]
pub enum ByteOrder {
    Little,
    Big,
}

/// A fact of the machine, or a declaration.
#[derive(Debug, Drop)]
pub enum Item {
    Word {
        token: usize,
        bits: Number,
    },
    ByteOrder {
        token: usize,
        order: ByteOrder,
    },
    Align {
        token: usize,
        bytes: Number,
    },
    SlotBits {
        token: usize,
        bits: Number,
    },
    Memory {
        token: usize,
        bytes: Number,
    },
    Code {
        token: usize,
        end: Number,
    },
    Data {
        token: usize,
        end: Number,
    },
    Space {
        token: usize,
        name: Ident,
        cells: Number,
        bits: Number,
        flags: bool,
    },
    Zero {
        token: usize,
        space: Ident,
        cell: Number,
    },
    Frame {
        token: usize,
        space: Ident,
        cell: Number,
    },
    Link {
        token: usize,
        space: Ident,
        cell: Number,
    },
    Allocatable {
        token: usize,
        space: Ident,
        first: Number,
        last: Number,
    },
    Function {
        token: usize,
        name: Ident,
        params: Items<Param>,
        body: Expr,
    },
    Effects {
        token: usize,
        name: Ident,
        params: Items<Param>,
        body: Items<Effect>,
    },
    Instruction {
        token: usize,
        name: Ident,
        operands: Items<Operand>,
        body: Items<Effect>,
    },
}

/// A parameter; one with an arity is a function of so many plain arguments.
#[derive(Debug, Drop)]
pub struct Param {
    pub name: Ident,
    pub arity: Option<Number>,
}

#[derive(Debug, Drop)]
pub struct Operand {
    pub name: Ident,
    pub kind: OperandKind,
}

/// A register of a space, an immediate of so many bits, or an address.
#[derive(Debug, Drop)]
pub enum OperandKind {
    Register { space: Ident },
    Immediate { token: usize, bits: Number },
    Address { token: usize },
}

/// An effect that takes place where its guard holds, if it has one.
#[derive(Debug, Drop)]
pub struct Effect {
    pub guard: Option<Guard>,
    pub simple: Simple,
}

#[derive(Debug, Drop)]
pub struct Guard {
    pub token: usize,
    pub condition: Expr,
}

/// An assignment, or the use of named effects.
#[derive(Debug, Drop)]
pub enum Simple {
    Pc {
        token: usize,
        value: Expr,
    },
    Out {
        token: usize,
        value: Expr,
    },
    Halt {
        token: usize,
        value: Expr,
    },
    Trap {
        token: usize,
        value: Expr,
    },
    Mem {
        token: usize,
        bits: Number,
        address: Expr,
        value: Expr,
    },
    Name {
        name: Ident,
        value: Expr,
    },
    Cell {
        space: Ident,
        cell: Number,
        value: Expr,
    },
    Use {
        name: Ident,
        args: Items<Expr>,
    },
}

#[derive(Debug, Drop)]
pub enum Expr {
    Literal {
        value: Number,
        bits: Number,
    },
    Input {
        token: usize,
    },
    After {
        token: usize,
    },
    Mem {
        token: usize,
        bits: Number,
        address: Boxed<Expr>,
    },
    Zx {
        token: usize,
        bits: Number,
        arg: Boxed<Expr>,
    },
    Sx {
        token: usize,
        bits: Number,
        arg: Boxed<Expr>,
    },
    Slice {
        token: usize,
        low: Number,
        bits: Number,
        arg: Boxed<Expr>,
    },
    Name {
        name: Ident,
    },
    Call {
        name: Ident,
        args: Items<Expr>,
    },
    Cell {
        space: Ident,
        cell: Number,
    },
}
