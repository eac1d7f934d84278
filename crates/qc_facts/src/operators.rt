//! The operators that have names.
ghost use Rattle.std.specs.Prelude.{◌≡◌, map, IfOk};
ghost use Rattle.qc_names.specs.Tables.{HasNames};
ghost use Rattle.qc_facts.specs.Facts.{named, operators, second, operator_named as named_operator};
ghost use Rattle.qc_facts.specs.Facts.{operands_of as operands_wanted};

use qc_names::NameTable;
use qc_words::Op;
use std::alloc::{AllocError, Global};

const OPERATORS: [(&[u8], Op); 21] = [
    (b"add", Op::Add),
    (b"sub", Op::Sub),
    (b"mul", Op::Mul),
    (b"divu", Op::Divu),
    (b"modu", Op::Modu),
    (b"quot", Op::Quot),
    (b"rem", Op::Rem),
    (b"and", Op::And),
    (b"or", Op::Or),
    (b"xor", Op::Xor),
    (b"com", Op::Com),
    (b"neg", Op::Neg),
    (b"shl", Op::Shl),
    (b"shrl", Op::Shrl),
    (b"shra", Op::Shra),
    (b"eq", Op::Eq),
    (b"ne", Op::Ne),
    (b"lt", Op::Lt),
    (b"ge", Op::Ge),
    (b"ltu", Op::Ltu),
    (b"geu", Op::Geu),
];

/// The operator of the first pair of this name.
fn paired_operator(pairs: &[(&[u8], Op)], name: &[u8]) -> Option<Op>
    ensures { result ≡ second (named (λ p. p.0) (map (λ p. (p.0.now, p.1)) pairs.now) name.now) }
{
    for pair in pairs {
        if *pair.0 == *name {
            return Some(pair.1);
        }
    }
    None
}

/// The operator of this name.
pub fn operator_named(name: &[u8]) -> Option<Op>
    ensures { result ≡ named_operator name.now }
{
    paired_operator(&OPERATORS, name)
}

/// The names of pairs.
fn names_of(alloc: Global, pairs: &[(&[u8], Op)]) -> Result<NameTable, AllocError>
    ensures { IfOk result (λ names. HasNames names (map (λ p. p.0.now) pairs.now)) }
{
    let mut names = NameTable::new(alloc);
    for pair in pairs {
        names.enter(alloc, pair.0, 0)?;
    }
    Ok(names)
}

/// The names of all operators that have one.
pub fn operator_names(alloc: Global) -> Result<NameTable, AllocError>
    ensures { IfOk result (λ names. HasNames names (map (λ p. p.0) operators)) }
{
    names_of(alloc, &OPERATORS)
}

/// How many operands an operator has.
pub fn operands_of(op: Op) -> u128
    ensures { result ≡ operands_wanted op }
{
    match op {
        Op::Com | Op::Neg | Op::Zx { .. } | Op::Sx { .. } | Op::Slice { .. } => 1,
        _ => 2,
    }
}
