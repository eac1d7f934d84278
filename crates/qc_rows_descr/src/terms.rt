//! Lists and terms on machines of 32-bit words, with one space of two cells and eight bytes of memory.

ghost use Rattle.std.specs.Prelude.{◌≡◌, ◌<◌, ◌≤◌, ◌^◌, [], ◌∷◌, All, IfOk, IfSome, None, length, slice_index};
ghost use Rattle.qc_terms.specs.State.{IsState, context_of};
ghost use Rattle.qc_terms.specs.Tree.{tree_of, width_of};
ghost use Rattle.qc_terms.specs.Typing.{DestFits, EffectFits, IsAccessWidth, IsTyped, IsTypedEffect, IsTypedRtl, OperandsFit, RtlFits, TakesWidth};

use qc_terms::{
    Cells, Dest, Effect, Event, Facts, Order, Place, Rtl, State, Term, WidthClash, apply_rtl,
    value, width_of,
};
use qc_words::{Op, Width};
use sqlite_items::{Boxed, Items};
use std::alloc::{AllocError, Global};
use std::process::Abort;
use std::test::Fail;

mod lists;
mod values;
mod widths;

/// A value of 32 bits: a number, the operand 1, the cell that the operand 0 names, the cell 0 or 1, the next word of
/// the input, or the address after.
#[derive(Clone, Copy)]
enum Value {
    Number(u32),
    Operand,
    Named,
    Cell0,
    Cell1,
    Input,
    After,
}

/// What an effect sets to a value of 32 bits: the cell that the operand 0 names, the cell 0 or 1, the program counter,
/// the output, or the code of the end.
#[derive(Clone, Copy)]
enum To {
    Named,
    Cell0,
    Cell1,
    Counter,
    Output,
    End,
}

/// A word that is stored in 1, 2 or 4 bytes.
#[derive(Clone, Copy)]
enum Stored {
    Byte(u8),
    Half(u16),
    Word(u32),
}

/// What an effect does: it sets something to a value, stores a word at an address, or traps with a code.
#[derive(Clone, Copy)]
enum Change {
    Set(To, Value),
    Store(u32, Stored),
    Trap(u8),
}

/// When an effect takes place: always, where a bit is 1, or where a cell is 0.
#[derive(Clone, Copy)]
enum When {
    Always,
    Bit(bool),
    Zero(Value),
}

/// The word of a value.
fn term(value: Value, word: Width, operands: &[u64]) -> Term
    requires word { word ≡ 32 }
    requires operands { (length operands.now ≡ 2)
        × (slice_index operands.now 0 < 2) × (slice_index operands.now 1 < 2 ^ 32) }
    ensures typed { IsTyped (record { word = 32; widths = 32 ∷ []; counts = 2 ∷ [] }) (tree_of result) }
    ensures fits { OperandsFit (record { word = 32; widths = 32 ∷ []; counts = 2 ∷ [] }) operands.now (tree_of result) }
    ensures width { width_of (tree_of result) ≡ 32 }
{
    match value {
        Value::Number(number) => Term::Num {
            value: u64::from(number),
            width: word,
        },
        Value::Operand => Term::Imm {
            operand: 1,
            width: word,
        },
        Value::Named => Term::Reg {
            place: Place::Operand {
                space: 0,
                number: 0,
            },
            width: word,
        },
        Value::Cell0 => Term::Reg {
            place: Place::Cell { space: 0, index: 0 },
            width: word,
        },
        Value::Cell1 => Term::Reg {
            place: Place::Cell { space: 0, index: 1 },
            width: word,
        },
        Value::Input => Term::Input { width: word },
        Value::After => Term::After { width: word },
    }
}

/// What is set.
fn dest(to: To, operands: &[u64]) -> Dest
    requires operands { (length operands.now ≡ 2)
        × (slice_index operands.now 0 < 2) × (slice_index operands.now 1 < 2 ^ 32) }
    ensures typed { TakesWidth (record { word = 32; widths = 32 ∷ []; counts = 2 ∷ [] }) result 32 }
    ensures fits { DestFits (record { word = 32; widths = 32 ∷ []; counts = 2 ∷ [] }) operands.now result }
{
    match to {
        To::Named => Dest::Reg {
            place: Place::Operand {
                space: 0,
                number: 0,
            },
        },
        To::Cell0 => Dest::Reg {
            place: Place::Cell { space: 0, index: 0 },
        },
        To::Cell1 => Dest::Reg {
            place: Place::Cell { space: 0, index: 1 },
        },
        To::Counter => Dest::Pc,
        To::Output => Dest::Out,
        To::End => Dest::Halt,
    }
}

/// An input of one word or none.
fn words(alloc: Global, word: Option<u32>) -> Result<Items<u64>, AllocError>
    ensures { IfOk result (All (λ w. w < 2 ^ 32)) }
{
    match word {
        Some(word) => Items::from_slice(alloc, &[u64::from(word)]),
        None => Ok(Items::new(alloc)),
    }
}

/// A machine with this cell that always reads 0, these cells, this input and this memory.
fn machine(
    alloc: Global,
    order: Order,
    zero: Option<(u32, u32)>,
    cells: [u32; 2],
    input: Option<u32>,
    memory: &[u8],
) -> Result<State, Fail>
    ensures { IfOk result (λ s. IsState s × (s.ending ≡ None)
        × (context_of s ≡ record { word = 32; widths = 32 ∷ []; counts = 2 ∷ [] })) }
{
    let word = Width::new(32).ok_or("width")?;
    let mut held = Cells::zeroed(alloc, &[2])?;
    held.write(0, 0, u64::from(cells[0]));
    held.write(0, 1, u64::from(cells[1]));
    Ok(State {
        facts: Facts { word, order, zero },
        widths: Items::from_vec(vec![in alloc; word]?),
        cells: held,
        memory: Items::from_slice(alloc, memory)?,
        pc: 0,
        input: words(alloc, input)?,
        taken: 0,
        ending: None,
    })
}

/// The number of a word that is stored, and its width.
fn word_of_store(stored: Stored) -> Result<(u64, Width), Fail>
    ensures { IfOk result (λ p. IsAccessWidth p.1 × (p.1 ≤ 32) × (p.0 < 2 ^ p.1)) }
{
    match stored {
        Stored::Byte(byte) => Ok((u64::from(byte), Width::new(8).ok_or("width")?)),
        Stored::Half(half) => Ok((u64::from(half), Width::new(16).ok_or("width")?)),
        Stored::Word(word) => Ok((u64::from(word), Width::new(32).ok_or("width")?)),
    }
}

/// The guard of an effect.
fn guard(alloc: Global, when: When, word: Width, operands: &[u64]) -> Result<Option<Term>, Fail>
    requires word { word ≡ 32 }
    requires operands { (length operands.now ≡ 2)
        × (slice_index operands.now 0 < 2) × (slice_index operands.now 1 < 2 ^ 32) }
    ensures typed { IfOk result (λ g. IfSome g (λ t. (width_of (tree_of t) ≡ 1)
        × IsTyped (record { word = 32; widths = 32 ∷ []; counts = 2 ∷ [] }) (tree_of t))) }
    ensures fits { IfOk result (λ g. IfSome g
        (λ t. OperandsFit (record { word = 32; widths = 32 ∷ []; counts = 2 ∷ [] }) operands.now (tree_of t))) }
{
    match when {
        When::Always => Ok(None),
        When::Bit(false) => Ok(Some(Term::Num {
            value: 0,
            width: Width::ONE,
        })),
        When::Bit(true) => Ok(Some(Term::Num {
            value: 1,
            width: Width::ONE,
        })),
        When::Zero(value) => {
            let left = Boxed::new(alloc, term(value, word, operands))?;
            let right = Boxed::new(alloc, term(Value::Number(0), word, operands))?;
            Ok(Some(Term::Bin {
                op: Op::Eq,
                left,
                right,
            }))
        }
    }
}

/// An effect.
fn effect(alloc: Global, when: When, change: Change, operands: &[u64]) -> Result<Effect, Fail>
    requires operands { (length operands.now ≡ 2)
        × (slice_index operands.now 0 < 2) × (slice_index operands.now 1 < 2 ^ 32) }
    ensures typed { IfOk result (IsTypedEffect (record { word = 32; widths = 32 ∷ []; counts = 2 ∷ [] })) }
    ensures fits { IfOk result (EffectFits (record { word = 32; widths = 32 ∷ []; counts = 2 ∷ [] }) operands.now) }
{
    let word = Width::new(32).ok_or("width")?;
    let guard = guard(alloc, when, word, operands)?;
    match change {
        Change::Set(to, value) => Ok(Effect {
            guard,
            to: dest(to, operands),
            value: term(value, word, operands),
        }),
        Change::Store(address, held) => {
            let (value, width) = word_of_store(held)?;
            let address = term(Value::Number(address), word, operands);
            Ok(Effect {
                guard,
                to: Dest::Mem { width, address },
                value: Term::Num { value, width },
            })
        }
        Change::Trap(code) => {
            let width = Width::new(8).ok_or("width")?;
            Ok(Effect {
                guard,
                to: Dest::Trap,
                value: Term::Num {
                    value: u64::from(code),
                    width,
                },
            })
        }
    }
}

/// A list of one or two effects.
fn list(
    alloc: Global,
    first: (When, Change),
    second: Option<(When, Change)>,
    operands: &[u64],
) -> Result<Rtl, Fail>
    requires operands { (length operands.now ≡ 2)
        × (slice_index operands.now 0 < 2) × (slice_index operands.now 1 < 2 ^ 32) }
    ensures typed { IfOk result (IsTypedRtl (record { word = 32; widths = 32 ∷ []; counts = 2 ∷ [] })) }
    ensures fits { IfOk result (RtlFits (record { word = 32; widths = 32 ∷ []; counts = 2 ∷ [] }) operands.now) }
    ensures few { IfOk result (λ r. length r.effects ≤ 16) }
{
    let (when, change) = first;
    let first = effect(alloc, when, change, operands)?;
    match second {
        Some((when, change)) => {
            let second = effect(alloc, when, change, operands)?;
            Ok(Rtl {
                effects: Items::from_vec(vec![in alloc; first, second]?),
            })
        }
        None => Ok(Rtl {
            effects: Items::from_vec(vec![in alloc; first]?),
        }),
    }
}
