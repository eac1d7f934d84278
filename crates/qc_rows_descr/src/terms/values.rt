//! Values of terms.

ghost use Rattle.std.specs.Prelude.{◌≡◌, ◌<◌, ◌≤◌, ◌^◌, [], ◌∷◌, IfOk, false, length, slice_index};
ghost use Rattle.qc_terms.specs.Tree.{has_input, tree_of};
ghost use Rattle.qc_terms.specs.Typing.{IsAccessWidth, IsTyped, OperandsFit};

use super::*;

/// A term: the cell 0, the complement of the sum of the operand 1 and 3, or the word of 1, 2 or 4 bytes at an address.
#[derive(Clone, Copy)]
enum Shape {
    Cell0,
    InvertedSum,
    Byte(u32),
    Half(u32),
    Word(u32),
}

/// The complement of the sum of the operand 1 and 3.
fn inverted_sum(alloc: Global, operands: &[u64]) -> Result<Term, Fail>
    requires operands { (length operands.now ≡ 2)
        × (slice_index operands.now 0 < 2) × (slice_index operands.now 1 < 2 ^ 32) }
    ensures typed { IfOk result (λ t. IsTyped (record { word = 32; widths = 32 ∷ []; counts = 2 ∷ [] }) (tree_of t)) }
    ensures fits { IfOk result
        (λ t. OperandsFit (record { word = 32; widths = 32 ∷ []; counts = 2 ∷ [] }) operands.now (tree_of t)) }
    ensures input { IfOk result (λ t. has_input (tree_of t) ≡ false) }
{
    let width = Width::new(32).ok_or("width")?;
    let left = Boxed::new(alloc, Term::Imm { operand: 1, width })?;
    let right = Boxed::new(alloc, Term::Num { value: 3, width })?;
    let sum = Term::Bin {
        op: Op::Add,
        left,
        right,
    };
    Ok(Term::Un {
        op: Op::Com,
        arg: Boxed::new(alloc, sum)?,
    })
}

/// The word of so many bits at an address.
fn load(alloc: Global, bits: u8, address: u32, operands: &[u64]) -> Result<Term, Fail>
    requires { IsAccessWidth bits × (bits ≤ 32) }
    ensures typed { IfOk result (λ t. IsTyped (record { word = 32; widths = 32 ∷ []; counts = 2 ∷ [] }) (tree_of t)) }
    ensures fits { IfOk result
        (λ t. OperandsFit (record { word = 32; widths = 32 ∷ []; counts = 2 ∷ [] }) operands.now (tree_of t)) }
    ensures input { IfOk result (λ t. has_input (tree_of t) ≡ false) }
{
    let start = Term::Num {
        value: u64::from(address),
        width: Width::new(32).ok_or("width")?,
    };
    Ok(Term::Mem {
        width: Width::new(bits).ok_or("width")?,
        address: Boxed::new(alloc, start)?,
    })
}

/// The term of a shape.
fn shaped(alloc: Global, shape: Shape, operands: &[u64]) -> Result<Term, Fail>
    requires operands { (length operands.now ≡ 2)
        × (slice_index operands.now 0 < 2) × (slice_index operands.now 1 < 2 ^ 32) }
    ensures typed { IfOk result (λ t. IsTyped (record { word = 32; widths = 32 ∷ []; counts = 2 ∷ [] }) (tree_of t)) }
    ensures fits { IfOk result
        (λ t. OperandsFit (record { word = 32; widths = 32 ∷ []; counts = 2 ∷ [] }) operands.now (tree_of t)) }
    ensures input { IfOk result (λ t. has_input (tree_of t) ≡ false) }
{
    match shape {
        Shape::Cell0 => Ok(Term::Reg {
            place: Place::Cell { space: 0, index: 0 },
            width: Width::new(32).ok_or("width")?,
        }),
        Shape::InvertedSum => inverted_sum(alloc, operands),
        Shape::Byte(address) => load(alloc, 8, address, operands),
        Shape::Half(address) => load(alloc, 16, address, operands),
        Shape::Word(address) => load(alloc, 32, address, operands),
    }
}

/// The value of a term on a machine with the bytes 1 to 8, whose cell 0 holds 5 but always reads 0, for the operands 0
/// and 0xffff_fffe.
fn value_of(alloc: Global, order: Order, shape: Shape) -> Result<Option<u64>, Fail> {
    let memory = [1, 2, 3, 4, 5, 6, 7, 8];
    let operands = [0, 0xffff_fffe];
    let state = machine(alloc, order, Some((0, 0)), [5, 0], None, &memory)?;
    let term = shaped(alloc, shape, &operands)?;
    Ok(value(&term, &operands, 4, &state))
}

const VALUES: [(Order, Shape, Option<u64>); 13] = [
    (Order::Little, Shape::Cell0, Some(0)),
    (Order::Little, Shape::InvertedSum, Some(0xffff_fffe)),
    (Order::Little, Shape::Word(0), Some(0x0403_0201)),
    (Order::Big, Shape::Word(0), Some(0x0102_0304)),
    (Order::Little, Shape::Word(4), Some(0x0807_0605)),
    (Order::Big, Shape::Word(4), Some(0x0506_0708)),
    (Order::Little, Shape::Word(5), None),
    (Order::Big, Shape::Word(0xffff_ffff), None),
    (Order::Little, Shape::Half(6), Some(0x0807)),
    (Order::Big, Shape::Half(1), Some(0x0203)),
    (Order::Little, Shape::Half(7), None),
    (Order::Big, Shape::Byte(7), Some(8)),
    (Order::Little, Shape::Byte(8), None),
];

#[test]
fn values_of_terms(rt: HostRuntime) -> Result<(), Fail> {
    for (order, shape, want) in VALUES {
        let found = value_of(rt.alloc(), order, shape)?;
        assert_eq!(rt; found, want, "{order:?}");
    }
    Ok(())
}

#[test]
fn places_and_the_zero_cell(rt: HostRuntime) -> Result<(), Fail> {
    let named = Place::Operand {
        space: 0,
        number: 0,
    };
    assert_eq!(rt; named.space(), 0);
    let facts = Facts {
        word: Width::new(32).ok_or("width")?,
        order: Order::Little,
        zero: Some((0, 1)),
    };
    assert!(rt; facts.is_zero_cell(0, 1));
    Ok(())
}
