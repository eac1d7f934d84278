//! The operators of expressions, by their names.
ghost use Rattle.std.specs.Prelude.{◌≡◌, map};
ghost use Rattle.qc_names.specs.Tables.{named};
ghost use Rattle.qc_cmmtype.specs.Prims as spec;

use qc_words::Op;

/// What a Prim does: an operation of arithmetic, logic or shifts, whose operands and value are of one width; a comparison,
/// whose value is the word 1 or 0; an extension of a narrow word to the word's width, with zeros or by its sign; or the
/// lowest bits of a word.
#[derive(Clone, Copy, Debug, PartialEq, Eq)]
pub enum Prim {
    Operation { op: Op },
    Comparison { op: Op },
    ZeroExtension,
    SignExtension,
    LowBits8,
    LowBits16,
    LowBits32,
}

const PRIMS: [(&[u8], Prim); 23] = [
    (b"%add", Prim::Operation { op: Op::Add }),
    (b"%sub", Prim::Operation { op: Op::Sub }),
    (b"%mul", Prim::Operation { op: Op::Mul }),
    (b"%divu", Prim::Operation { op: Op::Divu }),
    (b"%modu", Prim::Operation { op: Op::Modu }),
    (b"%quot", Prim::Operation { op: Op::Quot }),
    (b"%rem", Prim::Operation { op: Op::Rem }),
    (b"%and", Prim::Operation { op: Op::And }),
    (b"%or", Prim::Operation { op: Op::Or }),
    (b"%xor", Prim::Operation { op: Op::Xor }),
    (b"%com", Prim::Operation { op: Op::Com }),
    (b"%neg", Prim::Operation { op: Op::Neg }),
    (b"%shl", Prim::Operation { op: Op::Shl }),
    (b"%shrl", Prim::Operation { op: Op::Shrl }),
    (b"%shra", Prim::Operation { op: Op::Shra }),
    (b"%eq", Prim::Comparison { op: Op::Eq }),
    (b"%ne", Prim::Comparison { op: Op::Ne }),
    (b"%lt", Prim::Comparison { op: Op::Lt }),
    (b"%ge", Prim::Comparison { op: Op::Ge }),
    (b"%ltu", Prim::Comparison { op: Op::Ltu }),
    (b"%geu", Prim::Comparison { op: Op::Geu }),
    (b"%lobits8", Prim::LowBits8),
    (b"%lobits16", Prim::LowBits16),
];

const PRIMS_OF_16: [(&[u8], Prim); 2] = [
    (b"%zx16", Prim::ZeroExtension),
    (b"%sx16", Prim::SignExtension),
];

const PRIMS_OF_32: [(&[u8], Prim); 2] = [
    (b"%zx32", Prim::ZeroExtension),
    (b"%sx32", Prim::SignExtension),
];

const PRIMS_OF_64: [(&[u8], Prim); 3] = [
    (b"%zx64", Prim::ZeroExtension),
    (b"%sx64", Prim::SignExtension),
    (b"%lobits32", Prim::LowBits32),
];

/// The Prim of the first pair of this name.
fn paired_prim(pairs: &[(&[u8], Prim)], name: &[u8]) -> Option<Prim>
    ensures { result ≡ named (map (λ p. (p.0.now, p.1)) pairs.now) name.now }
{
    for pair in pairs {
        if *pair.0 == *name {
            return Some(pair.1);
        }
    }
    None
}

/// The Prim of this name, among those that words of one width alone have.
fn prim_of_word(word: u8, name: &[u8]) -> Option<Prim>
    ensures { result ≡ named (spec.prims_of word) name.now }
{
    if word == 16 {
        paired_prim(&PRIMS_OF_16, name)
    } else if word == 32 {
        paired_prim(&PRIMS_OF_32, name)
    } else if word == 64 {
        paired_prim(&PRIMS_OF_64, name)
    } else {
        None
    }
}

/// The Prim of this name on a machine with words of so many bits.
pub fn prim_named(word: u8, name: &[u8]) -> Option<Prim>
    ensures { result ≡ spec.prim_named word name.now }
{
    match paired_prim(&PRIMS, name) {
        Some(prim) => Some(prim),
        None => prim_of_word(word, name),
    }
}

/// How many operands a Prim has.
pub fn operands_of(prim: Prim) -> u32
    ensures { result ≡ spec.operands_of prim }
{
    match prim {
        Prim::Operation { op } => match op {
            Op::Com | Op::Neg | Op::Zx { .. } | Op::Sx { .. } | Op::Slice { .. } => 1,
            _ => 2,
        },
        Prim::Comparison { .. } => 2,
        Prim::ZeroExtension
        | Prim::SignExtension
        | Prim::LowBits8
        | Prim::LowBits16
        | Prim::LowBits32 => 1,
    }
}
