use qc_words::Op;

/// A number that a law writes. Its width is that of the law's first part, but for `WideOne`.
#[derive(Clone, Copy, Debug, PartialEq, Eq)]
pub enum Literal {
    Zero,
    One,
    /// All bits of the word.
    Ones,
    /// The highest bit of the word.
    Least,
    /// The law's size, as a number.
    Size,
    /// The word's width without the law's size, as a number.
    Rest,
    /// As many low bits as the law's size says.
    LowMask,
    /// The number 1 in the width that the law's size says.
    WideOne,
}

/// An operator of one operand in a law, whose widths come from the word and from the law's size.
#[derive(Clone, Copy, Debug, PartialEq, Eq)]
pub enum Operator {
    Complement,
    Negation,
    /// An extension with zeros to the word's width.
    ZeroExtension,
    /// An extension with the sign to the word's width.
    SignExtension,
    /// An extension with zeros to the width that the law's size says.
    Widening,
    /// As many low bits as the law's size says.
    LowSlice,
    /// The bits above those.
    HighSlice,
}

/// The form of the terms that a law matches.
#[derive(Clone, Copy, Debug, PartialEq, Eq)]
pub enum Left {
    /// Every term.
    Whole,
    /// A constant that is wider than this size.
    Constant { size: u8 },
    /// The operator over a part.
    OneOperand { operator: Operator },
    /// The operator over two parts.
    TwoOperands { op: Op },
    /// The operator over a part and a literal.
    WithLiteral { op: Op, literal: Literal },
    /// The operator over such a pair and a part.
    LeftNested { op: Op },
    /// The operator over a part and such a pair.
    RightNested { op: Op },
    /// The extension with zeros of the complement of a part of one bit. The size is the wide width.
    WideComplement,
    /// An extension to a part's width of as many of its low bits as the size says.
    LowBits { extension: Operator },
    /// The low bits of a part by a mask of so many ones as the size says, but not of all bits.
    Masked,
}
