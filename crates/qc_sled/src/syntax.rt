//! The syntax tree of the text of a coding. A node keeps the number of its first token: its own `token`, or that
//! of the name or the number that it begins with.
use qc_grammar::{Ident, Number};
use sqlite_items::{Boxed, Items};

/// The text of a coding.
#[derive(Debug, Drop)]
pub struct RawCoding {
    pub name: Ident,
    pub items: Items<Item>,
}

/// The fields of a token, a pattern with a name, or a constructor.
#[derive(Debug, Drop)]
pub enum Item {
    Fields {
        token: usize,
        name: Ident,
        bits: Number,
        fields: Items<Field>,
    },
    Pattern {
        token: usize,
        name: Ident,
        body: Pattern,
    },
    Constructor {
        token: usize,
        name: Ident,
        params: Items<Param>,
        body: Pattern,
    },
}

/// A field: its highest and its lowest bit.
#[derive(Debug, Drop)]
pub struct Field {
    pub name: Ident,
    pub high: Number,
    pub low: Number,
}

#[derive(Debug, Drop)]
pub struct Param {
    pub name: Ident,
    pub reach: Option<Reach>,
}

/// How an address is coded: relative to the instruction, or as it is, in so many bits.
#[derive(Debug, Drop)]
pub enum Reach {
    Relative { token: usize, bits: Number },
    Absolute { token: usize, bits: Number },
}

/// A pattern. Each list has one part or more: a pattern is `Alternatives` of `Sequence`s of `Conjunction`s, whose parts
/// are the first three.
#[derive(Debug, Drop)]
pub enum Pattern {
    Name { name: Ident },
    Equal { field: Ident, value: Boxed<Value> },
    Group { token: usize, inner: Boxed<Pattern> },
    Conjunction { parts: Items<Pattern> },
    Sequence { parts: Items<Pattern> },
    Alternatives { parts: Items<Pattern> },
}

/// What a field is: a number, an operand, or some bits of one.
#[derive(Debug, Drop)]
pub enum Value {
    Number {
        value: Number,
    },
    Operand {
        name: Ident,
    },
    Bits {
        name: Ident,
        high: Number,
        low: Number,
    },
}
