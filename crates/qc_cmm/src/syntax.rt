//! The syntax tree of a C-- program. A node keeps the number of its first token: its own `token`, or that of the name,
//! the number, the type or the expression that it begins with.
use qc_grammar::{Ident, Number};
use sqlite_items::{Boxed, Items};

/// A program: what machine it is for, and its parts in order.
#[derive(Debug, Drop)]
pub struct Program {
    pub target: Target,
    pub parts: Items<Part>,
}

/// The machine that a program is for: its byte order, and its word's width in bits.
#[derive(Debug, Drop)]
pub struct Target {
    pub token: usize,
    pub order: ByteOrder,
    pub word_size: Number,
}

#[derive(Clone, Copy, Debug, PartialEq, Eq)]
pub enum ByteOrder {
    Little { token: usize },
    Big { token: usize },
}

/// A section of data, or a procedure. A section's name is a string's text, with its quotes.
#[derive(Debug, Drop)]
pub enum Part {
    Section {
        token: usize,
        name: Ident,
        data: Items<Datum>,
    },
    Procedure {
        procedure: Procedure,
    },
}

/// Data, or a name for the place of the data after it.
#[derive(Debug, Drop)]
pub enum Datum {
    Label {
        name: Ident,
    },
    /// So many elements, each 0.
    Zeros {
        element: WordType,
        count: Number,
    },
    /// An element for each literal.
    Values {
        element: WordType,
        values: Items<Literal>,
    },
}

/// A type of words, by their width in bits. It has no sign: the operators have it.
#[derive(Clone, Copy, Debug, PartialEq, Eq)]
pub enum WordType {
    Bits8 { token: usize },
    Bits16 { token: usize },
    Bits32 { token: usize },
    Bits64 { token: usize },
}

/// A procedure. Its declarations of variables stand before its statements.
#[derive(Debug, Drop)]
pub struct Procedure {
    pub name: Ident,
    pub params: Items<Param>,
    pub variables: Items<Declaration>,
    pub body: Items<BodyItem>,
}

#[derive(Debug, Drop)]
pub struct Param {
    pub type_of: WordType,
    pub name: Ident,
}

/// Variables of one type.
#[derive(Debug, Drop)]
pub struct Declaration {
    pub type_of: WordType,
    pub names: Items<Ident>,
}

/// A label, or a statement, at the level of a procedure's body.
#[derive(Debug, Drop)]
pub enum BodyItem {
    Label { name: Ident },
    Statement { statement: Statement },
}

#[derive(Debug, Drop)]
pub enum Statement {
    Goto {
        token: usize,
        label: Ident,
    },
    Return {
        token: usize,
        results: Items<Expr>,
    },
    /// The statements to take where the condition isn't 0.
    If {
        token: usize,
        condition: Expr,
        body: Items<Statement>,
    },
    /// The statements to take where the condition isn't 0, and those to take where it is.
    IfElse {
        token: usize,
        condition: Expr,
        body: Items<Statement>,
        otherwise: Items<Statement>,
    },
    Out {
        token: usize,
        value: Expr,
    },
    Store {
        type_of: WordType,
        address: Expr,
        value: Expr,
    },
    Call {
        name: Ident,
        args: Items<Expr>,
    },
    /// The targets from left to right, and what is assigned to them.
    Assign {
        targets: Items<Ident>,
        source: Source,
    },
}

/// What is assigned: the next word of the input, an expression's value, or the results of a call.
#[derive(Debug, Drop)]
pub enum Source {
    Input { token: usize },
    Value { value: Expr },
    Call { name: Ident, args: Items<Expr> },
}

/// An expression. The text of a Prim begins with a percent sign; it may be that of none of the operators.
#[derive(Debug, Drop)]
pub enum Expr {
    Literal {
        value: Literal,
    },
    Name {
        name: Ident,
    },
    Load {
        type_of: WordType,
        address: Boxed<Expr>,
    },
    Unary {
        prim: Ident,
        arg: Boxed<Expr>,
    },
    Binary {
        prim: Ident,
        left: Boxed<Expr>,
        right: Boxed<Expr>,
    },
}

/// A number, or a number with a minus before it. `-0` is negative.
#[derive(Clone, Copy, Debug, PartialEq, Eq)]
pub enum Literal {
    Plain { value: Number },
    Negative { token: usize, value: Number },
}
