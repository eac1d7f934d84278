//! The syntax tree of a program.
use qc_grammar::{Ident, Number};
use sqlite_items::{Boxed, Items};

/// An expression.
#[derive(Debug, Drop)]
pub enum Expr {
    Number { value: Number },
    Name { name: Ident },
    Not { token: usize, arg: Boxed<Expr> },
    Call { name: Ident, args: Items<Expr> },
    Index { name: Ident, at: Boxed<Expr> },
    Group { inner: Boxed<Expr> },
}

/// A statement.
#[derive(Debug, Drop)]
pub enum Statement {
    Let {
        name: Ident,
        type_of: Option<Ident>,
        value: Expr,
    },
    Print {
        values: Items<Expr>,
    },
    Block {
        body: Items<Statement>,
    },
    Set {
        name: Ident,
        value: Expr,
    },
    Do {
        name: Ident,
        args: Items<Expr>,
    },
}

/// A program: a name, and statements.
#[derive(Debug, Drop)]
pub struct Program {
    pub name: Ident,
    pub body: Items<Statement>,
}
