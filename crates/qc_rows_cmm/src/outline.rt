//! Outlines of trees: each part in one line, with the number of each token that the tree keeps behind it.
use qc_cmm::{
    BodyItem, ByteOrder, Datum, Declaration, Expr, Literal, Param, Part, Procedure, Program,
    Source, Statement, WordType,
};
use qc_grammar::{Ident, Number};
use std::alloc::{AllocError, Global};

/// An outline that is put together.
#[derive(Drop)]
pub(crate) struct Outline {
    alloc: Global,
    text: Vec<u8>,
}

impl Outline {
    fn word(&mut self, word: &[u8]) -> Result<(), AllocError> {
        self.text.extend_from_slice(word)
    }

    fn at(&mut self, word: &[u8], token: usize) -> Result<(), AllocError> {
        let place = format!(in self.alloc; "@{}", token)?;
        self.text.extend_from_slice(word)?;
        self.text.extend_from_slice(place.as_bytes())
    }

    fn ident(&mut self, ident: &Ident) -> Result<(), AllocError> {
        self.at(ident.text.as_slice(), ident.token)
    }

    fn number(&mut self, number: &Number) -> Result<(), AllocError> {
        let digits = format!(in self.alloc; "{}", number.value)?;
        self.at(digits.as_bytes(), number.token)
    }

    fn type_of(&mut self, type_of: WordType) -> Result<(), AllocError> {
        match type_of {
            WordType::Bits8 { token } => self.at(b"bits8", token),
            WordType::Bits16 { token } => self.at(b"bits16", token),
            WordType::Bits32 { token } => self.at(b"bits32", token),
            WordType::Bits64 { token } => self.at(b"bits64", token),
        }
    }

    fn literal(&mut self, literal: &Literal) -> Result<(), AllocError> {
        match literal {
            Literal::Plain { value } => self.number(value),
            Literal::Negative { token, value } => {
                self.at(b"minus", *token)?;
                self.word(b" ")?;
                self.number(value)
            }
        }
    }

    fn expr(&mut self, expr: &Expr) -> Result<(), AllocError> {
        match expr {
            Expr::Literal { value } => self.literal(value),
            Expr::Name { name } => self.ident(name),
            Expr::Load { type_of, address } => {
                self.word(b"load ")?;
                self.type_of(*type_of)?;
                self.word(b"[")?;
                self.expr(address.get())?;
                self.word(b"]")
            }
            Expr::Unary { prim, arg } => {
                self.ident(prim)?;
                self.word(b"(")?;
                self.expr(arg.get())?;
                self.word(b")")
            }
            Expr::Binary { prim, left, right } => {
                self.ident(prim)?;
                self.word(b"(")?;
                self.expr(left.get())?;
                self.word(b", ")?;
                self.expr(right.get())?;
                self.word(b")")
            }
        }
    }

    fn args(&mut self, args: &[Expr]) -> Result<(), AllocError> {
        self.word(b"(")?;
        for place in 0..args.len() {
            if place > 0 {
                self.word(b", ")?;
            }
            self.expr(&args[place])?;
        }
        self.word(b")")
    }

    fn names(&mut self, names: &[Ident]) -> Result<(), AllocError> {
        for place in 0..names.len() {
            if place > 0 {
                self.word(b", ")?;
            }
            self.ident(&names[place])?;
        }
        Ok(())
    }

    fn source(&mut self, source: &Source) -> Result<(), AllocError> {
        match source {
            Source::Input { token } => self.at(b"input", *token),
            Source::Value { value } => self.expr(value),
            Source::Call { name, args } => {
                self.word(b"call ")?;
                self.ident(name)?;
                self.args(args.as_slice())
            }
        }
    }

    fn store(&mut self, type_of: WordType, address: &Expr, value: &Expr) -> Result<(), AllocError> {
        self.word(b"store ")?;
        self.type_of(type_of)?;
        self.word(b"[")?;
        self.expr(address)?;
        self.word(b"] = ")?;
        self.expr(value)
    }

    fn condition(&mut self, token: usize, condition: &Expr) -> Result<(), AllocError> {
        self.at(b"if", token)?;
        self.word(b" ")?;
        self.expr(condition)
    }

    #[cycle(statements)]
    fn statement(&mut self, statement: &Statement) -> Result<(), AllocError> {
        match statement {
            Statement::Goto { token, label } => {
                self.at(b"goto", *token)?;
                self.word(b" ")?;
                self.ident(label)
            }
            Statement::Return { token, results } => {
                self.at(b"return", *token)?;
                self.args(results.as_slice())
            }
            Statement::If {
                token,
                condition,
                body,
            } => {
                self.condition(*token, condition)?;
                self.block(body.as_slice())
            }
            Statement::IfElse {
                token,
                condition,
                body,
                otherwise,
            } => {
                self.condition(*token, condition)?;
                self.block(body.as_slice())?;
                self.word(b" else")?;
                self.block(otherwise.as_slice())
            }
            Statement::Out { token, value } => {
                self.at(b"out", *token)?;
                self.word(b" ")?;
                self.expr(value)
            }
            Statement::Store {
                type_of,
                address,
                value,
            } => self.store(*type_of, address, value),
            Statement::Call { name, args } => {
                self.word(b"call ")?;
                self.ident(name)?;
                self.args(args.as_slice())
            }
            Statement::Assign { targets, source } => {
                self.word(b"set ")?;
                self.names(targets.as_slice())?;
                self.word(b" = ")?;
                self.source(source)
            }
        }
    }

    #[cycle(statements)]
    fn block(&mut self, statements: &[Statement]) -> Result<(), AllocError> {
        self.word(b" {")?;
        for statement in statements {
            self.word(b" ")?;
            self.statement(statement)?;
            self.word(b";")?;
        }
        self.word(b" }")
    }

    fn declaration(&mut self, declaration: &Declaration) -> Result<(), AllocError> {
        self.word(b" var ")?;
        self.type_of(declaration.type_of)?;
        self.word(b" ")?;
        self.names(declaration.names.as_slice())?;
        self.word(b";")
    }

    fn body_item(&mut self, item: &BodyItem) -> Result<(), AllocError> {
        match item {
            BodyItem::Label { name } => {
                self.word(b" label ")?;
                self.ident(name)?;
            }
            BodyItem::Statement { statement } => {
                self.word(b" ")?;
                self.statement(statement)?;
            }
        }
        self.word(b";")
    }

    fn param(&mut self, param: &Param) -> Result<(), AllocError> {
        self.word(b" ")?;
        self.type_of(param.type_of)?;
        self.word(b" ")?;
        self.ident(&param.name)
    }

    fn procedure(&mut self, procedure: &Procedure) -> Result<(), AllocError> {
        self.word(b"procedure ")?;
        self.ident(&procedure.name)?;
        self.word(b" (")?;
        for param in procedure.params.as_slice() {
            self.param(param)?;
        }
        self.word(b" ) {")?;
        for declaration in procedure.variables.as_slice() {
            self.declaration(declaration)?;
        }
        for item in procedure.body.as_slice() {
            self.body_item(item)?;
        }
        self.word(b" }")
    }

    fn datum(&mut self, datum: &Datum) -> Result<(), AllocError> {
        match datum {
            Datum::Label { name } => {
                self.word(b" label ")?;
                self.ident(name)?;
            }
            Datum::Zeros { element, count } => {
                self.word(b" zeros ")?;
                self.type_of(*element)?;
                self.word(b" ")?;
                self.number(count)?;
            }
            Datum::Values { element, values } => {
                self.word(b" values ")?;
                self.type_of(*element)?;
                for literal in values.as_slice() {
                    self.word(b" ")?;
                    self.literal(literal)?;
                }
            }
        }
        self.word(b";")
    }

    fn part(&mut self, part: &Part) -> Result<(), AllocError> {
        match part {
            Part::Procedure { procedure } => self.procedure(procedure),
            Part::Section { token, name, data } => {
                self.at(b"section", *token)?;
                self.word(b" ")?;
                self.ident(name)?;
                self.word(b" {")?;
                for datum in data.as_slice() {
                    self.datum(datum)?;
                }
                self.word(b" }")
            }
        }
    }

    fn program(&mut self, program: &Program) -> Result<(), AllocError> {
        self.at(b"target", program.target.token)?;
        self.word(b" ")?;
        match program.target.order {
            ByteOrder::Little { token } => self.at(b"little", token)?,
            ByteOrder::Big { token } => self.at(b"big", token)?,
        }
        self.word(b" ")?;
        self.number(&program.target.word_size)?;
        self.word(b";")?;
        self.parts(program)
    }

    fn parts(&mut self, program: &Program) -> Result<(), AllocError> {
        for part in program.parts.as_slice() {
            self.word(b" ")?;
            self.part(part)?;
        }
        Ok(())
    }
}

/// The outline of a whole program.
pub(crate) fn outline_of(alloc: Global, program: &Program) -> Result<Vec<u8>, AllocError> {
    let mut outline = Outline {
        alloc,
        text: Vec::new(alloc),
    };
    outline.program(program)?;
    Ok(outline.text)
}

/// The outline of a program's parts, each after a blank.
pub(crate) fn outline_of_parts(alloc: Global, program: &Program) -> Result<Vec<u8>, AllocError> {
    let mut outline = Outline {
        alloc,
        text: Vec::new(alloc),
    };
    outline.parts(program)?;
    Ok(outline.text)
}
