//! Outlines of trees: each part with the number of each token that the tree keeps behind it.
use qc_grammar::{Ident, Number};
use qc_lrtl::Expr;
use qc_tabletext::{RawBinding, RawDerivation, RawStep, RawTables, StepPlace, TileEntry, Version};
use std::alloc::{AllocError, Global};

/// An outline that is put together.
#[derive(Drop)]
struct Outline {
    alloc: Global,
    text: Vec<u8>,
}

impl Outline {
    fn word(&mut self, word: &[u8]) -> Result<(), AllocError> {
        self.text.extend_from_slice(word)
    }

    fn at(&mut self, word: &[u8], token: usize) -> Result<(), AllocError> {
        let place = format!(in self.alloc; "@{}", token)?;
        self.text.extend_from_slice(word)?;
        self.text.extend_from_slice(place.as_bytes())
    }

    fn ident(&mut self, ident: &Ident) -> Result<(), AllocError> {
        self.at(ident.text.as_slice(), ident.token)
    }

    fn number(&mut self, number: &Number) -> Result<(), AllocError> {
        let digits = format!(in self.alloc; "{}", number.value)?;
        self.at(digits.as_bytes(), number.token)
    }

    /// A word, and a number after it.
    fn sized(&mut self, word: &[u8], token: usize, bits: &Number) -> Result<(), AllocError> {
        self.at(word, token)?;
        self.word(b" ")?;
        self.number(bits)
    }

    #[cycle(expressions)]
    fn expr(&mut self, expr: &Expr) -> Result<(), AllocError> {
        match expr {
            Expr::Literal { value, bits } => {
                self.number(value)?;
                self.word(b"'")?;
                self.number(bits)
            }
            Expr::Input { token } => self.at(b"input", *token),
            Expr::After { token } => self.at(b"after", *token),
            Expr::Mem {
                token,
                bits,
                address,
            } => {
                self.sized(b"mem", *token, bits)?;
                self.word(b"[")?;
                self.expr(address.get())?;
                self.word(b"]")
            }
            Expr::Zx { token, bits, arg } => {
                self.sized(b"zx", *token, bits)?;
                self.word(b"(")?;
                self.expr(arg.get())?;
                self.word(b")")
            }
            Expr::Sx { token, bits, arg } => {
                self.sized(b"sx", *token, bits)?;
                self.word(b"(")?;
                self.expr(arg.get())?;
                self.word(b")")
            }
            Expr::Slice {
                token,
                low,
                bits,
                arg,
            } => {
                self.sized(b"slice", *token, low)?;
                self.word(b" ")?;
                self.number(bits)?;
                self.word(b"(")?;
                self.expr(arg.get())?;
                self.word(b")")
            }
            Expr::Name { name } => self.ident(name),
            Expr::Call { name, args } => {
                self.ident(name)?;
                self.args(args.as_slice())
            }
            Expr::Cell { space, cell } => {
                self.ident(space)?;
                self.word(b"[")?;
                self.number(cell)?;
                self.word(b"]")
            }
        }
    }

    #[cycle(expressions)]
    fn args(&mut self, args: &[Expr]) -> Result<(), AllocError> {
        self.word(b"(")?;
        for place in 0..args.len() {
            if place > 0 {
                self.word(b", ")?;
            }
            self.expr(&args[place])?;
        }
        self.word(b")")
    }

    fn path(&mut self, path: &[Number]) -> Result<(), AllocError> {
        for place in 0..path.len() {
            if place > 0 {
                self.word(b".")?;
            }
            self.number(&path[place])?;
        }
        Ok(())
    }

    fn step(&mut self, step: &RawStep) -> Result<(), AllocError> {
        self.ident(&step.law)?;
        self.word(b" ")?;
        match &step.place {
            StepPlace::Whole { token } => self.at(b"e", *token),
            StepPlace::Part { path } => self.path(path.as_slice()),
        }
    }

    fn steps(&mut self, steps: &[RawStep]) -> Result<(), AllocError> {
        self.word(b"[")?;
        for place in 0..steps.len() {
            if place > 0 {
                self.word(b", ")?;
            }
            self.step(&steps[place])?;
        }
        self.word(b"]")
    }

    #[cycle(derivations)]
    fn binding(&mut self, binding: &RawBinding) -> Result<(), AllocError> {
        match binding {
            RawBinding::Own { token } => self.at(b"own", *token),
            RawBinding::Parameter { token, number } => self.sized(b"par", *token, number),
            RawBinding::Cell { token, space, cell } => {
                self.at(b"cell", *token)?;
                self.word(b" ")?;
                self.ident(space)?;
                self.word(b" ")?;
                self.number(cell)
            }
            RawBinding::Constant { token, value } => {
                self.at(b"const", *token)?;
                self.word(b" ")?;
                self.expr(value)
            }
            RawBinding::Spare { token } => self.at(b"spare", *token),
            RawBinding::Child { node } => self.derivation(node.get()),
        }
    }

    #[cycle(derivations)]
    fn bindings(&mut self, bindings: &[RawBinding]) -> Result<(), AllocError> {
        for place in 0..bindings.len() {
            if place > 0 {
                self.word(b", ")?;
            }
            self.binding(&bindings[place])?;
        }
        Ok(())
    }

    #[cycle(derivations)]
    fn derivation(&mut self, derivation: &RawDerivation) -> Result<(), AllocError> {
        self.ident(&derivation.instruction)?;
        self.steps(derivation.steps.as_slice())?;
        self.word(b"(")?;
        self.bindings(derivation.bindings.as_slice())?;
        self.word(b")")?;
        match &derivation.after {
            None => Ok(()),
            Some(flag) => {
                self.word(b" after ")?;
                self.derivation(flag.get())
            }
        }
    }

    fn entry(&mut self, entry: &TileEntry) -> Result<(), AllocError> {
        match entry {
            TileEntry::Found {
                token,
                tile,
                derivation,
            } => {
                self.at(b"; tile", *token)?;
                self.word(b" ")?;
                self.ident(tile)?;
                self.word(b" = ")?;
                self.derivation(derivation)
            }
            TileEntry::Missing { token, tile } => {
                self.at(b"; tile", *token)?;
                self.word(b" ")?;
                self.ident(tile)?;
                self.word(b" missing")
            }
        }
    }

    fn version(&mut self, version: &Version) -> Result<(), AllocError> {
        match version {
            Version::First { token } => self.at(b" version 1", *token),
            Version::Second {
                token,
                height,
                laws,
            } => {
                self.at(b" version 2", *token)?;
                self.word(b" height ")?;
                self.number(height)?;
                self.word(b" laws ")?;
                self.number(laws)
            }
        }
    }

    fn tables(&mut self, raw: &RawTables) -> Result<(), AllocError> {
        self.ident(&raw.machine)?;
        self.version(&raw.version)?;
        for entry in raw.entries.as_slice() {
            self.entry(entry)?;
        }
        Ok(())
    }
}

/// The outline of a whole text.
pub(crate) fn outline_of(alloc: Global, raw: &RawTables) -> Result<Vec<u8>, AllocError> {
    let mut outline = Outline {
        alloc,
        text: Vec::new(alloc),
    };
    outline.tables(raw)?;
    Ok(outline.text)
}
