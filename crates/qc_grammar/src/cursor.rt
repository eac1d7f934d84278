//! A place in a text between two tokens, from which a reader goes on.
ghost use Rattle.std.specs.Prelude.{◌≡◌, ◌<◌, ◌≤◌, ◌+◌, List, [], ◌∷◌, length, map, OnOk, OnErr, OnSome};
ghost use Rattle.std.specs.Prelude.{slice_range, drop};
ghost use Rattle.qc_grammar.specs.Lexeme.{Lexeme, Word, Value, Any, lexemes_from, class_of, same_class};
ghost use Rattle.qc_grammar.specs.Lexeme.{kind_number, next_text, next_number};
ghost use Rattle.qc_grammar.specs.Reading.{next_in, read_word, read_value, read_ident, read_number, read_end};
ghost use Rattle.qc_grammar.specs.ReaderResult.{Gives};
ghost use Rattle.qc_grammar.specs.TokenSpans.{InSource};
ghost use Rattle.qc_grammar.specs.Brackets.{next_opens, next_closes};

use crate::classes::ClassedToken;
use qc_text::{Kind, number_value};
use sqlite_items::Items;
use std::alloc::{AllocError, Global};
use std::marker::Model;

/// Why a reader stopped.
#[derive(Clone, Copy, Debug, PartialEq, Eq)]
pub enum Stop {
    NoMemory,
    /// The next token can't go on. So many tokens are left, with this one.
    At(usize),
}

/// Why a text has no tree. A token is told by its number, from 0.
#[derive(Clone, Copy, Debug, PartialEq, Eq)]
pub enum ReadError {
    NoMemory,
    /// The first token with which no text of the grammar begins.
    Syntax { token: usize },
    /// The bracket with which more than 200 would be open.
    TooDeep { token: usize },
}

impl From<AllocError> for Stop {
    ghost use Rattle.std.specs.Prelude.{◌≡◌};
    ghost use Rattle.qc_grammar.specs.declared.cursor.Stop.TheVariants.{NoMemory};

    ghost from_gives = { λ _ e. e ≡ NoMemory };

    fn from(_: AllocError) -> Stop {
        Stop::NoMemory
    }
}

/// The tokens that are left of a text. Contracts see a list of lexemes.
#[derive(Drop)]
pub struct Cursor<'a> {
    source: &'a [u8],
    rest: &'a [ClassedToken],
    number: usize,
}

impl<'a> Model for Cursor<'a> {
    ghost use Rattle.std.specs.Prelude.{List, map, ◌+◌, ◌≤◌, length};
    ghost use Rattle.qc_grammar.specs.Lexeme.{Lexeme, lexemes_from};
    ghost use Rattle.qc_grammar.specs.TokenSpans.{InSource};
    ghost use Rattle.qc_grammar.specs.Brackets.{next_opens, next_closes};

    ghost Value = { List Lexeme };

    ghost view = { λ c. lexemes_from c.source.now c.number c.rest.now };

    ghost invariant = { λ c. InSource (length c.source.now) c.rest.now
        × (c.number + length c.rest.now ≤ 18446744073709551615) };
}

/// A token of this kind and spelling is this word of the grammar.
fn is_this_word(is_word: bool, kind: Kind, spelling: &[u8], word: &[u8]) -> bool
    ensures { result ≡ same_class (class_of is_word kind spelling.now) (Word word.now) }
{
    match kind {
        Kind::Name | Kind::Prim | Kind::Str | Kind::Punct => is_word && *spelling == *word,
        Kind::Number | Kind::End => false,
    }
}

/// A token of this kind and spelling is this number of the grammar.
fn is_this_value(is_word: bool, kind: Kind, spelling: &[u8], value: u64) -> bool
    ensures { result ≡ same_class (class_of is_word kind spelling.now) (Value value) }
{
    match kind {
        Kind::Number => is_word && number_value(spelling) == u128::from(value),
        Kind::Name | Kind::Prim | Kind::Str | Kind::Punct | Kind::End => false,
    }
}

/// The number of a kind among the kinds.
fn order_of(kind: Kind) -> u8
    ensures { result ≡ kind_number kind }
{
    match kind {
        Kind::Name => 0,
        Kind::Prim => 1,
        Kind::Number => 2,
        Kind::Str => 3,
        Kind::Punct => 4,
        Kind::End => 5,
    }
}

/// A token of this kind is one of the kind that is wanted, and no word of the grammar.
fn is_other(is_word: bool, kind: Kind, spelling: &[u8], wanted: Kind) -> bool
    ensures { result ≡ same_class (class_of is_word kind spelling.now) (Any wanted) }
{
    match kind {
        Kind::End => order_of(wanted) == 5,
        Kind::Name => order_of(wanted) == 0 && !is_word,
        Kind::Prim => order_of(wanted) == 1 && !is_word,
        Kind::Number => order_of(wanted) == 2 && !is_word,
        Kind::Str => order_of(wanted) == 3 && !is_word,
        Kind::Punct => order_of(wanted) == 4 && !is_word,
    }
}

/// A name in a tree, or another token whose text a tree keeps: the token's number, and its text.
#[derive(Debug, Drop)]
pub struct Ident {
    pub token: usize,
    pub text: Items<u8>,
}

/// A number of a text: its token's number, and its value, where all numbers of 2^64 and more are told as 2^64, which is
/// above every limit.
#[derive(Clone, Copy, Debug, PartialEq, Eq)]
pub struct Number {
    pub token: usize,
    pub value: u128,
}

impl<'a> Cursor<'a> {
    /// At the first token.
    pub fn new(source: &'a [u8], tokens: &'a [ClassedToken]) -> Cursor<'a>
        requires { InSource (length source.now) tokens.now }
        ensures { result ≡ lexemes_from source.now 0 tokens.now }
    {
        Cursor {
            source,
            rest: tokens,
            number: 0,
        }
    }

    /// How many tokens are left.
    pub fn left(&self) -> usize
        ensures { result ≡ length self.now }
    {
        self.rest.len()
    }

    /// The next token is this word of the grammar.
    pub fn is_word(&self, word: &[u8]) -> bool
        ensures { result ≡ next_in (Word word.now ∷ []) self.now }
    {
        match self.rest.split_first() {
            None => false,
            Some((classed, _)) => is_this_word(
                classed.is_word,
                classed.token.kind,
                &self.source[classed.token.start..classed.token.end],
                word,
            ),
        }
    }

    /// The next token is this number of the grammar.
    pub fn is_value(&self, value: u64) -> bool
        ensures { result ≡ next_in (Value value ∷ []) self.now }
    {
        match self.rest.split_first() {
            None => false,
            Some((classed, _)) => is_this_value(
                classed.is_word,
                classed.token.kind,
                &self.source[classed.token.start..classed.token.end],
                value,
            ),
        }
    }

    /// The next token is one of this kind, and no word of the grammar.
    pub fn is_any(&self, kind: Kind) -> bool
        ensures { result ≡ next_in (Any kind ∷ []) self.now }
    {
        match self.rest.split_first() {
            None => false,
            Some((classed, _)) => is_other(
                classed.is_word,
                classed.token.kind,
                &self.source[classed.token.start..classed.token.end],
                kind,
            ),
        }
    }

    /// The next token opens a bracket.
    pub(crate) fn opens(&self) -> bool
        ensures { result ≡ next_opens self.now }
    {
        self.is_word(b"(") || self.is_word(b"[") || self.is_word(b"{")
    }

    /// The next token closes a bracket.
    pub(crate) fn closes(&self) -> bool
        ensures { result ≡ next_closes self.now }
    {
        self.is_word(b")") || self.is_word(b"]") || self.is_word(b"}")
    }

    /// Stops at the next token.
    pub fn stop(&self) -> Stop
        ensures { result ≡ Stop.At (length self.now) }
    {
        Stop::At(self.rest.len())
    }

    /// The text of the next token, or none where no token is left.
    fn spelling(&self) -> &'a [u8]
        ensures { result.now ≡ next_text self.now }
    {
        match self.rest.split_first() {
            None => &[],
            Some((classed, _)) => &self.source[classed.token.start..classed.token.end],
        }
    }

    /// Goes over the next token, and gives its number.
    pub(crate) fn take(&mut self) -> usize
        requires { 0 < length self.old }
        ensures rest { self.new ≡ drop 1 self.old }
        ensures number { result ≡ next_number self.old }
    {
        let number = self.number;
        self.rest = &self.rest[1..];
        self.number += 1;
        number
    }

    /// Takes this word of the grammar, and gives the token's number.
    pub fn word(&mut self, word: &[u8]) -> Result<usize, Stop>
        ensures gives { Gives result self.old self.new (read_word word.now) }
        ensures shorter { OnOk result (length self.new < length self.old) }
        ensures kept { OnErr result (self.new ≡ self.old) }
    {
        if self.is_word(word) {
            Ok(self.take())
        } else {
            Err(self.stop())
        }
    }

    /// Takes this number of the grammar, and gives the token's number.
    pub fn value(&mut self, value: u64) -> Result<usize, Stop>
        ensures gives { Gives result self.old self.new (read_value value) }
        ensures shorter { OnOk result (length self.new < length self.old) }
        ensures kept { OnErr result (self.new ≡ self.old) }
    {
        if self.is_value(value) {
            Ok(self.take())
        } else {
            Err(self.stop())
        }
    }

    /// Takes the end of the text, and gives the token's number.
    pub fn end(&mut self) -> Result<usize, Stop>
        ensures gives { Gives result self.old self.new read_end }
        ensures shorter { OnOk result (length self.new < length self.old) }
        ensures kept { OnErr result (self.new ≡ self.old) }
    {
        if self.is_any(Kind::End) {
            Ok(self.take())
        } else {
            Err(self.stop())
        }
    }

    /// Takes a token of this kind, and gives a copy of its text.
    pub fn ident(&mut self, alloc: Global, kind: Kind) -> Result<Ident, Stop>
        ensures gives { Gives result self.old self.new (read_ident kind) }
        ensures shorter { OnOk result (length self.new < length self.old) }
        ensures kept { OnErr result (self.new ≡ self.old) }
    {
        if self.is_any(kind) {
            match Items::from_slice(alloc, self.spelling()) {
                Ok(text) => Ok(Ident {
                    token: self.take(),
                    text,
                }),
                Err(_) => Err(Stop::NoMemory),
            }
        } else {
            Err(self.stop())
        }
    }

    /// Takes a number, and gives its value with the token's number.
    pub fn number(&mut self) -> Result<Number, Stop>
        ensures gives { Gives result self.old self.new read_number }
        ensures shorter { OnOk result (length self.new < length self.old) }
        ensures kept { OnErr result (self.new ≡ self.old) }
    {
        if self.is_any(Kind::Number) {
            let value = number_value(self.spelling());
            Ok(Number {
                token: self.take(),
                value,
            })
        } else {
            Err(self.stop())
        }
    }
}
