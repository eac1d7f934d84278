//! Which tokens of a text are words of a grammar.
ghost use Rattle.std.specs.Prelude.{◌≡◌, ◌≤◌, length, map, slice_get, IfOk, List, ℕ, Some};
ghost use Rattle.std.specs.List.{list_any};
ghost use Rattle.std.specs.Str.{bytes_eq};
ghost use Rattle.qc_text.specs.declared.token.Kind.{Kind};
ghost use Rattle.qc_text.specs.declared.token.Token.{Token};
ghost use Rattle.qc_text.specs.PrintedWords.{words_in};
ghost use Rattle.qc_grammar.specs.Lexeme.{Vocabulary as Words, classed as classed_by, reserving};

use qc_text::{Kind, Token, text_of};
use std::alloc::{AllocError, Global};

/// A token of a text, and whether it is a word or a number of the grammar.
#[derive(Clone, Copy, Debug, PartialEq, Eq)]
pub struct ClassedToken {
    /// The token.
    pub token: Token,
    /// It is a word or a number of the grammar, and no other token of its kind.
    pub is_word: bool,
}

/// Which tokens are words or numbers of a grammar.
pub trait Vocabulary {
    /// It hangs on the tokens before a token, and on its own kind and text.
    ghost vocabulary: { Words };

    /// The token of this kind and this text, behind these tokens of a source, is a word or a number of the grammar.
    fn is_word(source: &[u8], before: &[Token], kind: Kind, text: &[u8]) -> bool
        ensures { result ≡ vocabulary (words_in source.now before.now) kind text.now };
}

fn is_one_of(names: &[&[u8]], text: &[u8]) -> bool
    ensures { result ≡ list_any (λ word. bytes_eq word text.now) (map (λ x. x.now) names.now) }
{
    names.contains(&text)
}

/// Punctuation and each of these names are words of a grammar.
pub fn is_reserved(names: &[&[u8]], kind: Kind, text: &[u8]) -> bool
    ensures { (before : List (Kind × List ℕ)) → result ≡ reserving (map (λ x. x.now) names.now) before kind text.now }
{
    match kind {
        Kind::Name => is_one_of(names, text),
        Kind::Punct => true,
        Kind::Prim | Kind::Number | Kind::Str | Kind::End => false,
    }
}

/// The tokens of a source, each with whether it is a word or a number of the grammar.
pub(crate) fn classify<V: Vocabulary>(
    alloc: Global,
    source: &[u8],
    tokens: &[Token],
) -> Result<Vec<ClassedToken>, AllocError>
    requires { (i : ℕ) (token : Token) → slice_get tokens.now i ≡ Some token
        → (token.start ≤ token.end) × (token.end ≤ length source.now) }
    ensures { IfOk result (λ found. found.items ≡ classed_by V.vocabulary source.now tokens.now) }
{
    let mut found = Vec::new(alloc);
    let mut at = 0;
    while at < tokens.len() {
        let token = tokens[at];
        let text = text_of(source, &token);
        let is_word = V::is_word(source, &tokens[..at], token.kind, text);
        found.push(ClassedToken { token, is_word })?;
        at += 1;
    }
    Ok(found)
}
