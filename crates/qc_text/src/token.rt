//! Tokens and their places in a file.
ghost use Rattle.std.specs.Prelude.{◌≡◌, ◌≤◌, length};
ghost use Rattle.qc_text.specs.Tokens.{token_text};

/// What a token is.
#[derive(Clone, Copy, Debug, PartialEq, Eq)]
pub enum Kind {
    /// A letter or an underscore, and then letters, digits and underscores.
    Name,
    /// A percent sign, directly followed by a name.
    Prim,
    /// Decimal digits, or `0x` and hexadecimal digits.
    Number,
    /// Printable characters between two double quotes.
    Str,
    /// One or two characters of punctuation.
    Punct,
    /// The end of the file, which takes no byte.
    End,
}

/// A token of a file. It takes the bytes from `start` on, up to the one before `end`.
#[derive(Clone, Copy, Debug, PartialEq, Eq)]
pub struct Token {
    /// What it is.
    pub kind: Kind,
    /// The number of bytes before it.
    pub start: usize,
    /// The number of bytes before what follows it.
    pub end: usize,
}

/// The bytes that a token takes in its file.
pub fn text_of<'a>(bytes: &'a [u8], token: &Token) -> &'a [u8]
    requires order { token.now.start ≤ token.now.end }
    requires inside { token.now.end ≤ length bytes.now }
    ensures { result.now ≡ token_text bytes.now token.now }
{
    &bytes[token.start..token.end]
}
