//! Facts about all files and their tokens. A caller of one of these functions has its `ensures`; no code runs.
ghost use Rattle.std.specs.Prelude.{◌≡◌, ◌≤◌, ◌<◌, ◌+◌, ◌++◌, ◌∷◌, ◌≢◌, [], ℕ, List, Some, All, length, slice_get};
ghost use Rattle.qc_text.specs.declared.token.Kind.{Kind};
ghost use Rattle.qc_text.specs.declared.token.Kind.TheVariants.{End};
ghost use Rattle.qc_text.specs.declared.token.Token.{Token};
ghost use Rattle.qc_text.specs.Tokens.{IsTokenText, token_text};
ghost use Rattle.qc_text.specs.Pieces.{AreTokens, IsBadByte, token_at};
ghost use Rattle.qc_text.specs.PrintedWords.{spaced, AreWords, texts_of, words_in};

/// Tokens lie inside their file. They are in order, and no two share a byte.
pub fn spans_in_order()
    ensures inside { (bytes : List ℕ) (tokens : List Token) (i : ℕ) (token : Token) → AreTokens bytes tokens
        → slice_get tokens i ≡ Some token → (token.start ≤ token.end) × (token.end ≤ length bytes) }
    ensures order { (bytes : List ℕ) (tokens : List Token) (i j : ℕ) (a b : Token) → AreTokens bytes tokens → i < j
        → slice_get tokens i ≡ Some a → slice_get tokens j ≡ Some b → a.end ≤ b.start }
{}

/// The bytes that a token takes are a text of its kind.
pub fn texts_of_their_kinds()
    ensures { (bytes : List ℕ) (tokens : List Token) (i : ℕ) (token : Token) → AreTokens bytes tokens
        → slice_get tokens i ≡ Some token → IsTokenText token.kind (token_text bytes token) }
{}

/// The last token and no other is the end of the file.
pub fn one_end()
    ensures { (bytes : List ℕ) (tokens : List Token) → AreTokens bytes tokens
        → (front : List Token) × (tokens ≡ front ++ token_at (length bytes) (Some End) (length bytes))
        × All (λ token. token.kind ≢ End) front }
{}

/// A file has at most one list of tokens.
pub fn one_token_list()
    ensures { (bytes : List ℕ) (tokens others : List Token) → AreTokens bytes tokens → AreTokens bytes others
        → tokens ≡ others }
{}

/// A file has at most one bad byte, and none if it has a list of tokens.
pub fn one_bad_byte()
    ensures one { (bytes : List ℕ) (at place : ℕ) → IsBadByte bytes at → IsBadByte bytes place → at ≡ place }
    ensures none { (bytes : List ℕ) (tokens : List Token) (at : ℕ) → AreTokens bytes tokens → IsBadByte bytes at → ⊥ }
{}

/// Texts of tokens with a blank after each are a file whose tokens have these kinds and these texts.
pub fn words_are_tokens()
    ensures { (words : List (Kind × List ℕ)) → AreWords words → (tokens : List Token)
        × AreTokens (spaced (texts_of words)) tokens
        × (words_in (spaced (texts_of words)) tokens ≡ words ++ (End, []) ∷ []) }
{}
