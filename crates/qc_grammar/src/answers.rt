//! The answers of the readers of whole files.
ghost use Rattle.std.specs.Prelude.{◌≡◌, MatchResult};
ghost use Rattle.qc_grammar.specs.Inner.FileTokens.{AreFileTokens};
ghost use Rattle.qc_grammar.specs.TextAnswer.{IsScanned, IsScanCause, file_answer};

use crate::classes::{ClassedToken, Vocabulary, classify};
use crate::cursor::ReadError;
use qc_text::{TextEnd, Token, one_bad_byte, one_end, one_token_list, spans_in_order, tokens};
use std::alloc::Global;

/// Why a file is no text of a grammar. A token is given by its number, from 0.
#[derive(Clone, Copy, Debug, PartialEq, Eq)]
pub enum ReadTextFault {
    /// The byte at `at` begins no token, comment or blank, and all before it are whole ones.
    BadByte {
        /// The number of bytes before it.
        at: usize,
    },
    /// The first token with which no text of the grammar begins.
    Syntax {
        token: usize,
    },
    /// The bracket with which more than 200 would be open.
    TooDeep {
        token: usize,
    },
}

/// Why a reader has no tree of a file.
#[derive(Clone, Copy, Debug, PartialEq, Eq)]
pub enum ReadTextEnd {
    /// The file is no text of the grammar.
    Fault { fault: ReadTextFault },
    /// Memory ran out.
    NoMemory,
}

/// The tokens of a file, in order, and then its end.
fn file_tokens(alloc: Global, bytes: &[u8]) -> Result<Vec<Token>, ReadTextEnd>
    ensures { MatchResult result (λ found. AreFileTokens bytes.now found.items) (IsScanCause bytes.now) }
{
    spans_in_order();
    one_end();
    one_token_list();
    one_bad_byte();
    match tokens(alloc, bytes) {
        Ok(found) => Ok(found),
        Err(TextEnd::BadByte { at }) => Err(ReadTextEnd::Fault {
            fault: ReadTextFault::BadByte { at },
        }),
        Err(TextEnd::NoMemory) => Err(ReadTextEnd::NoMemory),
    }
}

/// The tokens of a file, in order, and then its end, each with whether it is a word of the grammar.
pub fn scan<V: Vocabulary>(alloc: Global, bytes: &[u8]) -> Result<Vec<ClassedToken>, ReadTextEnd>
    ensures { MatchResult result (λ found. IsScanned V.vocabulary bytes.now found.items) (IsScanCause bytes.now) }
{
    match file_tokens(alloc, bytes) {
        Ok(found) => match classify::<V>(alloc, bytes, found.as_slice()) {
            Ok(classed) => Ok(classed),
            Err(_) => Err(ReadTextEnd::NoMemory),
        },
        Err(end) => Err(end),
    }
}

/// The answer to a file, by the answer to its tokens.
pub fn answer<T: Drop>(read: Result<T, ReadError>) -> Result<T, ReadTextEnd>
    ensures { result ≡ file_answer read }
{
    match read {
        Ok(tree) => Ok(tree),
        Err(ReadError::Syntax { token }) => Err(ReadTextEnd::Fault {
            fault: ReadTextFault::Syntax { token },
        }),
        Err(ReadError::TooDeep { token }) => Err(ReadTextEnd::Fault {
            fault: ReadTextFault::TooDeep { token },
        }),
        Err(ReadError::NoMemory) => Err(ReadTextEnd::NoMemory),
    }
}
