//! The words that the program is given.
use std::alloc::{AllocError, Global};
use std::env::FillError;
use std::rt::Env;
use std::str;

/// The most bytes that the system gives a word, its end mark among them.
const LONGEST_WORD: usize = 131_072;

/// The word of the bytes, or an empty one where they are no text.
fn word(alloc: Global, bytes: &[u8]) -> Result<String, AllocError> {
    match str::from_utf8(bytes) {
        Ok(text) => String::from_str(alloc, text),
        Err(_) => Ok(String::new(alloc)),
    }
}

/// The words after the program's own name. One that is no text, or longer than the system gives, is passed as an empty
/// one, which no command has.
pub(crate) fn words<R: Env>(rt: &R, alloc: Global) -> Result<Vec<String>, AllocError> {
    let mut words = Vec::new(alloc);
    let mut buffer = vec![in alloc; 0u8; LONGEST_WORD]?;
    for place in 1..usize::MAX {
        match rt.arg(place, buffer.as_mut_slice()) {
            Ok(count) => words.push(word(alloc, &buffer[..count])?)?,
            Err(FillError::TooLong) => words.push(String::new(alloc))?,
            Err(FillError::NotPresent) => break,
        }
    }
    Ok(words)
}

#[cfg(test)]
mod tests;
