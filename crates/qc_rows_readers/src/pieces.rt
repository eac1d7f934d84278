//! Texts that are put together of pieces.
use std::alloc::{AllocError, Global};

/// These bytes, one after another.
pub(crate) fn joined(
    alloc: Global,
    before: &[u8],
    middle: &[u8],
    after: &[u8],
) -> Result<Vec<u8>, AllocError> {
    let mut text = Vec::from_slice(alloc, before)?;
    text.extend_from_slice(middle)?;
    text.extend_from_slice(after)?;
    Ok(text)
}

/// Puts a text as often as that.
pub(crate) fn put_times(out: &mut Vec<u8>, text: &[u8], times: usize) -> Result<(), AllocError> {
    for _ in 0..times {
        out.extend_from_slice(text)?;
    }
    Ok(())
}
