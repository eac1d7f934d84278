use crate::state::Order;
use qc_words::Width;
use sqlite_items::Items;

/// A program for a machine of this word and byte order: its code, and its data without trailing zero bytes.
#[derive(Debug, Drop)]
pub struct Image {
    pub word: Width,
    pub order: Order,
    pub code: Items<u8>,
    pub initial: Items<u8>,
}
