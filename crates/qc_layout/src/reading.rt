//! Images from files.
ghost use Rattle.std.specs.Prelude.{◌≡◌, ◌≢◌, ◌+◌, ◌<◌, ◌≤◌, ℕ, length, slice_index};
ghost use Rattle.std.specs.Prelude.{IfErr, IfNone, IfOk, IfSome};
ghost use Rattle.qc_descr.specs.Loading.{FitsMachine};
ghost use Rattle.qc_terms.specs.declared.image.Image.{Image};
ghost use Rattle.qc_layout.specs.ImageFaults.{IsBadImage, IsFaultyPlace, IsImageRefused, IsReadAs, data_room, mark_for};
ghost use Rattle.qc_layout.specs.ImageFaults.{number_at as number_of};
ghost use Rattle.qc_layout.specs.ImageFile.{HasFile, image_bytes};

use crate::image_file::order_byte;
use qc_descr::Description;
use qc_terms::Image;
use qc_text::NoMemory;
use sqlite_items::Items;
use std::alloc::Global;

/// Why a file has no image for a machine.
#[derive(Clone, Copy, Debug, PartialEq, Eq)]
pub enum ImageEnd {
    /// The file departs from those of the images for the machine, first at `at`.
    BadImage {
        /// The number of bytes before it.
        at: usize,
    },
    /// Memory ran out.
    NoMemory,
}

const DATA_LIMIT: u64 = 3_000_000;

/// The number in four bytes from a place on, the lowest first.
#[tactic(auto, unfolding(crate::specs::ImageFaults::number_at))]
fn number_at(bytes: &[u8], place: usize) -> u32
    requires { place + 4 ≤ length bytes.now }
    ensures { result ≡ number_of place bytes.now }
{
    u32::from_le_bytes([
        bytes[place],
        bytes[place + 1],
        bytes[place + 2],
        bytes[place + 3],
    ])
}

/// The most bytes of data that an image for a machine may have.
#[tactic(auto, unfolding(qc_descr::specs::Loading::data_limit))]
fn room(descr: &Description) -> u64
    ensures { result ≡ data_room descr.now }
{
    descr
        .data_end
        .saturating_sub(descr.code_end)
        .min(DATA_LIMIT)
}

/// The mark with which the files for a machine begin.
fn mark(descr: &Description) -> [u8; 8]
    ensures { result ≡ mark_for descr.now }
{
    let word = descr.facts.word.bits();
    let order = order_byte(descr.facts.order);
    [b'Q', b'C', b'I', b'1', word, order, 0, 0]
}

/// The first place at which both texts have a byte, and not the same.
fn first_difference(bytes: &[u8], others: &[u8]) -> Option<usize>
    ensures some { IfSome result (λ at. (at < length bytes.now) × (at < length others.now)
        × (slice_index bytes.now at ≢ slice_index others.now at)
        × ((k : ℕ) → k < at → slice_index bytes.now k ≡ slice_index others.now k)) }
    ensures none { IfNone result ((k : ℕ) → k < length bytes.now → k < length others.now →
        slice_index bytes.now k ≡ slice_index others.now k) }
{
    for at in 0..bytes.len().min(others.len()) {
        if bytes[at] != others[at] {
            return Some(at);
        }
    }
    None
}

/// The first faulty place of a file, if there is one.
fn first_fault(descr: &Description, bytes: &[u8]) -> Option<usize>
    ensures some { IfSome result (IsBadImage descr.now bytes.now) }
    ensures none { IfNone result ((at : ℕ) → IsFaultyPlace descr.now bytes.now at → ⊥) }
{
    let size = bytes.len();
    if let Some(at) = first_difference(bytes, &mark(descr)) {
        return Some(at);
    }
    if size < 12 {
        return Some(size);
    }
    let code = number_at(bytes, 8);
    if u64::from(code) > descr.code_end {
        return Some(8);
    }
    if size < 16 {
        return Some(size);
    }
    let initial = number_at(bytes, 12);
    if u64::from(initial) > room(descr) {
        return Some(12);
    }
    let wanted = 16 + (code as usize + initial as usize);
    if size < wanted {
        return Some(size);
    }
    if initial > 0 && bytes[wanted - 1] == 0 {
        return Some(wanted - 1);
    }
    if size > wanted {
        return Some(wanted);
    }
    None
}

/// The image whose parts a file has.
fn image_in(alloc: Global, descr: &Description, bytes: &[u8]) -> Result<Image, NoMemory>
    requires { (at : ℕ) → IsFaultyPlace descr.now bytes.now at → ⊥ }
    ensures image { IfOk result (λ image. bytes.now ≡ image_bytes image) }
    ensures fits { IfOk result (FitsMachine descr.now) }
    ensures lengths { IfOk result HasFile }
{
    let size = number_at(bytes, 8) as usize;
    let parts = bytes.split_at(16).1;
    let (code, initial) = parts.split_at(size);
    Ok(Image {
        word: descr.facts.word,
        order: descr.facts.order,
        code: Items::from_slice(alloc, code)?,
        initial: Items::from_slice(alloc, initial)?,
    })
}

/// The image for a machine whose file these bytes are.
///
/// # Errors
///
/// The first place at which they depart from each such file, or want of memory.
pub fn read_image(alloc: Global, bytes: &[u8], descr: &Description) -> Result<Image, ImageEnd>
    ensures image { IfOk result (λ image. bytes.now ≡ image_bytes image) }
    ensures fits { IfOk result (FitsMachine descr.now) }
    ensures bad { IfErr result (IsImageRefused descr.now bytes.now) }
    // what is written of an image is read again as this image
    ensures again { (image : Image) → HasFile image → FitsMachine descr.now image → bytes.now ≡ image_bytes image → IsReadAs image result }
{
    if let Some(at) = first_fault(descr, bytes) {
        return Err(ImageEnd::BadImage { at });
    }
    match image_in(alloc, descr, bytes) {
        Ok(image) => Ok(image),
        Err(_) => Err(ImageEnd::NoMemory),
    }
}
