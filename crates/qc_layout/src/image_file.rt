//! Images as files.
ghost use Rattle.std.specs.Prelude.{◌≡◌, IfOk};
ghost use Rattle.qc_layout.specs.ImageFile.{IsWritable, image_bytes, order_byte as byte_of_order};

use qc_terms::{Image, Order};
use qc_text::NoMemory;
use std::alloc::Global;

pub(crate) fn order_byte(order: Order) -> u8
    ensures { result ≡ byte_of_order order }
{
    match order {
        Order::Little => 0,
        Order::Big => 1,
    }
}

/// The bytes of an image's file, whose layout `image_bytes` gives.
#[tactic(auto, unfolding(crate::specs::ImageFile::image_bytes, qc_descr::specs::Loading::data_limit))]
pub fn write_image(alloc: Global, image: &Image) -> Result<Vec<u8>, NoMemory>
    requires { IsWritable image.now }
    ensures { IfOk result (λ bytes. bytes.items ≡ image_bytes image.now) }
{
    let mut bytes = Vec::new(alloc);
    bytes.extend_from_slice(b"QCI1")?;
    bytes.extend_from_slice(&[image.word.bits(), order_byte(image.order), 0, 0])?;
    bytes.extend_from_slice(&(image.code.len() as u32).to_le_bytes())?;
    bytes.extend_from_slice(&(image.initial.len() as u32).to_le_bytes())?;
    bytes.extend_from_slice(image.code.as_slice())?;
    bytes.extend_from_slice(image.initial.as_slice())?;
    Ok(bytes)
}
