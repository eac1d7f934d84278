//! The files of images: how an image is written, and which files are read.
#![tactic(auto)]

mod image_file;
mod laws;
mod reading;

pub use image_file::write_image;
pub use laws::{
    faultless_files_are_images, fitting_images_have_files, image_files_are_read, one_bad_image,
    one_image,
};
pub use reading::{ImageEnd, read_image};
