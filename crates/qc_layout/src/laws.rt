//! Facts about the definitions. A caller of one of these functions has its `ensures`; no code runs.
ghost use Rattle.std.specs.Prelude.{◌≡◌, ◌<◌, ℕ, List, All};
ghost use Rattle.qc_descr.specs.declared.description.Description.{Description};
ghost use Rattle.qc_descr.specs.Loading.{FitsMachine};
ghost use Rattle.qc_descr.specs.Valid.{IsValid};
ghost use Rattle.qc_terms.specs.declared.image.Image.{Image};
ghost use Rattle.qc_layout.specs.ImageFaults.{IsBadImage, IsFaultyPlace};
ghost use Rattle.qc_layout.specs.ImageFile.{HasFile, image_bytes};

/// A file has the bytes of at most one image.
pub fn one_image()
    ensures { (a b : Image) → HasFile a → HasFile b → image_bytes a ≡ image_bytes b → a ≡ b }
{}

/// An image that fits the machine of a valid description has a file.
pub fn fitting_images_have_files()
    ensures { (d : Description) (image : Image) → IsValid d → FitsMachine d image → HasFile image }
{}

/// The file of an image that fits a machine has no faulty place for it.
pub fn image_files_are_read()
    ensures { (d : Description) (image : Image) (at : ℕ) → HasFile image → FitsMachine d image →
        IsFaultyPlace d (image_bytes image) at → ⊥ }
{}

/// A file of bytes that has no faulty place for a machine is that of an image that fits it.
pub fn faultless_files_are_images()
    ensures { (d : Description) (bytes : List ℕ) → All (λ byte. byte < 256) bytes →
        ((at : ℕ) → IsFaultyPlace d bytes at → ⊥) →
        (image : Image) × FitsMachine d image × (bytes ≡ image_bytes image) }
{}

/// A file is bad at one place at most.
pub fn one_bad_image()
    ensures { (d : Description) (bytes : List ℕ) (a b : ℕ) → IsBadImage d bytes a → IsBadImage d bytes b → a ≡ b }
{}
