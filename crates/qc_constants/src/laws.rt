//! Facts about the definitions. A caller of one of these functions has its `ensures`; no code runs.
ghost use Rattle.std.specs.Prelude.{◌≡◌, ℕ, List};
ghost use Rattle.qc_descr.specs.Encoding.{DecodesInto, InstanceOf};
ghost use Rattle.qc_descr.specs.Loading.{FitsMachine, loaded_state};
ghost use Rattle.qc_descr.specs.Step.{Progress, RunsTo, observation_of};
ghost use Rattle.qc_descr.specs.Valid.{IsValid};
ghost use Rattle.qc_descr.specs.declared.description.Description.{Description};
ghost use Rattle.qc_constants.specs.Agreement.{Agrees};
ghost use Rattle.qc_constants.specs.Code.{image_of};
ghost use Rattle.qc_constants.specs.ConstantProgram.{IsConstantProgram, IsTextOf};
ghost use Rattle.qc_constants.specs.Constants.{HasConstants};
ghost use Rattle.qc_constants.specs.ExampleOfSeven.{seven, seven_image, seven_shows, seven_text};
ghost use Rattle.qc_layout.specs.ImageFile.{image_bytes};
ghost use Rattle.qc_constants.specs.declared.program.ConstantProgram.{ConstantProgram};

use qc_descr::one_instance;

/// A text spells at most one program.
pub fn one_program()
    ensures { (bytes : List ℕ) (p q : ConstantProgram) → IsTextOf bytes p → IsTextOf bytes q → p ≡ q }
{}

/// In a valid description a code at an address decodes into at most one list of instances.
pub fn one_decoding()
    ensures { (d : Description) (at : ℕ) (code : List ℕ) (xs ys : List InstanceOf) →
        IsValid d → DecodesInto d at code xs → DecodesInto d at code ys → xs ≡ ys }
{
    one_instance();
}

/// On a valid machine with the three instructions the image of a program fits, and shows on every input what the program
/// shows.
pub fn images_agree()
    ensures fits { (d : Description) (p : ConstantProgram) → IsValid d → HasConstants d → IsConstantProgram p →
        FitsMachine d (image_of d p) }
    ensures agrees { (d : Description) (p : ConstantProgram) → IsValid d → HasConstants d → IsConstantProgram p →
        Agrees d p (image_of d p) }
{
    one_instance();
}

/// The definitions give the text and the image of the program that puts out 7 and returns 0 as they are by hand.
pub fn example_of_seven()
    ensures text { IsTextOf seven_text seven }
    ensures image { (d : Description) → HasConstants d → image_bytes (image_of d seven) ≡ seven_image }
{}

/// On every input a machine that runs the image of that program shows, after each number of steps, what it should by
/// hand.
pub fn run_of_seven()
    ensures { (d : Description) (input : List ℕ) (steps : ℕ) (p : Progress) → IsValid d → HasConstants d →
        RunsTo d (loaded_state d (image_of d seven) input) steps p → observation_of p ≡ seven_shows steps }
{
    one_instance();
}
