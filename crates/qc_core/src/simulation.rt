//! The command `run`.
ghost use Rattle.std.specs.Prelude.{◌≡◌, ◌≤◌, ◌<◌, ◌^◌, All, length, IfErr, IfOk, IfSome};
ghost use Rattle.qc_command.specs.Command.{texts_of};
ghost use Rattle.qc_command.specs.declared.words.Command.TheVariants as command;
ghost use Rattle.qc_descr.specs.Loading.{FitsMachine, loaded_state};
ghost use Rattle.qc_descr.specs.Valid.{IsValid};
ghost use Rattle.qc_core.specs.Inner.Counting.{CountsFaults, CountsOutFaults};
ghost use Rattle.qc_core.specs.Answer.{CommandLeaves};
ghost use Rattle.qc_core.specs.Leaves.{outside_of};
ghost use Rattle.qc_core.specs.Inner.Reading.{ReadsFiles, StopsFor};
ghost use Rattle.qc_core.specs.Inner.Running.{PutsSetting};
ghost use Rattle.qc_core.specs.Puts.{output_of};
ghost use Rattle.qc_core.specs.Runs.{IsImageFault, IsImageFile, IsInputFault, image_reading, run_reading, setting_of};
ghost use Rattle.qc_core.specs.Texts.{description_reading};
ghost use Rattle.qc_machine.specs.InputFile.{IsInput};

use crate::answer::{Fault, Status};
use crate::descriptions::read_description;
use crate::inputs::read_file;
use crate::reporting::report_stop;
use crate::running::show_run;
use qc_descr::{Description, some_outcome};
use qc_layout::{ImageEnd, fitting_images_have_files, read_image};
use qc_machine::{InputEnd, Machine, read_input};
use qc_outside::{Out, Shelf};
use qc_terms::Image;
use qc_words::Width;
use std::alloc::Global;

/// The numbers of the image and the input among the files.
const IMAGE: usize = 3;

const INPUT: usize = 4;

/// The image in a file.
fn image_in(alloc: Global, descr: &Description, bytes: &[u8]) -> Result<Image, Status>
    requires { IsValid descr.now }
    ensures image { IfOk result (IsImageFile descr.now bytes.now) }
    ensures stops { IfErr result (StopsFor (IsImageFault descr.now bytes.now)) }
{
    fitting_images_have_files();
    match read_image(alloc, bytes, descr) {
        Ok(image) => Ok(image),
        Err(ImageEnd::BadImage { at }) => Err(Status::Refused {
            fault: Fault::BadImage { at },
        }),
        Err(ImageEnd::NoMemory) => Err(Status::NoMemory),
    }
}

/// The words of an input in a file.
fn input_in(alloc: Global, word: Width, bytes: &[u8]) -> Result<Vec<u64>, Status>
    ensures input { IfOk result (λ words. IsInput word bytes.now words.items) }
    ensures words { IfOk result (λ words. All (λ w. w < 2 ^ word) words.items) }
    ensures stops { IfErr result (StopsFor (IsInputFault word bytes.now)) }
{
    match read_input(alloc, bytes, word) {
        Ok(words) => Ok(words),
        Err(InputEnd::BadInput { at }) => Err(Status::Refused {
            fault: Fault::BadInput { at },
        }),
        Err(InputEnd::NoMemory) => Err(Status::NoMemory),
    }
}

/// The image of the third file, for the description of the first two.
fn read_image_file<S: Shelf>(
    alloc: Global,
    names: &[String],
    shelf: &mut S,
    descr: &Description,
) -> Result<Image, Status>
    requires three { 3 ≤ length names.now }
    requires valid { IsValid descr.now }
    requires read { IfSome (S.files shelf.old) (λ files.
        (description_reading (texts_of names.now)).Means files descr.now) }
    ensures reads { ReadsFiles (image_reading (texts_of names.now)) (λ image. (descr.now, image)) result
        (S.files shelf.old) (S.files shelf.new) (S.faults shelf.old) (S.faults shelf.new) }
    ensures fits { IfOk result (FitsMachine descr.now) }
{
    match read_file(alloc, names, shelf, IMAGE) {
        Ok(bytes) => image_in(alloc, descr, bytes.as_slice()),
        Err(status) => Err(status),
    }
}

/// The words of the fourth file, for the description of the first two and the image of the third.
fn read_input_file<S: Shelf>(
    alloc: Global,
    names: &[String],
    shelf: &mut S,
    descr: &Description,
    image: &Image,
) -> Result<Vec<u64>, Status>
    requires four { 4 ≤ length names.now }
    requires read { IfSome (S.files shelf.old) (λ files.
        (image_reading (texts_of names.now)).Means files (descr.now, image.now)) }
    ensures reads { ReadsFiles (run_reading (texts_of names.now)) (λ input. (setting_of descr.now image.now input.items)) result
        (S.files shelf.old) (S.files shelf.new) (S.faults shelf.old) (S.faults shelf.new) }
    ensures words { IfOk result (λ input. All (λ word. word < 2 ^ descr.now.facts.word) input.items) }
{
    match read_file(alloc, names, shelf, INPUT) {
        Ok(bytes) => input_in(alloc, descr.facts.word, bytes.as_slice()),
        Err(status) => Err(status),
    }
}

/// The description of the first two files, and the image of the third.
fn read_program_image<S: Shelf>(
    alloc: Global,
    names: &[String],
    shelf: &mut S,
) -> Result<(Description, Image), Status>
    requires { 3 ≤ length names.now }
    ensures reads { ReadsFiles (image_reading (texts_of names.now)) (λ x. (x.0, x.1)) result
        (S.files shelf.old) (S.files shelf.new) (S.faults shelf.old) (S.faults shelf.new) }
    ensures valid { IfOk result (λ x. IsValid x.0) }
    ensures fits { IfOk result (λ x. FitsMachine x.0 x.1) }
{
    let descr = match read_description(alloc, names, shelf) {
        Ok(descr) => descr,
        Err(status) => return Err(status),
    };
    match read_image_file(alloc, names, shelf, &descr) {
        Ok(image) => Ok((descr, image)),
        Err(status) => Err(status),
    }
}

/// What a command runs, once all four files are good.
fn read_setting<S: Shelf>(
    alloc: Global,
    names: &[String],
    shelf: &mut S,
) -> Result<(Description, Image, Vec<u64>), Status>
    requires { 4 ≤ length names.now }
    ensures reads { ReadsFiles (run_reading (texts_of names.now)) (λ x. (setting_of x.0 x.1 x.2.items)) result
        (S.files shelf.old) (S.files shelf.new) (S.faults shelf.old) (S.faults shelf.new) }
    ensures valid { IfOk result (λ x. IsValid x.0) }
    ensures fits { IfOk result (λ x. FitsMachine x.0 x.1) }
    ensures words { IfOk result (λ x. All (λ word. word < 2 ^ x.0.facts.word) x.2.items) }
{
    let (descr, image) = match read_program_image(alloc, names, shelf) {
        Ok(both) => both,
        Err(status) => return Err(status),
    };
    match read_input_file(alloc, names, shelf, &descr, &image) {
        Ok(input) => Ok((descr, image, input)),
        Err(status) => Err(status),
    }
}

/// The run of an image on an input, for so many steps, and its lines.
fn run_image<O: Out>(
    alloc: Global,
    out: &mut O,
    descr: &Description,
    image: &Image,
    input: Vec<u64>,
    steps: u64,
) -> Status
    requires valid { IsValid descr.now }
    requires fits { FitsMachine descr.now image.now }
    requires words { All (λ word. word < 2 ^ descr.now.facts.word) input.items }
    ensures puts { PutsSetting (setting_of descr.now image.now input.items) steps
        (output_of (O.pieces out.old) (O.faults out.old)) (output_of (O.pieces out.new) (O.faults out.new)) result }
    ensures counts { CountsOutFaults result (O.faults out.old) (O.faults out.new) }
{
    some_outcome();
    match Machine::open(alloc, descr, image, input) {
        Ok(mut machine) => show_run(alloc, out, descr, &mut machine, steps),
        Err(_) => Status::NoMemory,
    }
}

/// Runs the image of the third file on the input of the fourth, or reports why a file is refused.
pub(crate) fn run_command<S: Shelf, O: Out>(
    alloc: Global,
    names: &[String],
    steps: u64,
    shelf: &mut S,
    out: &mut O,
) -> Status
    requires { length names.now ≡ 4 }
    ensures counts { CountsFaults result (S.faults shelf.old) (S.faults shelf.new) (O.faults out.old) (O.faults out.new) }
    ensures leaves { CommandLeaves (command.Run steps) (texts_of names.now)
        (outside_of (S.files shelf.old) (S.faults shelf.old) (O.pieces out.old) (O.faults out.old))
        (outside_of (S.files shelf.new) (S.faults shelf.new) (O.pieces out.new) (O.faults out.new))
        result }
{
    match read_setting(alloc, names, shelf) {
        Ok((descr, image, input)) => run_image(alloc, out, &descr, &image, input, steps),
        Err(status) => report_stop(alloc, out, status),
    }
}
