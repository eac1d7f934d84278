//! The command `compile`.
ghost use Rattle.std.specs.Prelude.{◌≡◌, ◌≤◌, ◌↔◌, length, string_bytes, IfErr, IfNone, IfOk, IfSome, IsTrue};
ghost use Rattle.qc_command.specs.Command.{texts_of};
ghost use Rattle.qc_command.specs.declared.words.Command.TheVariants as command;
ghost use Rattle.qc_constants.specs.Code.{image_of};
ghost use Rattle.qc_constants.specs.Constants.{HasConstants};
ghost use Rattle.qc_constants.specs.ConstantProgram.{IsConstantProgram};
ghost use Rattle.qc_descr.specs.Valid.{IsValid};
ghost use Rattle.qc_descr.specs.declared.description.Description.{Description as TheDescription};
ghost use Rattle.qc_layout.specs.ImageFile.{image_bytes};
ghost use Rattle.qc_core.specs.Inner.Counting.{CountsFaults};
ghost use Rattle.qc_core.specs.Answer.{CommandLeaves};
ghost use Rattle.qc_core.specs.Compilation.{IsShipped, IsTin32, compile_reading, image_and_line, tables_reading};
ghost use Rattle.qc_core.specs.Compilation.{tables_text, tin32_reading};
ghost use Rattle.qc_core.specs.Inner.Reading.{ReadsFiles};
ghost use Rattle.qc_core.specs.Leaves.{Performs, outside_of};

use crate::answer::{Fault, Status};
use crate::descriptions::{description_in, machine_in, read_description};
use crate::inputs::{file_word, read_file};
use crate::laws::lower_laws;
use crate::reporting::{report_image, report_stop};
use qc_constants::{ConstantProgram, compile, has_constants, read_program};
use qc_descr::Description;
use qc_equal::same_description;
use qc_layout::write_image;
use qc_outside::{Out, Shelf, StoreEnd};
use qc_shipped::{TIN32_LRTL, TIN32_SLED};
use qc_terms::Image;
use qc_text::NoMemory;
use std::alloc::{AllocError, Global};

/// The numbers of the tables, the program and the image among the files.
const TABLES: usize = 3;

const PROGRAM: usize = 4;

const IMAGE: usize = 5;

/// The text that stands for the tables so far.
const TABLES_TEXT: &[u8] = b"tables tin32 1;\n";

/// The form of the description.
const DESCRIPTION_FORM: u32 = 5;

/// The description of the shipped texts of tin32.
fn shipped_tin32(alloc: Global) -> Result<Option<Description>, NoMemory>
    ensures some { IfOk result (λ made. IfSome made IsShipped) }
    ensures none { IfOk result (λ made. IfNone made ((d : TheDescription) → IsShipped d → ⊥)) }
{
    lower_laws();
    let machine = match machine_in(alloc, TIN32_LRTL) {
        Ok(machine) => machine,
        Err(Status::Refused { .. }) => return Ok(None),
        Err(_) => return Err(AllocError),
    };
    match description_in(alloc, machine, TIN32_SLED) {
        Ok(descr) => Ok(Some(descr)),
        Err(Status::Refused { .. }) => Ok(None),
        Err(_) => Err(AllocError),
    }
}

/// Whether a description is that of the shipped texts of tin32, and has the instructions for constants.
fn is_tin32(alloc: Global, descr: &Description) -> Result<bool, NoMemory>
    ensures { IfOk result (λ is. IsTrue is ↔ IsTin32 descr.now) }
{
    lower_laws();
    let shipped = match shipped_tin32(alloc)? {
        Some(shipped) => shipped,
        None => return Ok(false),
    };
    if same_description(&shipped, descr) {
        has_constants(alloc, descr)
    } else {
        Ok(false)
    }
}

/// The description of the first two files, which has to be that of tin32.
fn read_tin32<S: Shelf>(
    alloc: Global,
    names: &[String],
    shelf: &mut S,
) -> Result<Description, Status>
    requires { 2 ≤ length names.now }
    ensures reads { ReadsFiles (tin32_reading (texts_of names.now)) (λ descr. descr) result
        (S.files shelf.old) (S.files shelf.new) (S.faults shelf.old) (S.faults shelf.new) }
    ensures valid { IfOk result IsValid }
    ensures constants { IfOk result HasConstants }
{
    let descr = match read_description(alloc, names, shelf) {
        Ok(descr) => descr,
        Err(status) => return Err(status),
    };
    match is_tin32(alloc, &descr) {
        Ok(true) => Ok(descr),
        Ok(false) => Err(Status::Refused {
            fault: Fault::NotYet {
                form: DESCRIPTION_FORM,
            },
        }),
        Err(_) => Err(Status::NoMemory),
    }
}

/// Whether the bytes stand for the tables.
fn is_tables(bytes: &[u8]) -> bool
    ensures { IsTrue result ↔ (bytes.now ≡ tables_text) }
{
    bytes == TABLES_TEXT
}

/// Whether the third file stands for the tables.
fn read_tables<S: Shelf>(
    alloc: Global,
    names: &[String],
    shelf: &mut S,
    descr: &Description,
) -> Result<(), Status>
    requires three { 3 ≤ length names.now }
    requires read { IfSome (S.files shelf.old) (λ files. (tin32_reading (texts_of names.now)).Means files descr.now) }
    ensures { ReadsFiles (tables_reading (texts_of names.now)) (λ _. descr.now) result
        (S.files shelf.old) (S.files shelf.new) (S.faults shelf.old) (S.faults shelf.new) }
{
    let bytes = match read_file(alloc, names, shelf, TABLES) {
        Ok(bytes) => bytes,
        Err(status) => return Err(status),
    };
    if is_tables(bytes.as_slice()) {
        Ok(())
    } else {
        Err(Status::Refused {
            fault: Fault::NotYet {
                form: TABLES as u32,
            },
        })
    }
}

/// The program of the fourth file.
fn read_constants<S: Shelf>(
    alloc: Global,
    names: &[String],
    shelf: &mut S,
    descr: &Description,
) -> Result<ConstantProgram, Status>
    requires four { 4 ≤ length names.now }
    requires read { IfSome (S.files shelf.old) (λ files. (tables_reading (texts_of names.now)).Means files descr.now) }
    ensures reads { ReadsFiles (compile_reading (texts_of names.now)) (λ p. (descr.now, p)) result
        (S.files shelf.old) (S.files shelf.new) (S.faults shelf.old) (S.faults shelf.new) }
    ensures program { IfOk result IsConstantProgram }
{
    let bytes = match read_file(alloc, names, shelf, PROGRAM) {
        Ok(bytes) => bytes,
        Err(status) => return Err(status),
    };
    match read_program(alloc, bytes.as_slice()) {
        Ok(Some(program)) => Ok(program),
        Ok(None) => Err(Status::Refused {
            fault: Fault::NotYet {
                form: PROGRAM as u32,
            },
        }),
        Err(_) => Err(Status::NoMemory),
    }
}

/// The description and the tables.
fn read_described<S: Shelf>(
    alloc: Global,
    names: &[String],
    shelf: &mut S,
) -> Result<Description, Status>
    requires { 3 ≤ length names.now }
    ensures reads { ReadsFiles (tables_reading (texts_of names.now)) (λ descr. descr) result
        (S.files shelf.old) (S.files shelf.new) (S.faults shelf.old) (S.faults shelf.new) }
    ensures valid { IfOk result IsValid }
    ensures constants { IfOk result HasConstants }
{
    let descr = match read_tin32(alloc, names, shelf) {
        Ok(descr) => descr,
        Err(status) => return Err(status),
    };
    match read_tables(alloc, names, shelf, &descr) {
        Ok(()) => Ok(descr),
        Err(status) => Err(status),
    }
}

/// What a command compiles, once all files that it reads are good.
fn read_compilation<S: Shelf>(
    alloc: Global,
    names: &[String],
    shelf: &mut S,
) -> Result<(Description, ConstantProgram), Status>
    requires { 4 ≤ length names.now }
    ensures reads { ReadsFiles (compile_reading (texts_of names.now)) (λ x. (x.0, x.1)) result
        (S.files shelf.old) (S.files shelf.new) (S.faults shelf.old) (S.faults shelf.new) }
    ensures valid { IfOk result (λ x. IsValid x.0) }
    ensures constants { IfOk result (λ x. HasConstants x.0) }
    ensures program { IfOk result (λ x. IsConstantProgram x.1) }
{
    let descr = match read_described(alloc, names, shelf) {
        Ok(descr) => descr,
        Err(status) => return Err(status),
    };
    match read_constants(alloc, names, shelf, &descr) {
        Ok(program) => Ok((descr, program)),
        Err(status) => Err(status),
    }
}

/// The image of a program, and its file.
fn image_file(
    alloc: Global,
    descr: &Description,
    program: &ConstantProgram,
) -> Result<(Image, Vec<u8>), NoMemory>
    requires valid { IsValid descr.now }
    requires constants { HasConstants descr.now }
    requires program { IsConstantProgram program.now }
    ensures image { IfOk result (λ r. r.0 ≡ image_of descr.now program.now) }
    ensures file { IfOk result (λ r. r.1.items ≡ image_bytes r.0) }
{
    let image = compile(alloc, descr, program)?;
    let file = write_image(alloc, &image)?;
    Ok((image, file))
}

/// Writes the image of a program, and puts its line.
fn finish<S: Shelf, O: Out>(
    alloc: Global,
    descr: &Description,
    program: &ConstantProgram,
    name: &String,
    shelf: &mut S,
    out: &mut O,
) -> Status
    requires valid { IsValid descr.now }
    requires constants { HasConstants descr.now }
    requires program { IsConstantProgram program.now }
    ensures counts { CountsFaults result (S.faults shelf.old) (S.faults shelf.new) (O.faults out.old) (O.faults out.new) }
    ensures performs { Performs (image_and_line (string_bytes name.now) (image_of descr.now program.now))
        (outside_of (S.files shelf.old) (S.faults shelf.old) (O.pieces out.old) (O.faults out.old))
        (outside_of (S.files shelf.new) (S.faults shelf.new) (O.pieces out.new) (O.faults out.new))
        result }
{
    let (image, file) = match image_file(alloc, descr, program) {
        Ok(both) => both,
        Err(_) => return Status::NoMemory,
    };
    match shelf.write(alloc, name, file.as_slice()) {
        Ok(()) => report_image(alloc, out, &image),
        Err(StoreEnd::Failed) => Status::WriteFault,
        Err(StoreEnd::NoMemory) => Status::NoMemory,
    }
}

/// Compiles the program of the fourth file into the fifth, or reports why a file is refused.
pub(crate) fn compile_command<S: Shelf, O: Out>(
    alloc: Global,
    names: &[String],
    shelf: &mut S,
    out: &mut O,
) -> Status
    requires { length names.now ≡ 5 }
    ensures counts { CountsFaults result (S.faults shelf.old) (S.faults shelf.new) (O.faults out.old) (O.faults out.new) }
    ensures leaves { CommandLeaves command.Compile (texts_of names.now)
        (outside_of (S.files shelf.old) (S.faults shelf.old) (O.pieces out.old) (O.faults out.old))
        (outside_of (S.files shelf.new) (S.faults shelf.new) (O.pieces out.new) (O.faults out.new))
        result }
{
    match read_compilation(alloc, names, shelf) {
        Ok((descr, program)) => finish(
            alloc,
            &descr,
            &program,
            file_word(names, IMAGE),
            shelf,
            out,
        ),
        Err(status) => report_stop(alloc, out, status),
    }
}
