//! The lines that the program puts.
ghost use Rattle.std.specs.Prelude.{◌≡◌, string_bytes, IfOk};
ghost use Rattle.qc_core.specs.Lines as lines;

use crate::answer::Fault;
use qc_descr::{DescrFault, Description, Part};
use qc_join::JoinFault;
use qc_terms::{Event, Image};
use qc_text::NoMemory;
use qc_widths::WidthFault;
use std::alloc::Global;

/// The line of an image that was compiled.
pub(crate) fn compiled_line(alloc: Global, image: &Image) -> Result<String, NoMemory>
    ensures { IfOk result (λ line. string_bytes line ≡ lines.compiled_line image.now) }
{
    let code = image.code.len();
    let initial = image.initial.len();
    format!(in alloc; "compiled {code} bytes of code, {initial} bytes of data\n")
}

/// The line of a description that was checked.
pub(crate) fn checked_line(alloc: Global, descr: &Description) -> Result<Vec<u8>, NoMemory>
    ensures { IfOk result (λ line. line.items ≡ lines.checked_line descr.now) }
{
    let count = descr.instructions.len();
    let rest = format!(in alloc; ": {count} instructions\n")?;
    let mut line = Vec::from_slice(alloc, descr.name.bytes())?;
    line.extend_from_slice(rest.as_bytes())?;
    Ok(line)
}

fn part_name(part: Part) -> &'static str
    ensures { result.now ≡ lines.part_name part }
{
    match part {
        Part::Word => "Word",
        Part::Memory => "Memory",
        Part::Code => "Code",
        Part::Data => "Data",
        Part::Align => "Align",
        Part::SlotBits => "SlotBits",
        Part::Frame => "Frame",
        Part::Link => "Link",
        Part::Zero => "Zero",
        Part::Allocatable => "Allocatable",
        Part::Flags => "Flags",
    }
}

fn names_line(alloc: Global, fault: WidthFault) -> Result<String, NoMemory>
    ensures { IfOk result (λ line. string_bytes line ≡ lines.names_line fault) }
{
    match fault {
        WidthFault::UnknownName { token } => format!(in alloc; "refused: UnknownName {token}\n"),
        WidthFault::TwiceNamed { token } => format!(in alloc; "refused: TwiceNamed {token}\n"),
        WidthFault::WidthClash {
            token,
            found,
            wanted,
        } => format!(in alloc; "refused: WidthClash {token} {found} {wanted}\n"),
        WidthFault::TooMany { token, limit } => {
            format!(in alloc; "refused: TooMany {token} {limit}\n")
        }
    }
}

fn description_line(alloc: Global, fault: DescrFault) -> Result<String, NoMemory>
    ensures { IfOk result (λ line. string_bytes line ≡ lines.description_line fault) }
{
    match fault {
        DescrFault::Uncovered { instruction } => {
            format!(in alloc; "refused: Uncovered {instruction}\n")
        }
        DescrFault::Overlap { a, b } => format!(in alloc; "refused: Overlap {a} {b}\n"),
        DescrFault::FieldRange { instruction } => {
            format!(in alloc; "refused: FieldRange {instruction}\n")
        }
        DescrFault::BadLayout { part } => {
            let name = part_name(part);
            format!(in alloc; "refused: BadLayout {name}\n")
        }
    }
}

fn join_line(alloc: Global, fault: JoinFault) -> Result<String, NoMemory>
    ensures { IfOk result (λ line. string_bytes line ≡ lines.join_line fault) }
{
    match fault {
        JoinFault::UnknownName { token } => format!(in alloc; "refused: UnknownName {token}\n"),
        JoinFault::TwiceNamed { token } => format!(in alloc; "refused: TwiceNamed {token}\n"),
        JoinFault::Descr { fault } => description_line(alloc, fault),
    }
}

/// The line of a refusal.
pub(crate) fn refusal_line(alloc: Global, fault: Fault) -> Result<String, NoMemory>
    ensures { IfOk result (λ line. string_bytes line ≡ lines.refusal_line fault) }
{
    match fault {
        Fault::TooLong { file } => format!(in alloc; "refused: TooLong {file}\n"),
        Fault::BadByte { file, at } => format!(in alloc; "refused: BadByte {file} {at}\n"),
        Fault::Syntax { file, token } => format!(in alloc; "refused: Syntax {file} {token}\n"),
        Fault::TooDeep { file, token } => format!(in alloc; "refused: TooDeep {file} {token}\n"),
        Fault::Names { fault } => names_line(alloc, fault),
        Fault::Join { fault } => join_line(alloc, fault),
        Fault::BadImage { at } => format!(in alloc; "refused: BadImage {at}\n"),
        Fault::BadInput { at } => format!(in alloc; "refused: BadInput {at}\n"),
        Fault::NotYet { form } => format!(in alloc; "refused: NotYet {form}\n"),
    }
}

/// The line of a word that was put out.
pub(crate) fn word_line(alloc: Global, word: u64) -> Result<String, NoMemory>
    ensures { IfOk result (λ line. string_bytes line ≡ lines.word_line word) }
{
    format!(in alloc; "{word}\n")
}

/// The line of the end of a run, or of one that goes on.
pub(crate) fn ending_line(alloc: Global, ending: Option<Event>) -> Result<String, NoMemory>
    ensures { IfOk result (λ line. string_bytes line ≡ lines.ending_line ending) }
{
    match ending {
        Some(Event::Ended { code }) => format!(in alloc; "ended {code}\n"),
        Some(Event::Trapped { code }) => format!(in alloc; "trapped {code}\n"),
        _ => String::from_str(alloc, "running\n"),
    }
}
