//! The commands, and the one call that the program makes.
ghost use Rattle.std.specs.Prelude.{◌≡◌, ◌≤◌, ℕ, List, Some, length};
ghost use Rattle.qc_command.specs.Command.{IsCommandLine, IsUsage, file_count, texts_of};
ghost use Rattle.qc_command.specs.declared.words.Command.{Command as CommandAsked};
ghost use Rattle.qc_command.specs.declared.words.Command.TheVariants as command;
ghost use Rattle.qc_core.specs.Inner.Counting.{CountsFaults};
ghost use Rattle.qc_core.specs.declared.answer.Fault.{Fault as Refusal};
ghost use Rattle.qc_core.specs.Answer.{CommandLeaves, IsAnswer, IsCommandRead, IsCommandRefused, task_of};
ghost use Rattle.qc_core.specs.Headline.{IsKnownCompiled};
ghost use Rattle.qc_core.specs.Leaves.{IsGoodStatus, IsRefusalStatus, KeepsOutFaults, KeepsShelfFaults, outside_of};
ghost use Rattle.qc_outside.specs.FaultCounts.{Rose};
ghost use Rattle.qc_outside.specs.Files.{Files};

use crate::answer::Status;
use crate::checking::check_command;
use crate::compiling::compile_command;
use crate::laws::{faultless_commands, refused_commands};
use crate::simulation::run_command;
use qc_command::{Command, command_in, one_command, one_usage, usage_is_no_command};
use qc_constants::images_agree;
use qc_outside::{Out, Shelf};
use std::alloc::Global;

/// Does what a command says, whose files have these names.
fn do_command<S: Shelf, O: Out>(
    alloc: Global,
    command: Command,
    names: &[String],
    shelf: &mut S,
    out: &mut O,
) -> Status
    requires { length names.now ≡ file_count command }
    ensures counts { CountsFaults result (S.faults shelf.old) (S.faults shelf.new) (O.faults out.old) (O.faults out.new) }
    ensures leaves { CommandLeaves command (texts_of names.now)
        (outside_of (S.files shelf.old) (S.faults shelf.old) (O.pieces out.old) (O.faults out.old))
        (outside_of (S.files shelf.new) (S.faults shelf.new) (O.pieces out.new) (O.faults out.new))
        result }
{
    match command {
        Command::Check => check_command(alloc, names, shelf, out),
        Command::Compile => compile_command(alloc, names, shelf, out),
        Command::Run { steps } => run_command(alloc, names, steps, shelf, out),
    }
}

/// Does what the words say, and answers how it went.
///
/// The words are those after the program's name. The files are those of the shelf, and lines are put to the output.
pub fn quick<S: Shelf, O: Out>(
    alloc: Global,
    words: &Vec<String>,
    shelf: &mut S,
    out: &mut O,
) -> Status
    ensures shelf_kept { KeepsShelfFaults result (S.faults shelf.old) (S.faults shelf.new) }
    ensures shelf_later { S.faults shelf.old ≤ S.faults shelf.new }
    ensures out_kept { KeepsOutFaults result (O.faults out.old) (O.faults out.new) }
    ensures out_later { O.faults out.old ≤ O.faults out.new }
    ensures answer { IsAnswer (texts_of words.now.items)
        (outside_of (S.files shelf.old) (S.faults shelf.old) (O.pieces out.old) (O.faults out.old))
        (outside_of (S.files shelf.new) (S.faults shelf.new) (O.pieces out.new) (O.faults out.new))
        result }
    // Words that are no command are answered by the first wrong one.
    ensures usage { (word : ℕ) → IsUsage (texts_of words.now.items) word → result ≡ Status.Usage word }
    // Files that are refused are answered by their fault, unless memory is wanting or a read fails before that.
    ensures refused { (asked : CommandAsked) (names : List (List ℕ)) (files : Files) (file : ℕ) (fault : Refusal) →
        IsCommandLine (texts_of words.now.items) asked names → S.files shelf.old ≡ Some files →
        IsCommandRefused asked names files file fault →
        IsRefusalStatus (task_of asked names).reading file fault (S.faults shelf.old) (S.faults shelf.new) result }
    // Files that are good are answered by what is done, unless memory is wanting or a fault is counted.
    ensures done { (asked : CommandAsked) (names : List (List ℕ)) (files : Files) →
        IsCommandLine (texts_of words.now.items) asked names → S.files shelf.old ≡ Some files →
        IsCommandRead asked names files → (Rose (S.faults shelf.old) (S.faults shelf.new) → ⊥) →
        (Rose (O.faults out.old) (O.faults out.new) → ⊥) → IsGoodStatus (task_of asked names) files result }
    // On every input the image that was written shows, run on the machine, what the program shows.
    ensures compiled { result ≡ Status.Done → (names : List (List ℕ)) →
        IsCommandLine (texts_of words.now.items) command.Compile names →
        IsKnownCompiled names (S.files shelf.old) (S.files shelf.new) }
{
    images_agree();
    one_command();
    one_usage();
    usage_is_no_command();
    refused_commands();
    faultless_commands();
    match command_in(words) {
        Err(word) => Status::Usage { word },
        Ok(line) => {
            let names = words.as_slice().split_at(line.files).1;
            do_command(alloc, line.command, names, shelf, out)
        }
    }
}
