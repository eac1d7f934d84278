//! Facts about the definitions. A caller of one of these functions has its `ensures`; no code runs.
ghost use Rattle.std.specs.Prelude.{◌≡◌, ◌≤◌, ℕ, List, Some, IfSome};
ghost use Rattle.qc_command.specs.Command.{file_count};
ghost use Rattle.qc_command.specs.declared.words.Command.{Command};
ghost use Rattle.qc_constants.specs.declared.program.ConstantProgram.{ConstantProgram};
ghost use Rattle.qc_descr.specs.declared.description.Description.{Description};
ghost use Rattle.qc_descr.specs.Names.{HasNames};
ghost use Rattle.qc_outside.specs.FaultCounts.{Rose};
ghost use Rattle.qc_outside.specs.Files.{Files, name_of};
ghost use Rattle.qc_core.specs.declared.answer.Fault.{Fault};
ghost use Rattle.qc_core.specs.declared.answer.Status.{Status};
ghost use Rattle.qc_core.specs.Answer.{CommandLeaves, IsCommandRead, IsCommandRefused, NamesUnread, task_of};
ghost use Rattle.qc_core.specs.Compilation.{compile_reading};
ghost use Rattle.qc_core.specs.Inner.LowerLaws.{LowerLaws};
ghost use Rattle.qc_core.specs.Leaves.{IsGoodStatus, IsRefusalStatus, Outside};
ghost use Rattle.qc_core.specs.Runs.{Setting, machine_process, run_reading};
ghost use Rattle.qc_core.specs.Task.{Product};
ghost use Rattle.qc_descr.specs.Step.{Progress, RunsTo, observation_of};
ghost use Rattle.qc_descr.specs.Valid.{IsValid};
ghost use Rattle.qc_terms.specs.Observation.{Observation};
ghost use Rattle.qc_terms.specs.Process.{ShowsIn};
ghost use Rattle.qc_terms.specs.declared.state.State.{State};
ghost use Rattle.qc_core.specs.Texts.{description_reading};

use qc_constants::one_program;
use qc_layout::{faultless_files_are_images, image_files_are_read, one_bad_image, one_image};
use qc_machine::{input_is_not_bad, one_bad_input, one_input};
use qc_text::{one_bad_byte, one_end, one_token_list};

/// What the crates below say of tokens, programs, images and inputs.
pub(crate) fn lower_laws()
    ensures { LowerLaws }
{
    one_token_list();
    one_bad_byte();
    one_end();
    one_program();
    one_image();
    one_bad_image();
    image_files_are_read();
    one_input();
    one_bad_input();
    input_is_not_bad();
}

/// In a valid description the machine, its spaces, instructions and operands have names of machine texts, by which spaces,
/// instructions, and operands of one instruction are told from the others.
pub fn valid_descriptions_have_names()
    ensures { (d : Description) → IsValid d → HasNames d }
{}

/// Two files make at most one description.
pub fn one_description()
    ensures { (files : Files) (names : List (List ℕ)) (d e : Description) →
        (description_reading names).Means files d → (description_reading names).Means files e → d ≡ e }
{
    lower_laws();
}

/// Four files of `compile` mean at most one program for one description.
pub fn one_compilation()
    ensures { (files : Files) (names : List (List ℕ)) (x y : Description × ConstantProgram) →
        (compile_reading names).Means files x → (compile_reading names).Means files y → x ≡ y }
{
    lower_laws();
}

/// Four files of `run` mean at most one image and input for one description.
pub fn one_setting()
    ensures { (files : Files) (names : List (List ℕ)) (s t : Setting) →
        (run_reading names).Means files s → (run_reading names).Means files t → s ≡ t }
{
    lower_laws();
}

/// The files of a command are refused for at most one fault, of one of them.
pub fn one_refusal()
    ensures { (command : Command) (names : List (List ℕ)) (files : Files) (m n : ℕ) (a b : Fault) →
        IsCommandRefused command names files m a → IsCommandRefused command names files n b → (m ≡ n) × (a ≡ b) }
{
    lower_laws();
}

/// The files of a command that are good are not refused.
pub fn read_is_not_refused()
    ensures { (command : Command) (names : List (List ℕ)) (files : Files) (file : ℕ) (fault : Fault) →
        IsCommandRead command names files → IsCommandRefused command names files file fault → ⊥ }
{
    lower_laws();
}

/// The files of a command that are refused for no fault are good. This is said by a double negation, as no definition
/// decides whether bytes are a text.
pub fn read_unless_refused()
    ensures { (command : Command) (names : List (List ℕ)) (files : Files) →
        (task_of command names).AreBytes files →
        ((file : ℕ) (fault : Fault) → IsCommandRefused command names files file fault → ⊥) →
        (IsCommandRead command names files → ⊥) → ⊥ }
{
    lower_laws();
    faultless_files_are_images();
}

/// A file that a command reads is one of those that it names. One that it names and doesn't read is the one that it
/// writes, where it makes something, and it writes no other.
pub fn commands_name_their_files()
    ensures read { (command : Command) (names : List (List ℕ)) (file : ℕ) →
        (task_of command names).reading.Reads file → (1 ≤ file) × (file ≤ file_count command) }
    ensures written { (command : Command) (names : List (List ℕ)) (file : ℕ) (x : (task_of command names).Input)
        (product : Product) → NamesUnread command names file → (task_of command names).Makes x product →
        (bytes : List ℕ) × (product.file ≡ Some (name_of names file, bytes)) }
    ensures no_other { (command : Command) (names : List (List ℕ)) (x : (task_of command names).Input)
        (product : Product) → (task_of command names).Makes x product →
        IfSome product.file (λ written. (file : ℕ) × NamesUnread command names file × (written.0 ≡ name_of names file)) }
{}

/// What a command makes something of it refuses for no fault.
pub fn made_is_not_refused()
    ensures { (command : Command) (names : List (List ℕ)) (x : (task_of command names).Input) (product : Product)
        (fault : Fault) → (task_of command names).Makes x product → (task_of command names).MayRefuse x fault → ⊥ }
{}

/// What the machine shows as a process is what it shows in the runs of which the agreement of an image with its program
/// speaks.
pub fn machine_runs()
    ensures forth { (d : Description) (s : State) (steps : ℕ) (p : Progress) → RunsTo d s steps p →
        ShowsIn (machine_process d) s steps (observation_of p) }
    ensures back { (d : Description) (s : State) (steps : ℕ) (seen : Observation) →
        ShowsIn (machine_process d) s steps seen → (p : Progress) × RunsTo d s steps p × (seen ≡ observation_of p) }
{}

/// A command whose files are refused reports that fault, unless memory is wanting or a read fails before that.
pub fn refused_commands()
    ensures { (command : Command) (names : List (List ℕ)) (files : Files) (file : ℕ) (fault : Fault)
        (old new : Outside) (status : Status) → old.files ≡ Some files →
        IsCommandRefused command names files file fault → CommandLeaves command names old new status →
        IsRefusalStatus (task_of command names).reading file fault old.shelf_faults new.shelf_faults status }
{
    lower_laws();
}

/// A command whose files are good is done, runs out of memory, or refuses what they mean, where no count of faults rose.
pub fn faultless_commands()
    ensures { (command : Command) (names : List (List ℕ)) (files : Files) (old new : Outside) (status : Status) →
        old.files ≡ Some files → IsCommandRead command names files →
        (Rose old.shelf_faults new.shelf_faults → ⊥) → (Rose old.out.faults new.out.faults → ⊥) →
        CommandLeaves command names old new status →
        IsGoodStatus (task_of command names) files status }
{
    lower_laws();
}
