use qc_join::JoinFault;
use qc_widths::WidthFault;

/// Why a file is refused. The files of a command are counted from 1 in the order of its words, and the tokens and bytes
/// of a file from 0. The forms are those that `compile` understands so far: 3 and 4 those of its files 3 and 4, and 5 that
/// of the description which files 1 and 2 make.
#[derive(Clone, Copy, Debug, PartialEq, Eq)]
pub enum Fault {
    /// The file has more than 4,194,304 bytes.
    TooLong { file: usize },
    /// The byte at `at` begins no token.
    BadByte { file: usize, at: usize },
    /// The first token with which no text of the file's grammar begins.
    Syntax { file: usize, token: usize },
    /// The bracket with which more than 200 would be open.
    TooDeep { file: usize, token: usize },
    /// Names or widths are wrong in the text of a machine, which is file 1.
    Names { fault: WidthFault },
    /// The text of a coding, which is file 2, makes no description of the machine.
    Join { fault: JoinFault },
    /// The file of an image, which is file 3 of `run`, is none for the machine, and `at` is the first wrong byte.
    BadImage { at: usize },
    /// The file of an input, which is file 4 of `run`, has a token at `at` that is no word of the machine, or a bad byte.
    BadInput { at: usize },
    /// The file hasn't the one form that is understood so far, or the description isn't that of tin32.
    NotYet { form: u32 },
}

/// What a call of the program came to.
#[derive(Clone, Copy, Debug, PartialEq, Eq)]
pub enum Status {
    /// What was asked for is done: of `compile` the image is written, and of each command the lines are put.
    Done,
    /// A file is refused, and no file was written.
    Refused { fault: Fault },
    /// The words are no command. Some command starts with as many of them as `word` says, but none with one more.
    Usage { word: usize },
    /// The file of this number could not be read.
    ReadFault { file: usize },
    /// The image could not be written, or not whole.
    WriteFault,
    /// The files are read, and of `compile` the image is written, and a line could not be put, or not whole.
    OutFault,
    /// Memory was wanting.
    NoMemory,
}
