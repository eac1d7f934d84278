//! Facts about all programs. A caller of a function has its `ensures`; no code runs.
ghost use Rattle.std.specs.Prelude.{◌≡◌, List};
ghost use Rattle.qc_grammar.specs.Lexeme.{Lexeme};
ghost use Rattle.qc_grammar.specs.Language.{IsPhrase};
ghost use Rattle.qc_grammar.specs.Spelled.{AreSameTrees};
ghost use Rattle.qc_grammar.specs.Printing.{as_text};
ghost use Rattle.qc_cmm.specs.declared.syntax.Program.{Program};
ghost use Rattle.qc_cmm.specs.Cmm.{cmm, program};
ghost use Rattle.qc_cmm.specs.Written.{written};
ghost use Rattle.qc_cmm.specs.Printed.{program_words};

/// The grammar that is read has the programs of the grammar as one writes it down, with the same trees.
pub fn is_written_so()
    ensures written { (tokens : List Lexeme) (p : Program) → IsPhrase cmm program tokens p
        → IsPhrase written program tokens p }
    ensures read { (tokens : List Lexeme) (p : Program) → IsPhrase written program tokens p
        → IsPhrase cmm program tokens p }
{}

/// Trees that are the same but for the numbers of tokens have the same words.
pub fn same_trees_have_the_same_words()
    ensures { (a b : Program) → AreSameTrees as_text cmm program a b → program_words a ≡ program_words b }
{}
