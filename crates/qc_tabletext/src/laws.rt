//! Facts about all trees and texts. A caller of a function has its `ensures`; no code runs.
ghost use Rattle.std.specs.Prelude.{◌≡◌, List};
ghost use Rattle.qc_grammar.specs.Lexeme.{Lexeme};
ghost use Rattle.qc_grammar.specs.Language.{IsPhrase};
ghost use Rattle.qc_grammar.specs.Spelled.{AreSameTrees};
ghost use Rattle.qc_grammar.specs.Printing.{as_text};
ghost use Rattle.qc_tabletext.specs.declared.syntax.RawTables.{RawTables};
ghost use Rattle.qc_tabletext.specs.TableText.{table_text, tables};
ghost use Rattle.qc_tabletext.specs.Written.{written};
ghost use Rattle.qc_tabletext.specs.Printed.{tables_words};

/// Trees that are the same but for the numbers of tokens have the same words.
pub fn same_trees_have_the_same_words()
    ensures { (a b : RawTables) → AreSameTrees as_text table_text tables a b → tables_words a ≡ tables_words b }
{}

/// The grammar that is read has the texts of the grammar as one writes it down, with the same trees.
pub fn is_written_so()
    ensures written { (tokens : List Lexeme) (raw : RawTables) → IsPhrase table_text tables tokens raw
        → IsPhrase written tables tokens raw }
    ensures read { (tokens : List Lexeme) (raw : RawTables) → IsPhrase written tables tokens raw
        → IsPhrase table_text tables tokens raw }
{}
