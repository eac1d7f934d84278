//! Facts about all trees. A caller of a function has its `ensures`; no code runs.
ghost use Rattle.std.specs.Prelude.{◌≡◌};
ghost use Rattle.qc_grammar.specs.Spelled.{AreSameTrees};
ghost use Rattle.qc_grammar.specs.Printing.{as_text};
ghost use Rattle.qc_sample.specs.declared.syntax.Program.{Program};
ghost use Rattle.qc_sample.specs.Sample.{sample, program};
ghost use Rattle.qc_sample.specs.Printed.{program_words};
ghost use Rattle.qc_sample.specs.declared.blocks.Block.{Block};
ghost use Rattle.qc_sample.specs.Blocks.{blocks, block};
ghost use Rattle.qc_sample.specs.PrintedBlocks.{block_words};

/// Trees that are the same but for the numbers of tokens have the same words.
pub fn same_trees_have_the_same_words()
    ensures { (a b : Program) → AreSameTrees as_text sample program a b → program_words a ≡ program_words b }
{}

/// Blocks that are the same but for the numbers of tokens have the same words.
pub fn same_blocks_have_the_same_words()
    ensures { (a b : Block) → AreSameTrees as_text blocks block a b → block_words a ≡ block_words b }
{}
