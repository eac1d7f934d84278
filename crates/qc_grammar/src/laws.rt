//! A fact about what is printed. A caller of the function has its `ensures`; no code runs.
ghost use Rattle.qc_grammar.specs.Spelled.{Respells};
ghost use Rattle.qc_grammar.specs.Printing.{as_text};

/// Where numbers are printed in decimal and other tokens by their texts, what is printed for a token is a token of its
/// kind, for which the same is printed.
pub fn printed_tokens_are_tokens()
    ensures { Respells as_text }
{}
