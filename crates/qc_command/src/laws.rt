//! Facts about the definitions. A caller of one of these functions has its `ensures`; no code runs.
ghost use Rattle.std.specs.Prelude.{◌≡◌, ℕ, List};
ghost use Rattle.qc_command.specs.Command.{IsCommandLine, IsUsage};
ghost use Rattle.qc_command.specs.declared.words.Command.{Command};

/// Words that are a usage are no command line.
pub fn usage_is_no_command()
    ensures { (words files : List (List ℕ)) (command : Command) (word : ℕ) →
        IsUsage words word → IsCommandLine words command files → ⊥ }
{}

/// Words are a usage with at most one wrong word.
pub fn one_usage()
    ensures { (words : List (List ℕ)) (a b : ℕ) → IsUsage words a → IsUsage words b → a ≡ b }
{}

/// Words are at most one command line.
pub fn one_command()
    ensures { (words fs gs : List (List ℕ)) (c d : Command) →
        IsCommandLine words c fs → IsCommandLine words d gs → (c ≡ d) × (fs ≡ gs) }
{}
