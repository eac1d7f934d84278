ghost use Rattle.std.specs.Prelude.{◌≡◌};
ghost use Rattle.std.specs.Option.{option_copied};
ghost use Rattle.qc_derivations.specs.Forest.{Forest, bound_by};
ghost use Rattle.qc_nodes.specs.Trees.{grows_before};

use qc_derivations::{Binding, Derivation};

/// The derivation of a child, if one stands for the operand.
pub fn child_of(binding: &Binding) -> Option<&Derivation>
    ensures { (rest : Forest) → (bound_by binding.now).grows rest ≡ grows_before (option_copied result) rest }
{
    match binding {
        Binding::Child { node } => Some(node.get()),
        Binding::Own => None,
        Binding::Param { .. } => None,
        Binding::Cell { .. } => None,
        Binding::Constant { .. } => None,
        Binding::Spare => None,
    }
}
