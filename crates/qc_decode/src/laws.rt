//! Facts about instances in a memory. A caller of one of these functions has its `ensures`; no code runs.
ghost use Rattle.std.specs.Prelude.{◌≡◌, ℕ, ◌++◌, List, drop};
ghost use Rattle.qc_descr.specs.declared.description.Description.{Description};
ghost use Rattle.qc_descr.specs.Encoding.{Encodes};
ghost use Rattle.qc_descr.specs.Step.{EncodesAt, IsUndecodable};
ghost use Rattle.qc_descr.specs.Valid.{IsValid};

use qc_descr::one_instance;

/// What is encoded at an address, and stands there in a memory, is what is decoded there, and nothing else is.
pub fn encoded_is_decoded()
    ensures there { (d : Description) (memory operands bytes more : List ℕ) (at number : ℕ) →
        Encodes d at number operands bytes → drop at memory ≡ bytes ++ more → IsUndecodable d memory at → ⊥ }
    ensures only { (d : Description) (memory operands bytes more others found : List ℕ) (at number other : ℕ) →
        IsValid d → Encodes d at number operands bytes → drop at memory ≡ bytes ++ more →
        EncodesAt d memory at other others found → (other ≡ number) × (others ≡ operands) × (found ≡ bytes) }
{
    one_instance();
}

/// What is decoded at an address is encoded there to the bytes that stand there, and to no others.
pub fn decoded_is_encoded()
    ensures { (d : Description) (operands bytes others : List ℕ) (at number : ℕ) →
        Encodes d at number operands bytes → Encodes d at number operands others → others ≡ bytes }
{}
