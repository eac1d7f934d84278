//! Laws by their names.
ghost use Rattle.std.specs.Prelude.{◌≡◌, map};
ghost use Rattle.std.specs.List.{find};
ghost use Rattle.qc_laws.specs.Names.{is_named, laws, name_of, underscored};

use qc_equations::Law;

/// Every law, in order.
pub const LAWS: [Law; 48] = [
    Law::AddZero,
    Law::OrZero,
    Law::AddZeroDrop,
    Law::OrZeroDrop,
    Law::XorZeroDrop,
    Law::ShlZeroDrop,
    Law::AndOnesDrop,
    Law::AddSwap,
    Law::AndSwap,
    Law::OrSwap,
    Law::XorSwap,
    Law::EqSwap,
    Law::NeSwap,
    Law::MulSwap,
    Law::AddLeft,
    Law::AddRight,
    Law::SubNeg,
    Law::NegSub,
    Law::NegCom,
    Law::ComXor,
    Law::ComSub,
    Law::ComNeg,
    Law::XorOrAnd,
    Law::OrXorAnd,
    Law::AndOr,
    Law::OrAnd,
    Law::SubCom,
    Law::AddSub,
    Law::EqLtu,
    Law::NeLtu,
    Law::LtLtu,
    Law::LtuLt,
    Law::EqNe,
    Law::NeEq,
    Law::LtGe,
    Law::GeLt,
    Law::LtuGeu,
    Law::GeuLtu,
    Law::ZxCom,
    Law::Split8,
    Law::Split12,
    Law::Split16,
    Law::Part8,
    Law::Part12,
    Law::Part16,
    Law::ZxAnd,
    Law::AndZx,
    Law::SxShifts,
];

/// The name of a law.
pub fn law_name(law: Law) -> &'static [u8]
    ensures { result.now ≡ name_of law }
{
    match law {
        Law::AddZero => b"add-zero",
        Law::OrZero => b"or-zero",
        Law::AddZeroDrop => b"add-zero-drop",
        Law::OrZeroDrop => b"or-zero-drop",
        Law::XorZeroDrop => b"xor-zero-drop",
        Law::ShlZeroDrop => b"shl-zero-drop",
        Law::AndOnesDrop => b"and-ones-drop",
        Law::AddSwap => b"add-swap",
        Law::AndSwap => b"and-swap",
        Law::OrSwap => b"or-swap",
        Law::XorSwap => b"xor-swap",
        Law::EqSwap => b"eq-swap",
        Law::NeSwap => b"ne-swap",
        Law::MulSwap => b"mul-swap",
        Law::AddLeft => b"add-left",
        Law::AddRight => b"add-right",
        Law::SubNeg => b"sub-neg",
        Law::NegSub => b"neg-sub",
        Law::NegCom => b"neg-com",
        Law::ComXor => b"com-xor",
        Law::ComSub => b"com-sub",
        Law::ComNeg => b"com-neg",
        Law::XorOrAnd => b"xor-or-and",
        Law::OrXorAnd => b"or-xor-and",
        Law::AndOr => b"and-or",
        Law::OrAnd => b"or-and",
        Law::SubCom => b"sub-com",
        Law::AddSub => b"add-sub",
        Law::EqLtu => b"eq-ltu",
        Law::NeLtu => b"ne-ltu",
        Law::LtLtu => b"lt-ltu",
        Law::LtuLt => b"ltu-lt",
        Law::EqNe => b"eq-ne",
        Law::NeEq => b"ne-eq",
        Law::LtGe => b"lt-ge",
        Law::GeLt => b"ge-lt",
        Law::LtuGeu => b"ltu-geu",
        Law::GeuLtu => b"geu-ltu",
        Law::ZxCom => b"zx-com",
        Law::Split8 => b"split8",
        Law::Split12 => b"split12",
        Law::Split16 => b"split16",
        Law::Part8 => b"part8",
        Law::Part12 => b"part12",
        Law::Part16 => b"part16",
        Law::ZxAnd => b"zx-and",
        Law::AndZx => b"and-zx",
        Law::SxShifts => b"sx-shifts",
    }
}

/// The name of a law as table texts write it, where a dash is no part of a name.
pub fn law_table_name(law: Law) -> &'static [u8]
    ensures { result.now ≡ map underscored (name_of law) }
{
    match law {
        Law::AddZero => b"add_zero",
        Law::OrZero => b"or_zero",
        Law::AddZeroDrop => b"add_zero_drop",
        Law::OrZeroDrop => b"or_zero_drop",
        Law::XorZeroDrop => b"xor_zero_drop",
        Law::ShlZeroDrop => b"shl_zero_drop",
        Law::AndOnesDrop => b"and_ones_drop",
        Law::AddSwap => b"add_swap",
        Law::AndSwap => b"and_swap",
        Law::OrSwap => b"or_swap",
        Law::XorSwap => b"xor_swap",
        Law::EqSwap => b"eq_swap",
        Law::NeSwap => b"ne_swap",
        Law::MulSwap => b"mul_swap",
        Law::AddLeft => b"add_left",
        Law::AddRight => b"add_right",
        Law::SubNeg => b"sub_neg",
        Law::NegSub => b"neg_sub",
        Law::NegCom => b"neg_com",
        Law::ComXor => b"com_xor",
        Law::ComSub => b"com_sub",
        Law::ComNeg => b"com_neg",
        Law::XorOrAnd => b"xor_or_and",
        Law::OrXorAnd => b"or_xor_and",
        Law::AndOr => b"and_or",
        Law::OrAnd => b"or_and",
        Law::SubCom => b"sub_com",
        Law::AddSub => b"add_sub",
        Law::EqLtu => b"eq_ltu",
        Law::NeLtu => b"ne_ltu",
        Law::LtLtu => b"lt_ltu",
        Law::LtuLt => b"ltu_lt",
        Law::EqNe => b"eq_ne",
        Law::NeEq => b"ne_eq",
        Law::LtGe => b"lt_ge",
        Law::GeLt => b"ge_lt",
        Law::LtuGeu => b"ltu_geu",
        Law::GeuLtu => b"geu_ltu",
        Law::ZxCom => b"zx_com",
        Law::Split8 => b"split8",
        Law::Split12 => b"split12",
        Law::Split16 => b"split16",
        Law::Part8 => b"part8",
        Law::Part12 => b"part12",
        Law::Part16 => b"part16",
        Law::ZxAnd => b"zx_and",
        Law::AndZx => b"and_zx",
        Law::SxShifts => b"sx_shifts",
    }
}

/// Whether a name is the law's, in one of both spellings.
fn has_name(law: Law, name: &[u8]) -> bool
    ensures { result ≡ is_named name.now law }
{
    law_name(law) == name || law_table_name(law) == name
}

/// The law of a name, written with dashes or with underscores.
pub fn law_by_name(name: &[u8]) -> Option<Law>
    ensures { result ≡ find (is_named name.now) laws }
{
    LAWS.iter().copied().find(|law| has_name(*law, name))
}
