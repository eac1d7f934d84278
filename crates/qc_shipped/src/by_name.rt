//! The machines that come with the program, by name.

ghost use Rattle.std.specs.Prelude.{◌≡◌, option_map};
ghost use Rattle.qc_shipped.specs.Shipped.{texts_of};

use crate::{
    CC16_LRTL, CC16_SLED, RV32I_LRTL, RV32I_SLED, RV32IM_LRTL, RV32IM_SLED, TIN32_LRTL, TIN32_SLED,
};

/// What the instructions of a machine do, and their codes.
#[derive(Clone, Copy, Debug)]
pub struct Texts {
    pub lrtl: &'static [u8],
    pub sled: &'static [u8],
}

/// The texts of the machine of this name, where it is one of those that come with the program.
#[tactic(auto, unfolding(crate::specs::Shipped::texts_of))]
pub fn shipped(name: &[u8]) -> Option<Texts>
    ensures { option_map (λ texts. (texts.lrtl.now, texts.sled.now)) result ≡ texts_of name.now }
{
    if name == b"tin32".as_slice() {
        Some(Texts {
            lrtl: TIN32_LRTL,
            sled: TIN32_SLED,
        })
    } else if name == b"rv32im".as_slice() {
        Some(Texts {
            lrtl: RV32IM_LRTL,
            sled: RV32IM_SLED,
        })
    } else if name == b"rv32i".as_slice() {
        Some(Texts {
            lrtl: RV32I_LRTL,
            sled: RV32I_SLED,
        })
    } else if name == b"cc16".as_slice() {
        Some(Texts {
            lrtl: CC16_LRTL,
            sled: CC16_SLED,
        })
    } else {
        None
    }
}

#[cfg(test)]
mod tests {
    use super::*;

    /// Names, and what the two texts begin with.
    const ROWS: [(&[u8], &[u8], &[u8]); 4] = [
        (
            b"tin32",
            b"// tin32: ",
            b"// The codes of the instructions of tin32. ",
        ),
        (
            b"rv32im",
            b"// rv32im: ",
            b"// The codes of the instructions of rv32im. ",
        ),
        (
            b"rv32i",
            b"// rv32i: ",
            b"// The codes of the instructions of rv32i. ",
        ),
        (
            b"cc16",
            b"// cc16: ",
            b"// The codes of the instructions of cc16. ",
        ),
    ];

    #[test]
    fn machines_by_name(rt: HostRuntime) {
        for &(name, lrtl, sled) in &ROWS {
            let texts = shipped(name).expect(&rt, "a machine");
            assert!(rt; texts.lrtl.starts_with(lrtl), "{name:?}");
            assert!(rt; texts.sled.starts_with(sled), "{name:?}");
        }
        assert!(rt; shipped(b"rv64i").is_none());
    }
}
