//! The comparison of values that have no `==`, and of lists of them.
ghost use Rattle.std.specs.Prelude.{◌≡◌, ◌↔◌, IsTrue};

use qc_descr::{Bit, OperandKind, Reach};
use qc_text::Text;

/// A value that can be compared.
pub(crate) trait Same {
    /// Whether the two are equal.
    fn same(&self, other: &Self) -> bool
        ensures { IsTrue result ↔ (self.now ≡ other.now) };
}

/// Whether two lists are equal: each has as many elements as the other, and equal ones in the same order.
pub(crate) fn same_items<T: Same>(a: &[T], b: &[T]) -> bool
    ensures { IsTrue result ↔ (a.now ≡ b.now) }
{
    let mut rest = b;
    for item in a {
        match rest {
            [] => return false,
            [other, others @ ..] => {
                if !item.same(other) {
                    return false;
                }
                rest = others;
            }
        }
    }
    rest.is_empty()
}

impl<T: Same> Same for Option<T> {
    fn same(&self, other: &Option<T>) -> bool {
        match self {
            Some(value) => match other {
                Some(another) => value.same(another),
                None => false,
            },
            None => other.is_none(),
        }
    }
}

impl Same for u8 {
    fn same(&self, other: &u8) -> bool {
        *self == *other
    }
}

impl Same for Bit {
    fn same(&self, other: &Bit) -> bool {
        *self == *other
    }
}

impl Same for Reach {
    fn same(&self, other: &Reach) -> bool {
        *self == *other
    }
}

impl Same for (Text, OperandKind) {
    fn same(&self, other: &(Text, OperandKind)) -> bool {
        self.0.bytes() == other.0.bytes() && self.1 == other.1
    }
}
