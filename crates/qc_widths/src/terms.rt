//! Copies of terms.
ghost use Rattle.std.specs.Prelude.{◌≡◌, IfOk};

use qc_terms::Term;
use sqlite_items::Boxed;
use std::alloc::{AllocError, Global};

/// A copy of a term.
pub(crate) fn copy_term(alloc: Global, term: &Term) -> Result<Term, AllocError>
    ensures { IfOk result (λ copy. copy ≡ term.now) }
{
    match term {
        Term::Num { value, width } => Ok(Term::Num {
            value: *value,
            width: *width,
        }),
        Term::Un { op, arg } => {
            let arg = Boxed::new(alloc, copy_term(alloc, arg.get())?)?;
            Ok(Term::Un { op: *op, arg })
        }
        Term::Bin { op, left, right } => {
            let left = Boxed::new(alloc, copy_term(alloc, left.get())?)?;
            let right = Boxed::new(alloc, copy_term(alloc, right.get())?)?;
            Ok(Term::Bin {
                op: *op,
                left,
                right,
            })
        }
        Term::Reg { place, width } => Ok(Term::Reg {
            place: *place,
            width: *width,
        }),
        Term::Imm { operand, width } => Ok(Term::Imm {
            operand: *operand,
            width: *width,
        }),
        Term::Mem { width, address } => {
            let address = Boxed::new(alloc, copy_term(alloc, address.get())?)?;
            Ok(Term::Mem {
                width: *width,
                address,
            })
        }
        Term::Input { width } => Ok(Term::Input { width: *width }),
        Term::After { width } => Ok(Term::After { width: *width }),
    }
}
