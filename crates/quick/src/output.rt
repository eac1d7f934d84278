//! The output of the system.
ghost use Rattle.std.specs.Prelude.{◌≡◌, None, refl};

use crate::files::{counted, write_whole};
use qc_outside::{Out, StoreEnd};
use std::alloc::Global;
use std::io;

/// The output of the system, of which nothing is known but its faults.
#[derive(Drop)]
pub(crate) struct StandardOut<'a, P> {
    rt: &'a P,
    faults: u64,
}

impl<'a, P: Print> StandardOut<'a, P> {
    pub(crate) fn new(rt: &'a P) -> StandardOut<'a, P>
        ensures { result.faults ≡ 0 }
    {
        StandardOut { rt, faults: 0 }
    }
}

impl<'a, P: Print> Out for StandardOut<'a, P> {
    ghost pieces = { λ _. None };

    ghost written = { λ _. None };

    ghost faults = { λ out. out.faults };

    ghost joined = { λ _. refl };

    fn put(&mut self, _alloc: Global, piece: &[u8]) -> Result<(), StoreEnd> {
        let put = write_whole(&mut io::writer(self.rt), piece);
        self.faults = counted(self.faults, matches!(put, Err(StoreEnd::Failed)));
        put
    }
}
