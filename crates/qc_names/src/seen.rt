//! Names that are declared one after the other.
ghost use Rattle.std.specs.Prelude.{◌≡◌, OnOk, OnErr};
ghost use Rattle.qc_names.specs.Seen.{none_seen, noted};

use crate::fault::{TokenFault, earlier};
use crate::name_table::NameTable;
use qc_grammar::Ident;
use std::alloc::{AllocError, Global};

/// Names that were seen, and the fault that is reported of those that repeat one.
#[derive(Drop)]
pub struct Seen<F> {
    pub names: NameTable,
    pub fault: Option<F>,
}

impl<F: TokenFault> Seen<F> {
    /// Before any name is seen.
    pub fn new(alloc: Global) -> Seen<F>
        ensures { result ≡ none_seen }
    {
        Seen {
            names: NameTable::new(alloc),
            fault: None,
        }
    }

    /// Sees a text that is a name at a token, which is a fault if it was seen.
    #[tactic(auto, unfolding(crate::specs::Seen::noted))]
    pub fn see_text(&mut self, alloc: Global, token: usize, name: &[u8]) -> Result<(), AllocError>
        ensures after { OnOk result (self.new
            ≡ noted F.token_of F.rank_of F.twice self.old (record { token = token; text = name.now })) }
        ensures kept { OnErr result (self.new ≡ self.old) }
    {
        let fault = if self.names.enter(alloc, name, 0)? {
            Some(F::second_at(token))
        } else {
            None
        };
        self.fault = earlier(self.fault, fault);
        Ok(())
    }

    /// Sees a name, which is a fault if it was seen.
    pub fn see(&mut self, alloc: Global, name: &Ident) -> Result<(), AllocError>
        ensures after { OnOk result (self.new ≡ noted F.token_of F.rank_of F.twice self.old name.now) }
        ensures kept { OnErr result (self.new ≡ self.old) }
    {
        self.see_text(alloc, name.token, name.text.as_slice())
    }
}
