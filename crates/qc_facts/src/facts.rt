//! What all expressions of a machine are written for.
ghost use Rattle.qc_facts.specs.Facts.{kind_faults};

use crate::faults::WidthFault;
use crate::numbers::{width_fault, width_in};
use crate::spaces::{spaces_of, word_of};
use qc_grammar::{Ident, Number};
use qc_lrtl::{Item, OperandKind};
use qc_names::NameTable;
use qc_terms::Place;
use qc_text::Text;
use qc_words::Width;
use sqlite_items::Items;
use std::alloc::{AllocError, Global};
use std::marker::Model;

/// A space that a text declares: its number of cells, and their width where the number that is given is one.
#[derive(Debug, Drop)]
pub struct SpaceFacts {
    pub name: Text,
    pub cells: u128,
    pub width: Option<Width>,
    pub flags: bool,
}

/// What an operand is: a register of a space, whose cells have a width, an immediate of a width, or an address.
#[derive(Clone, Copy, Debug, PartialEq, Eq)]
pub enum OperandFacts {
    Register { space: u32, width: Option<Width> },
    Immediate { width: Option<Width> },
    Address,
}

/// A register operand or a cell that an effect may change, with the width of its space's cells.
#[derive(Clone, Copy, Debug, PartialEq, Eq)]
pub struct Target {
    pub place: Place,
    pub width: Option<Width>,
}

/// What is known of a parameter or an operand without its use: it is plain, and fits as a target or doesn't, or it is a
/// function of so many plain arguments.
#[derive(Clone, Copy, Debug, PartialEq, Eq)]
pub enum Local {
    Plain { fits: bool },
    Applied { arity: u128 },
}

/// The width of a machine's words, where it is known, and its spaces in order. Contracts see it as that.
#[derive(Debug, Drop)]
pub struct Facts {
    word: Option<Width>,
    spaces: Items<SpaceFacts>,
    table: NameTable,
}

impl Model for Facts {
    ghost use Rattle.qc_facts.specs.Facts.{Facts as SpecFacts};
    ghost use Rattle.qc_facts.specs.SpaceTables.{HasTable};

    ghost Value = { SpecFacts };

    ghost view = { λ f. record { word = f.word; spaces = f.spaces } };

    ghost invariant = { λ f. HasTable f.spaces f.table };
}

impl Facts {
    ghost use Rattle.std.specs.Prelude.{◌≡◌, ◌<◌, ◌≤◌, ◌^◌, length, IfOk, IfSome};
    ghost use Rattle.std.specs.Option.{option_map};
    ghost use Rattle.qc_facts.specs.Faults.{reported};
    ghost use Rattle.qc_facts.specs.Facts.{cell_named, cell_faults, space_named};
    ghost use Rattle.qc_facts.specs.Facts.{place_of, facts_in, facts_of_operand};
    ghost use Rattle.qc_facts.specs.Facts.{kind_faults};

    /// The facts that the items declare.
    pub fn new(alloc: Global, items: &[Item]) -> Result<Facts, AllocError>
        ensures { IfOk result (λ f. f ≡ facts_in items.now) }
    {
        let word = word_of(items);
        let (spaces, table) = spaces_of(alloc, items)?;
        Ok(Facts {
            word,
            spaces,
            table,
        })
    }

    /// The width of words.
    pub fn word(&self) -> Option<Width>
        ensures { result ≡ self.now.word }
    {
        self.word
    }

    /// The spaces in order.
    pub fn spaces(&self) -> &[SpaceFacts]
        ensures is { result.now ≡ self.now.spaces }
        ensures few { length self.now.spaces < 2 ^ 32 }
    {
        self.spaces.as_slice()
    }

    /// The first space of a name, with its place.
    fn space(&self, name: &[u8]) -> Option<(u32, &SpaceFacts)>
        ensures is { option_map (λ p. (p.0, p.1.now)) result ≡ space_named self.now name.now }
        ensures cells { IfSome result (λ p. p.1.now.cells ≤ 2 ^ 64) }
    {
        match self.table.number(name) {
            None => None,
            Some(place) => match self.spaces.get(place) {
                None => None,
                Some(facts) => Some((place as u32, facts)),
            },
        }
    }

    /// The place of the first space of a name.
    pub fn place(&self, name: &[u8]) -> Option<u32>
        ensures { result ≡ place_of (space_named self.now name.now) }
    {
        match self.space(name) {
            None => None,
            Some((place, _)) => Some(place),
        }
    }

    /// The cell of a number in the space of a name.
    pub fn cell(&self, space: &Ident, cell: &Number) -> Option<Target>
        ensures { result ≡ cell_named self.now space.now cell.now }
    {
        match self.space(space.text.as_slice()) {
            Some((place, facts)) => {
                if cell.value < facts.cells {
                    let index = cell.value as u64;
                    Some(Target {
                        place: Place::Cell {
                            space: place,
                            index,
                        },
                        width: facts.width,
                    })
                } else {
                    None
                }
            }
            None => None,
        }
    }

    /// The fault of a cell that is named.
    pub fn cell_fault(&self, space: &Ident, cell: &Number) -> Option<WidthFault>
        ensures { result ≡ reported (cell_faults self.now space.now cell.now) }
    {
        match self.space(space.text.as_slice()) {
            Some((_, facts)) => {
                if cell.value < facts.cells {
                    None
                } else {
                    Some(WidthFault::UnknownName { token: cell.token })
                }
            }
            None => Some(WidthFault::UnknownName { token: space.token }),
        }
    }

    /// What an operand of a kind is; if the space that it names is unknown a register of any.
    pub fn operand(&self, kind: &OperandKind) -> OperandFacts
        ensures { result ≡ facts_of_operand self.now kind.now }
    {
        match kind {
            OperandKind::Register { space } => match self.space(space.text.as_slice()) {
                Some((place, facts)) => OperandFacts::Register {
                    space: place,
                    width: facts.width,
                },
                None => OperandFacts::Register {
                    space: 0,
                    width: None,
                },
            },
            OperandKind::Immediate { bits, .. } => OperandFacts::Immediate {
                width: width_in(bits),
            },
            OperandKind::Address { .. } => OperandFacts::Address,
        }
    }

    /// The fault of an operand's kind.
    pub fn kind_fault(&self, kind: &OperandKind) -> Option<WidthFault>
        ensures { result ≡ reported (kind_faults self.now kind.now) }
    {
        match kind {
            OperandKind::Register { space } => match self.place(space.text.as_slice()) {
                Some(_) => None,
                None => Some(WidthFault::UnknownName { token: space.token }),
            },
            OperandKind::Immediate { bits, .. } => width_fault(bits),
            OperandKind::Address { .. } => None,
        }
    }
}
