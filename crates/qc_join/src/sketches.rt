//! What the constructors of a coding's text say of operations.
ghost use Rattle.std.specs.Prelude.{◌≡◌, ◌++◌, ◌+◌, ◌≤◌, [], ◌∷◌, All, List, ℕ, Option, IfOk, OnOk, is_some, length, map, min};
ghost use Rattle.qc_descr.specs.CodingFaults.{operand_sizes, operation_kinds};
ghost use Rattle.qc_descr.specs.Parts.{word_of};
ghost use Rattle.qc_sled.specs.declared.syntax.Item.{Item};
ghost use Rattle.qc_join.specs.Inner.Constructors.{AreTablesOf};
ghost use Rattle.qc_names.specs.ValueTables.{IsTableOf};
ghost use Rattle.qc_join.specs.Joining.{are_operands, misfit_sketch, named_operands, reach_of, reaches_of};
ghost use Rattle.qc_join.specs.Joining.{sketches_by, sketches_from, sketches_of};

use crate::constructors::{constructor_named, constructors};
use crate::expand::expanded;
use crate::expanded::{Expanded, FieldPlace, TokenUse};
use crate::fields::fields;
use crate::patterns::patterns;
use crate::scope::ScopeTables;
use qc_descr::{Given, OperandKind, Operation, Reach, Sketch, Space, operand_size, operand_sizes};
use qc_names::Declared;
use qc_sled::{Item, Param, Pattern, Reach as WrittenReach};
use qc_text::Text;
use qc_widths::Machine;
use qc_words::Width;
use sqlite_items::Items;
use std::alloc::{AllocError, Global};

/// The tables of what a text declares.
#[derive(Drop)]
pub(crate) struct ItemTables {
    pub(crate) fields: Declared<FieldPlace>,
    pub(crate) patterns: Declared<Expanded>,
    pub(crate) constructors: Declared<usize>,
}

/// The tables of items.
fn tables_of(alloc: Global, items: &[Item]) -> Result<ItemTables, AllocError>
    ensures { IfOk result (λ tables. AreTablesOf tables items.now) }
{
    let fields = fields(alloc, items)?;
    let patterns = patterns(alloc, items, &fields)?;
    let constructors = constructors(alloc, items)?;
    Ok(ItemTables {
        fields,
        patterns,
        constructors,
    })
}

/// The width of words: the given one, or 32 where none is given.
fn word_of(given: &Given) -> Width
    ensures { result ≡ word_of given.now }
{
    match given.word {
        Some(word) => word,
        None => Width::new(32).unwrap(),
    }
}

/// Whether the parameters have the operands' names, in order.
fn are_operands(operands: &[(Text, OperandKind)], params: &[Param]) -> bool
    ensures { result ≡ are_operands operands.now params.now }
{
    match operands {
        [] => params.is_empty(),
        [(name, _), operands @ ..] => match params {
            [] => false,
            [param, params @ ..] => {
                *param.name.text.as_slice() == *name.bytes() && are_operands(operands, params)
            }
        },
    }
}

/// A number of bits, of which those above 255 are kept as 255.
fn bits_up_to_255(bits: u128) -> u8
    ensures { result ≡ min bits 255 }
{
    if bits < 255 { bits as u8 } else { 255 }
}

/// A parameter's reach.
fn reach_of(reach: &Option<WrittenReach>) -> Reach
    ensures { result ≡ reach_of reach.now }
{
    match reach {
        None => Reach::Plain,
        Some(WrittenReach::Relative { bits, .. }) => Reach::Relative {
            bits: bits_up_to_255(bits.value),
        },
        Some(WrittenReach::Absolute { bits, .. }) => Reach::Absolute {
            bits: bits_up_to_255(bits.value),
        },
    }
}

/// The reaches of parameters.
fn reaches_of(alloc: Global, params: &[Param]) -> Result<Items<Reach>, AllocError>
    ensures { IfOk result (λ reaches. reaches ≡ reaches_of params.now) }
{
    let mut reaches = Items::new(alloc);
    for param in params {
        reaches.push(reach_of(&param.reach))?;
    }
    Ok(reaches)
}

/// Declares the operands of an instruction, of which the first has this number.
fn declare_operands(
    alloc: Global,
    table: &mut Declared<(u32, Option<u8>)>,
    word: Width,
    spaces: &[Space],
    number: u32,
    operands: &[(Text, OperandKind)],
    reaches: &[Reach],
) -> Result<(), AllocError>
    requires { number + length operands.now ≤ 8 }
    ensures { OnOk result ((pairs : List (List ℕ × (ℕ × Option ℕ))) → IsTableOf pairs table.old.values table.old.numbers
        → IsTableOf (pairs ++ named_operands word spaces.now number operands.now reaches.now) table.new.values table.new.numbers) }
{
    match operands {
        [] => Ok(()),
        [(name, kind), operands @ ..] => match reaches {
            [] => Ok(()),
            [reach, reaches @ ..] => {
                let size = operand_size(word, spaces, *kind, *reach);
                table.push(alloc, name.bytes(), (number, size))?;
                declare_operands(alloc, table, word, spaces, number + 1, operands, reaches)
            }
        },
    }
}

/// The table of the operands of an instruction, each with its number and its number of bits, if it has one.
fn operands(
    alloc: Global,
    machine: &Machine,
    operation: &Operation,
    reaches: &[Reach],
) -> Result<Declared<(u32, Option<u8>)>, AllocError>
    requires { length operation.now.operands ≤ 8 }
    ensures { IfOk result (λ table. IsTableOf (named_operands (word_of machine.now.given) machine.now.spaces 0
        operation.now.operands reaches.now) table.values table.numbers) }
{
    let mut table = Declared::new(alloc);
    let word = word_of(&machine.given);
    let spaces = machine.spaces.as_slice();
    declare_operands(
        alloc,
        &mut table,
        word,
        spaces,
        0,
        operation.operands.as_slice(),
        reaches,
    )?;
    Ok(table)
}

/// The sizes of a pattern's tokens in bits.
fn token_sizes(alloc: Global, tokens: &[TokenUse]) -> Result<Items<u8>, AllocError>
    ensures { IfOk result (λ sizes. sizes ≡ map (λ t. t.bits) tokens.now) }
{
    let mut sizes = Items::new(alloc);
    for token in tokens {
        sizes.push(token.bits)?;
    }
    Ok(sizes)
}

/// A sketch of what doesn't fit.
fn misfit_sketch(alloc: Global, reaches: Items<Reach>) -> Sketch
    ensures { result ≡ misfit_sketch reaches }
{
    Sketch {
        tokens: Items::new(alloc),
        claims: Items::new(alloc),
        reaches,
        misfit: true,
    }
}

/// A list of one alternative.
fn one_sketch(alloc: Global, sketch: Sketch) -> Result<Items<Sketch>, AllocError>
    ensures { IfOk result (λ sketches. sketches ≡ sketch ∷ []) }
{
    let mut sketches = Items::new(alloc);
    sketches.push(sketch)?;
    Ok(sketches)
}

/// The alternatives of what a pattern comes to. One fits where all operands have a size too.
fn sketches_from(
    alloc: Global,
    reaches: Items<Reach>,
    sized: bool,
    expanded: Expanded,
) -> Result<Items<Sketch>, AllocError>
    ensures { IfOk result (λ sketches. sketches ≡ sketches_from reaches sized expanded) }
{
    match expanded {
        Expanded::Several => Ok(Items::new(alloc)),
        Expanded::Unfit => one_sketch(alloc, misfit_sketch(alloc, reaches)),
        Expanded::Fit { tokens, claims } => {
            if !sized {
                return one_sketch(alloc, misfit_sketch(alloc, reaches));
            }
            let tokens = token_sizes(alloc, tokens.as_slice())?;
            one_sketch(
                alloc,
                Sketch {
                    tokens,
                    claims,
                    reaches,
                    misfit: false,
                },
            )
        }
    }
}

/// Whether each operand of an operation has a size with these reaches.
fn are_sized(machine: &Machine, operation: &Operation, reaches: &[Reach]) -> bool
    requires { length operation.now.operands ≤ 8 }
    ensures { result ≡ is_some (operand_sizes (word_of machine.now.given) machine.now.spaces
        (operation_kinds operation.now) reaches.now) }
{
    let word = word_of(&machine.given);
    let spaces = machine.spaces.as_slice();
    operand_sizes(word, spaces, operation.operands.as_slice(), reaches).is_some()
}

/// The alternatives of an operation by a constructor with parameters of the operands' names.
fn sketches_by(
    alloc: Global,
    machine: &Machine,
    tables: &ItemTables,
    operation: &Operation,
    params: &[Param],
    body: &Pattern,
) -> Result<Items<Sketch>, AllocError>
    requires { length operation.now.operands ≤ 8 }
    ensures { IfOk result (λ sketches. (items : List Item) → AreTablesOf tables.now items
        → sketches ≡ sketches_by machine.now items operation.now (record { params = params.now; body = body.now })) }
{
    let reaches = reaches_of(alloc, params)?;
    let operands = operands(alloc, machine, operation, reaches.as_slice())?;
    let scope = ScopeTables {
        fields: &tables.fields,
        patterns: &tables.patterns,
        operands: &operands,
    };
    let pattern = expanded(alloc, &scope, body)?;
    let sized = are_sized(machine, operation, reaches.as_slice());
    sketches_from(alloc, reaches, sized, pattern)
}

/// The alternatives of an operation: none where it has no constructor, or one of other parameters.
fn sketches_of(
    alloc: Global,
    machine: &Machine,
    items: &[Item],
    tables: &ItemTables,
    operation: &Operation,
) -> Result<Items<Sketch>, AllocError>
    requires few { length operation.now.operands ≤ 8 }
    requires tables { AreTablesOf tables.now items.now }
    ensures { IfOk result (λ sketches. sketches ≡ sketches_of machine.now items.now operation.now) }
{
    match constructor_named(items, &tables.constructors, operation.name.bytes()) {
        Some(Item::Constructor { params, body, .. }) => {
            if !are_operands(operation.operands.as_slice(), params.as_slice()) {
                return Ok(Items::new(alloc));
            }
            sketches_by(alloc, machine, tables, operation, params.as_slice(), body)
        }
        _ => Ok(Items::new(alloc)),
    }
}

/// The alternatives of all operations of a machine.
pub(crate) fn sketches(
    alloc: Global,
    machine: &Machine,
    items: &[Item],
) -> Result<Items<Items<Sketch>>, AllocError>
    requires { All (λ o. length o.operands ≤ 8) machine.now.operations }
    ensures { IfOk result (λ sketches. sketches ≡ map (sketches_of machine.now items.now) machine.now.operations) }
{
    let tables = tables_of(alloc, items)?;
    let mut sketches = Items::new(alloc);
    for operation in machine.operations.as_slice() {
        sketches.push(sketches_of(alloc, machine, items, &tables, operation)?)?;
    }
    Ok(sketches)
}
