//! The reader of derivations, and of what stands for operands in them.
ghost use Rattle.std.specs.Prelude.{◌≡◌};
ghost use Rattle.qc_grammar.specs.ReaderResult.{Gives};
ghost use Rattle.qc_grammar.specs.Reading.{reads, first, next_in};
ghost use Rattle.qc_grammar.specs.Grammar.{nonterminal, onto};
ghost use Rattle.qc_tabletext.specs.TableText.{table_text, any_rest, derivation_of, child, derivation, child_of, register};
ghost use Rattle.qc_tabletext.specs.TableText.{parameter, cell_bound, constant, given, derived, binding, several, bindings};
ghost use Rattle.qc_tabletext.specs.TableText.{flag, rest};

use crate::expressions::read_any_expr;
use crate::heads::{begins_plain_head, named, read_instruction, read_plain_head};
use crate::steps::read_steps;
use crate::syntax::{RawBinding, RawDerivation, Rest};
use qc_grammar::{Cursor, Ident, Stop, read_separated_by};
use qc_text::Kind;
use sqlite_items::{Boxed, Items};
use std::alloc::Global;

impl Rest {
    /// The derivation by this instruction.
    fn under(self, instruction: Ident) -> RawDerivation
        ensures { result ≡ derivation_of instruction self }
    {
        RawDerivation {
            instruction,
            steps: self.steps,
            bindings: self.bindings,
            after: self.after,
        }
    }
}

#[cycle(derivations)]
fn read_any_rest(alloc: Global, cursor: &mut Cursor<'_>) -> Result<Rest, Stop>
    ensures { Gives result cursor.old cursor.new (reads table_text (nonterminal any_rest)) }
{
    read_rest(alloc, cursor)
}

#[tactic(auto, unfolding(crate::specs::TableText::rest))]
#[cycle(derivations)]
fn read_rest(alloc: Global, cursor: &mut Cursor<'_>) -> Result<Rest, Stop>
    ensures { Gives result cursor.old cursor.new (reads table_text rest) }
{
    let steps = read_steps(alloc, cursor)?;
    let bindings = read_bindings(alloc, cursor)?;
    let after = read_flag(alloc, cursor)?;
    Ok(Rest {
        steps,
        bindings,
        after,
    })
}

#[tactic(auto, unfolding(crate::specs::TableText::flag))]
#[cycle(derivations)]
fn read_flag(alloc: Global, cursor: &mut Cursor<'_>) -> Result<Option<Boxed<RawDerivation>>, Stop>
    ensures { Gives result cursor.old cursor.new (reads table_text flag) }
{
    if cursor.is_word(b"after") {
        cursor.word(b"after")?;
        let derivation = Boxed::new(alloc, read_derivation(alloc, cursor)?)?;
        Ok(Some(derivation))
    } else {
        Ok(None)
    }
}

#[tactic(auto, unfolding(crate::specs::TableText::derivation))]
#[cycle(derivations)]
pub(crate) fn read_derivation(alloc: Global, cursor: &mut Cursor<'_>) -> Result<RawDerivation, Stop>
    ensures { Gives result cursor.old cursor.new (reads table_text derivation) }
{
    let instruction = read_instruction(alloc, cursor)?;
    read_child(alloc, cursor, instruction)
}

/// What comes after an instruction.
#[tactic(auto, unfolding(crate::specs::TableText::child))]
#[cycle(derivations)]
fn read_child(
    alloc: Global,
    cursor: &mut Cursor<'_>,
    instruction: Ident,
) -> Result<RawDerivation, Stop>
    ensures { Gives result cursor.old cursor.new (reads table_text (onto instruction child)) }
{
    cursor.word(b"[")?;
    let rest = read_any_rest(alloc, cursor)?;
    Ok(rest.under(instruction))
}

/// What comes after a reserved word that is an instruction's name.
#[tactic(auto, unfolding(crate::specs::TableText::child_of))]
#[cycle(derivations)]
fn read_child_of(
    alloc: Global,
    cursor: &mut Cursor<'_>,
    token: usize,
    word: &[u8],
) -> Result<RawBinding, Stop>
    ensures { Gives result cursor.old cursor.new (reads table_text (onto token (child_of word.now))) }
{
    let instruction = named(alloc, token, word)?;
    let node = Boxed::new(alloc, read_child(alloc, cursor, instruction)?)?;
    Ok(RawBinding::Child { node })
}

#[tactic(auto, unfolding(crate::specs::TableText::binding))]
#[cycle(derivations)]
fn read_binding(alloc: Global, cursor: &mut Cursor<'_>) -> Result<RawBinding, Stop>
    ensures { Gives result cursor.old cursor.new (reads table_text binding) }
{
    if begins_derived(cursor) {
        read_derived(alloc, cursor)
    } else if begins_register(cursor) {
        read_register(alloc, cursor)
    } else {
        read_given(alloc, cursor)
    }
}

#[tactic(auto, unfolding(crate::specs::TableText::derived, crate::specs::TableText::plain_head, crate::specs::TableText::table_word, crate::specs::TableText::term_word))]
fn begins_derived(cursor: &Cursor<'_>) -> bool
    ensures { result ≡ next_in (first table_text derived) cursor.now }
{
    begins_plain_head(cursor)
}

#[tactic(auto, unfolding(crate::specs::TableText::derived))]
#[cycle(derivations)]
fn read_derived(alloc: Global, cursor: &mut Cursor<'_>) -> Result<RawBinding, Stop>
    ensures { Gives result cursor.old cursor.new (reads table_text derived) }
{
    let instruction = read_plain_head(alloc, cursor)?;
    let node = Boxed::new(alloc, read_child(alloc, cursor, instruction)?)?;
    Ok(RawBinding::Child { node })
}

#[tactic(auto, unfolding(crate::specs::TableText::register))]
fn begins_register(cursor: &Cursor<'_>) -> bool
    ensures { result ≡ next_in (first table_text register) cursor.now }
{
    cursor.is_word(b"own") || cursor.is_word(b"spare")
}

#[tactic(auto, unfolding(crate::specs::TableText::register, crate::specs::TableText::child_of, crate::specs::TableText::child))]
#[cycle(derivations)]
fn read_register(alloc: Global, cursor: &mut Cursor<'_>) -> Result<RawBinding, Stop>
    ensures { Gives result cursor.old cursor.new (reads table_text register) }
{
    if cursor.is_word(b"own") {
        let token = cursor.word(b"own")?;
        if cursor.is_word(b"[") {
            read_child_of(alloc, cursor, token, b"own")
        } else {
            Ok(RawBinding::Own { token })
        }
    } else {
        let token = cursor.word(b"spare")?;
        if cursor.is_word(b"[") {
            read_child_of(alloc, cursor, token, b"spare")
        } else {
            Ok(RawBinding::Spare { token })
        }
    }
}

#[tactic(auto, unfolding(crate::specs::TableText::given))]
#[cycle(derivations)]
fn read_given(alloc: Global, cursor: &mut Cursor<'_>) -> Result<RawBinding, Stop>
    ensures { Gives result cursor.old cursor.new (reads table_text given) }
{
    if cursor.is_word(b"par") {
        let token = cursor.word(b"par")?;
        read_parameter(alloc, cursor, token)
    } else if cursor.is_word(b"cell") {
        let token = cursor.word(b"cell")?;
        read_cell_bound(alloc, cursor, token)
    } else {
        let token = cursor.word(b"const")?;
        read_constant(alloc, cursor, token)
    }
}

#[tactic(auto, unfolding(crate::specs::TableText::parameter, crate::specs::TableText::child_of, crate::specs::TableText::child))]
#[cycle(derivations)]
fn read_parameter(alloc: Global, cursor: &mut Cursor<'_>, token: usize) -> Result<RawBinding, Stop>
    ensures { Gives result cursor.old cursor.new (reads table_text (onto token parameter)) }
{
    if cursor.is_word(b"[") {
        read_child_of(alloc, cursor, token, b"par")
    } else {
        let number = cursor.number()?;
        Ok(RawBinding::Parameter { token, number })
    }
}

#[tactic(auto, unfolding(crate::specs::TableText::cell_bound, crate::specs::TableText::child_of, crate::specs::TableText::child))]
#[cycle(derivations)]
fn read_cell_bound(alloc: Global, cursor: &mut Cursor<'_>, token: usize) -> Result<RawBinding, Stop>
    ensures { Gives result cursor.old cursor.new (reads table_text (onto token cell_bound)) }
{
    if cursor.is_word(b"[") {
        read_child_of(alloc, cursor, token, b"cell")
    } else {
        let space = cursor.ident(alloc, Kind::Name)?;
        let cell = cursor.number()?;
        Ok(RawBinding::Cell { token, space, cell })
    }
}

#[tactic(auto, unfolding(crate::specs::TableText::constant, crate::specs::TableText::child_of, crate::specs::TableText::child))]
#[cycle(derivations)]
fn read_constant(alloc: Global, cursor: &mut Cursor<'_>, token: usize) -> Result<RawBinding, Stop>
    ensures { Gives result cursor.old cursor.new (reads table_text (onto token constant)) }
{
    if cursor.is_word(b"[") {
        read_child_of(alloc, cursor, token, b"const")
    } else {
        let value = read_any_expr(alloc, cursor)?;
        Ok(RawBinding::Constant { token, value })
    }
}

#[tactic(auto, unfolding(crate::specs::TableText::bindings))]
#[cycle(derivations)]
fn read_bindings(alloc: Global, cursor: &mut Cursor<'_>) -> Result<Items<RawBinding>, Stop>
    ensures { Gives result cursor.old cursor.new (reads table_text bindings) }
{
    cursor.word(b"(")?;
    if cursor.is_word(b")") {
        cursor.word(b")")?;
        Ok(Items::new(alloc))
    } else {
        let bindings = read_several(alloc, cursor)?;
        cursor.word(b")")?;
        Ok(bindings)
    }
}

#[tactic(auto, unfolding(crate::specs::TableText::several))]
#[cycle(derivations)]
fn read_several(alloc: Global, cursor: &mut Cursor<'_>) -> Result<Items<RawBinding>, Stop>
    ensures { Gives result cursor.old cursor.new (reads table_text several) }
{
    read_separated_by(
        alloc,
        cursor,
        b",",
        |next: &mut Cursor<'_>| -> Result<RawBinding, Stop>
            ensures { Gives result next.old next.new (reads table_text binding) }
        { read_binding(alloc, next) },
    )
}
