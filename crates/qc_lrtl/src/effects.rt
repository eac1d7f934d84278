//! The reader of effects.
ghost use Rattle.std.specs.Prelude.{◌≡◌};
ghost use Rattle.qc_grammar.specs.ReaderResult.{Gives};
ghost use Rattle.qc_grammar.specs.Reading.{reads};
ghost use Rattle.qc_grammar.specs.Grammar.{onto};
ghost use Rattle.qc_lrtl.specs.LambdaRtl.{lambda_rtl, after_target, simple, guard, effect, rtl};

use crate::expressions::{read_address, read_any_expr, read_arguments, read_assigned, read_cell};
use crate::syntax::{Effect, Guard, Simple};
use qc_grammar::{Cursor, Ident, Phrase, Stop, read_separated};
use qc_text::Kind;
use sqlite_items::Items;
use std::alloc::Global;

#[tactic(auto, unfolding(crate::specs::LambdaRtl::after_target, crate::specs::LambdaRtl::assigned, crate::specs::LambdaRtl::cell))]
fn read_after_target(alloc: Global, cursor: &mut Cursor<'_>, name: Ident) -> Result<Simple, Stop>
    ensures { Gives result cursor.old cursor.new (reads lambda_rtl (onto name after_target)) }
{
    if cursor.is_word(b":=") {
        let value = read_assigned(alloc, cursor)?;
        Ok(Simple::Name { name, value })
    } else if cursor.is_word(b"[") {
        let cell = read_cell(cursor)?;
        let value = read_assigned(alloc, cursor)?;
        Ok(Simple::Cell {
            space: name,
            cell,
            value,
        })
    } else {
        cursor.word(b"(")?;
        let args = read_arguments(alloc, cursor)?;
        Ok(Simple::Use { name, args })
    }
}

#[tactic(auto, unfolding(crate::specs::LambdaRtl::simple))]
fn read_simple(alloc: Global, cursor: &mut Cursor<'_>) -> Result<Simple, Stop>
    ensures { Gives result cursor.old cursor.new (reads lambda_rtl simple) }
{
    if cursor.is_any(Kind::Name) {
        let name = cursor.ident(alloc, Kind::Name)?;
        read_after_target(alloc, cursor, name)
    } else if cursor.is_word(b"mem") {
        let token = cursor.word(b"mem")?;
        let bits = cursor.number()?;
        let address = read_address(alloc, cursor)?;
        let value = read_assigned(alloc, cursor)?;
        Ok(Simple::Mem {
            token,
            bits,
            address,
            value,
        })
    } else if cursor.is_word(b"pc") {
        let token = cursor.word(b"pc")?;
        let value = read_assigned(alloc, cursor)?;
        Ok(Simple::Pc { token, value })
    } else if cursor.is_word(b"out") {
        let token = cursor.word(b"out")?;
        let value = read_assigned(alloc, cursor)?;
        Ok(Simple::Out { token, value })
    } else if cursor.is_word(b"halt") {
        let token = cursor.word(b"halt")?;
        let value = read_assigned(alloc, cursor)?;
        Ok(Simple::Halt { token, value })
    } else {
        let token = cursor.word(b"trap")?;
        let value = read_assigned(alloc, cursor)?;
        Ok(Simple::Trap { token, value })
    }
}

#[tactic(auto, unfolding(crate::specs::LambdaRtl::guard))]
fn read_guard(alloc: Global, cursor: &mut Cursor<'_>) -> Result<Option<Guard>, Stop>
    ensures { Gives result cursor.old cursor.new (reads lambda_rtl guard) }
{
    if cursor.is_word(b"when") {
        let token = cursor.word(b"when")?;
        let condition = read_any_expr(alloc, cursor)?;
        cursor.word(b"=>")?;
        Ok(Some(Guard { token, condition }))
    } else {
        Ok(None)
    }
}

#[tactic(auto, unfolding(crate::specs::LambdaRtl::effect))]
fn read_effect(alloc: Global, cursor: &mut Cursor<'_>) -> Result<Effect, Stop>
    ensures { Gives result cursor.old cursor.new (reads lambda_rtl effect) }
{
    let guard = read_guard(alloc, cursor)?;
    let simple = read_simple(alloc, cursor)?;
    Ok(Effect { guard, simple })
}

impl Phrase for Effect {
    ghost use Rattle.qc_grammar.specs.Reading.{reads};
    ghost use Rattle.qc_lrtl.specs.LambdaRtl.{lambda_rtl, effect, effect_shortens};

    ghost reading = { reads lambda_rtl effect };

    ghost shortens = { effect_shortens };

    fn read(alloc: Global, cursor: &mut Cursor<'_>) -> Result<Effect, Stop> {
        read_effect(alloc, cursor)
    }
}

#[tactic(auto, unfolding(crate::specs::LambdaRtl::rtl))]
pub(crate) fn read_rtl(alloc: Global, cursor: &mut Cursor<'_>) -> Result<Items<Effect>, Stop>
    ensures { Gives result cursor.old cursor.new (reads lambda_rtl rtl) }
{
    read_separated::<Effect>(alloc, cursor, b"|")
}
