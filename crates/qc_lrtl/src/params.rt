//! The reader of parameters and operands.
ghost use Rattle.std.specs.Prelude.{◌≡◌};
ghost use Rattle.qc_grammar.specs.ReaderResult.{Gives};
ghost use Rattle.qc_grammar.specs.Reading.{reads};
ghost use Rattle.qc_lrtl.specs.LambdaRtl.{lambda_rtl, arity, param, params, operand_kind};
ghost use Rattle.qc_lrtl.specs.LambdaRtl.{operand, operands};

use crate::syntax::{Operand, OperandKind, Param};
use qc_grammar::{Cursor, Number, Phrase, Stop, read_separated};
use qc_text::Kind;
use sqlite_items::Items;
use std::alloc::Global;

#[tactic(auto, unfolding(crate::specs::LambdaRtl::arity))]
fn read_arity(cursor: &mut Cursor<'_>) -> Result<Option<Number>, Stop>
    ensures { Gives result cursor.old cursor.new (reads lambda_rtl arity) }
{
    if cursor.is_word(b"/") {
        cursor.word(b"/")?;
        let arity = cursor.number()?;
        Ok(Some(arity))
    } else {
        Ok(None)
    }
}

#[tactic(auto, unfolding(crate::specs::LambdaRtl::param))]
fn read_param(alloc: Global, cursor: &mut Cursor<'_>) -> Result<Param, Stop>
    ensures { Gives result cursor.old cursor.new (reads lambda_rtl param) }
{
    let name = cursor.ident(alloc, Kind::Name)?;
    let arity = read_arity(cursor)?;
    Ok(Param { name, arity })
}

impl Phrase for Param {
    ghost use Rattle.qc_grammar.specs.Reading.{reads};
    ghost use Rattle.qc_lrtl.specs.LambdaRtl.{lambda_rtl, param, param_shortens};

    ghost reading = { reads lambda_rtl param };

    ghost shortens = { param_shortens };

    fn read(alloc: Global, cursor: &mut Cursor<'_>) -> Result<Param, Stop> {
        read_param(alloc, cursor)
    }
}

#[tactic(auto, unfolding(crate::specs::LambdaRtl::params))]
pub(crate) fn read_params(alloc: Global, cursor: &mut Cursor<'_>) -> Result<Items<Param>, Stop>
    ensures { Gives result cursor.old cursor.new (reads lambda_rtl params) }
{
    cursor.word(b"(")?;
    if cursor.is_word(b")") {
        cursor.word(b")")?;
        Ok(Items::new(alloc))
    } else {
        let params = read_separated::<Param>(alloc, cursor, b",")?;
        cursor.word(b")")?;
        Ok(params)
    }
}

#[tactic(auto, unfolding(crate::specs::LambdaRtl::operand_kind))]
fn read_kind(alloc: Global, cursor: &mut Cursor<'_>) -> Result<OperandKind, Stop>
    ensures { Gives result cursor.old cursor.new (reads lambda_rtl operand_kind) }
{
    if cursor.is_any(Kind::Name) {
        let space = cursor.ident(alloc, Kind::Name)?;
        Ok(OperandKind::Register { space })
    } else if cursor.is_word(b"imm") {
        let token = cursor.word(b"imm")?;
        let bits = cursor.number()?;
        Ok(OperandKind::Immediate { token, bits })
    } else {
        let token = cursor.word(b"addr")?;
        Ok(OperandKind::Address { token })
    }
}

#[tactic(auto, unfolding(crate::specs::LambdaRtl::operand))]
fn read_operand(alloc: Global, cursor: &mut Cursor<'_>) -> Result<Operand, Stop>
    ensures { Gives result cursor.old cursor.new (reads lambda_rtl operand) }
{
    let name = cursor.ident(alloc, Kind::Name)?;
    cursor.word(b":")?;
    let kind = read_kind(alloc, cursor)?;
    Ok(Operand { name, kind })
}

impl Phrase for Operand {
    ghost use Rattle.qc_grammar.specs.Reading.{reads};
    ghost use Rattle.qc_lrtl.specs.LambdaRtl.{lambda_rtl, operand, operand_shortens};

    ghost reading = { reads lambda_rtl operand };

    ghost shortens = { operand_shortens };

    fn read(alloc: Global, cursor: &mut Cursor<'_>) -> Result<Operand, Stop> {
        read_operand(alloc, cursor)
    }
}

#[tactic(auto, unfolding(crate::specs::LambdaRtl::operands))]
pub(crate) fn read_operands(alloc: Global, cursor: &mut Cursor<'_>) -> Result<Items<Operand>, Stop>
    ensures { Gives result cursor.old cursor.new (reads lambda_rtl operands) }
{
    cursor.word(b"(")?;
    if cursor.is_word(b")") {
        cursor.word(b")")?;
        Ok(Items::new(alloc))
    } else {
        let operands = read_separated::<Operand>(alloc, cursor, b",")?;
        cursor.word(b")")?;
        Ok(operands)
    }
}
