//! The reader of items: facts of a machine, and declarations.
ghost use Rattle.std.specs.Prelude.{◌≡◌};
ghost use Rattle.qc_grammar.specs.ReaderResult.{Gives};
ghost use Rattle.qc_grammar.specs.Reading.{reads, first, next_in};
ghost use Rattle.qc_grammar.specs.Grammar.{nonterminal};
ghost use Rattle.qc_lrtl.specs.LambdaRtl.{lambda_rtl, order, single, region, flags, role, of_cells, instruction};
ghost use Rattle.qc_lrtl.specs.LambdaRtl.{declaration, item, ended_item, items};

use crate::effects::read_rtl;
use crate::expressions::read_any_expr;
use crate::params::{read_operands, read_params};
use crate::syntax::{ByteOrder, Item};
use qc_grammar::{Beginning, Cursor, Phrase, Stop, read_many};
use qc_text::Kind;
use sqlite_items::Items;
use std::alloc::Global;

#[tactic(auto, unfolding(crate::specs::LambdaRtl::order))]
fn read_order(cursor: &mut Cursor<'_>) -> Result<ByteOrder, Stop>
    ensures { Gives result cursor.old cursor.new (reads lambda_rtl order) }
{
    if cursor.is_word(b"little") {
        cursor.word(b"little")?;
        Ok(ByteOrder::Little)
    } else {
        cursor.word(b"big")?;
        Ok(ByteOrder::Big)
    }
}

#[tactic(auto, unfolding(crate::specs::LambdaRtl::single))]
fn read_single(cursor: &mut Cursor<'_>) -> Result<Item, Stop>
    ensures { Gives result cursor.old cursor.new (reads lambda_rtl single) }
{
    if cursor.is_word(b"word") {
        let token = cursor.word(b"word")?;
        let bits = cursor.number()?;
        Ok(Item::Word { token, bits })
    } else if cursor.is_word(b"byteorder") {
        let token = cursor.word(b"byteorder")?;
        let order = read_order(cursor)?;
        Ok(Item::ByteOrder { token, order })
    } else if cursor.is_word(b"align") {
        let token = cursor.word(b"align")?;
        let bytes = cursor.number()?;
        Ok(Item::Align { token, bytes })
    } else {
        let token = cursor.word(b"slotbits")?;
        let bits = cursor.number()?;
        Ok(Item::SlotBits { token, bits })
    }
}

#[tactic(auto, unfolding(crate::specs::LambdaRtl::region))]
fn read_region(cursor: &mut Cursor<'_>) -> Result<Item, Stop>
    ensures { Gives result cursor.old cursor.new (reads lambda_rtl region) }
{
    if cursor.is_word(b"memory") {
        let token = cursor.word(b"memory")?;
        let bytes = cursor.number()?;
        Ok(Item::Memory { token, bytes })
    } else if cursor.is_word(b"code") {
        let token = cursor.word(b"code")?;
        let end = cursor.number()?;
        Ok(Item::Code { token, end })
    } else {
        let token = cursor.word(b"data")?;
        let end = cursor.number()?;
        Ok(Item::Data { token, end })
    }
}

#[tactic(auto, unfolding(crate::specs::LambdaRtl::flags))]
fn read_flags(cursor: &mut Cursor<'_>) -> Result<bool, Stop>
    ensures { Gives result cursor.old cursor.new (reads lambda_rtl flags) }
{
    if cursor.is_word(b"flags") {
        cursor.word(b"flags")?;
        Ok(true)
    } else {
        Ok(false)
    }
}

#[tactic(auto, unfolding(crate::specs::LambdaRtl::role))]
fn read_role(alloc: Global, cursor: &mut Cursor<'_>) -> Result<Item, Stop>
    ensures { Gives result cursor.old cursor.new (reads lambda_rtl role) }
{
    if cursor.is_word(b"zero") {
        let token = cursor.word(b"zero")?;
        let space = cursor.ident(alloc, Kind::Name)?;
        let cell = cursor.number()?;
        Ok(Item::Zero { token, space, cell })
    } else if cursor.is_word(b"frame") {
        let token = cursor.word(b"frame")?;
        let space = cursor.ident(alloc, Kind::Name)?;
        let cell = cursor.number()?;
        Ok(Item::Frame { token, space, cell })
    } else if cursor.is_word(b"link") {
        let token = cursor.word(b"link")?;
        let space = cursor.ident(alloc, Kind::Name)?;
        let cell = cursor.number()?;
        Ok(Item::Link { token, space, cell })
    } else {
        let token = cursor.word(b"allocatable")?;
        let space = cursor.ident(alloc, Kind::Name)?;
        let first = cursor.number()?;
        cursor.word(b"..")?;
        let last = cursor.number()?;
        Ok(Item::Allocatable {
            token,
            space,
            first,
            last,
        })
    }
}

#[tactic(auto, unfolding(crate::specs::LambdaRtl::of_cells))]
fn read_of_cells(alloc: Global, cursor: &mut Cursor<'_>) -> Result<Item, Stop>
    ensures { Gives result cursor.old cursor.new (reads lambda_rtl of_cells) }
{
    if cursor.is_word(b"space") {
        let token = cursor.word(b"space")?;
        let name = cursor.ident(alloc, Kind::Name)?;
        let cells = cursor.number()?;
        cursor.word(b"cells")?;
        let bits = cursor.number()?;
        cursor.word(b"bits")?;
        let flags = read_flags(cursor)?;
        Ok(Item::Space {
            token,
            name,
            cells,
            bits,
            flags,
        })
    } else {
        read_role(alloc, cursor)
    }
}

#[tactic(auto, unfolding(crate::specs::LambdaRtl::instruction))]
fn read_instruction(alloc: Global, cursor: &mut Cursor<'_>) -> Result<Item, Stop>
    ensures { Gives result cursor.old cursor.new (reads lambda_rtl instruction) }
{
    let token = cursor.word(b"instr")?;
    let name = cursor.ident(alloc, Kind::Name)?;
    let operands = read_operands(alloc, cursor)?;
    cursor.word(b"=")?;
    let body = read_rtl(alloc, cursor)?;
    Ok(Item::Instruction {
        token,
        name,
        operands,
        body,
    })
}

#[tactic(auto, unfolding(crate::specs::LambdaRtl::declaration))]
fn read_declaration(alloc: Global, cursor: &mut Cursor<'_>) -> Result<Item, Stop>
    ensures { Gives result cursor.old cursor.new (reads lambda_rtl declaration) }
{
    if cursor.is_word(b"fun") {
        let token = cursor.word(b"fun")?;
        let name = cursor.ident(alloc, Kind::Name)?;
        let params = read_params(alloc, cursor)?;
        cursor.word(b"=")?;
        let body = read_any_expr(alloc, cursor)?;
        Ok(Item::Function {
            token,
            name,
            params,
            body,
        })
    } else if cursor.is_word(b"eff") {
        let token = cursor.word(b"eff")?;
        let name = cursor.ident(alloc, Kind::Name)?;
        let params = read_params(alloc, cursor)?;
        cursor.word(b"=")?;
        let body = read_rtl(alloc, cursor)?;
        Ok(Item::Effects {
            token,
            name,
            params,
            body,
        })
    } else {
        read_instruction(alloc, cursor)
    }
}

#[tactic(auto, unfolding(crate::specs::LambdaRtl::single))]
fn begins_single(cursor: &Cursor<'_>) -> bool
    ensures { result ≡ next_in (first lambda_rtl single) cursor.now }
{
    cursor.is_word(b"word")
        || cursor.is_word(b"byteorder")
        || cursor.is_word(b"align")
        || cursor.is_word(b"slotbits")
}

#[tactic(auto, unfolding(crate::specs::LambdaRtl::region))]
fn begins_region(cursor: &Cursor<'_>) -> bool
    ensures { result ≡ next_in (first lambda_rtl region) cursor.now }
{
    cursor.is_word(b"memory") || cursor.is_word(b"code") || cursor.is_word(b"data")
}

#[tactic(auto, unfolding(crate::specs::LambdaRtl::of_cells, crate::specs::LambdaRtl::role))]
fn begins_of_cells(cursor: &Cursor<'_>) -> bool
    ensures { result ≡ next_in (first lambda_rtl of_cells) cursor.now }
{
    cursor.is_word(b"space")
        || cursor.is_word(b"zero")
        || cursor.is_word(b"frame")
        || cursor.is_word(b"link")
        || cursor.is_word(b"allocatable")
}

#[tactic(auto, unfolding(crate::specs::LambdaRtl::declaration, crate::specs::LambdaRtl::instruction))]
fn begins_declaration(cursor: &Cursor<'_>) -> bool
    ensures { result ≡ next_in (first lambda_rtl declaration) cursor.now }
{
    cursor.is_word(b"fun") || cursor.is_word(b"eff") || cursor.is_word(b"instr")
}

fn begins_item(cursor: &Cursor<'_>) -> bool
    ensures { result ≡ next_in (first lambda_rtl ended_item) cursor.now }
{
    begins_single(cursor)
        || begins_region(cursor)
        || begins_of_cells(cursor)
        || begins_declaration(cursor)
}

#[tactic(auto, unfolding(crate::specs::LambdaRtl::item))]
fn read_item(alloc: Global, cursor: &mut Cursor<'_>) -> Result<Item, Stop>
    ensures { Gives result cursor.old cursor.new (reads lambda_rtl item) }
{
    if begins_single(cursor) {
        read_single(cursor)
    } else if begins_region(cursor) {
        read_region(cursor)
    } else if begins_of_cells(cursor) {
        read_of_cells(alloc, cursor)
    } else {
        read_declaration(alloc, cursor)
    }
}

#[tactic(auto, unfolding(crate::specs::LambdaRtl::ended_item))]
fn read_ended_item(alloc: Global, cursor: &mut Cursor<'_>) -> Result<Item, Stop>
    ensures { Gives result cursor.old cursor.new (reads lambda_rtl ended_item) }
{
    let item = read_item(alloc, cursor)?;
    cursor.word(b";")?;
    Ok(item)
}

impl Phrase for Item {
    ghost use Rattle.qc_grammar.specs.Reading.{reads};
    ghost use Rattle.qc_lrtl.specs.LambdaRtl.{lambda_rtl, ended_item, ended_item_shortens};

    ghost reading = { reads lambda_rtl ended_item };

    ghost shortens = { ended_item_shortens };

    fn read(alloc: Global, cursor: &mut Cursor<'_>) -> Result<Item, Stop> {
        read_ended_item(alloc, cursor)
    }
}

impl Beginning for Item {
    ghost use Rattle.qc_grammar.specs.Reading.{first};
    ghost use Rattle.qc_lrtl.specs.LambdaRtl.{lambda_rtl, ended_item};

    ghost classes = { first lambda_rtl ended_item };

    fn begins(cursor: &Cursor<'_>) -> bool {
        begins_item(cursor)
    }
}

#[tactic(auto, unfolding(crate::specs::LambdaRtl::items))]
pub(crate) fn read_items(alloc: Global, cursor: &mut Cursor<'_>) -> Result<Items<Item>, Stop>
    ensures { Gives result cursor.old cursor.new (reads lambda_rtl items) }
{
    read_many::<Item>(alloc, cursor)
}
