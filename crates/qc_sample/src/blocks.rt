//! Blocks: an example of a list that ends with a phrase which may begin as its items do.
ghost use Rattle.std.specs.Prelude.{◌≡◌, length};
ghost use Rattle.qc_grammar.specs.TokenSpans.{InSource, IsEnded};
ghost use Rattle.qc_grammar.specs.Lexeme.{lexemes_from};
ghost use Rattle.qc_grammar.specs.ReaderResult.{Gives};
ghost use Rattle.qc_grammar.specs.Reading.{reads};
ghost use Rattle.qc_grammar.specs.Grammar.{nonterminal, text};
ghost use Rattle.qc_grammar.specs.Answer.{Answers};
ghost use Rattle.qc_grammar.specs.TextAnswer.{AnswersText};
ghost use Rattle.qc_sample.specs.Sample.{vocabulary};
ghost use Rattle.qc_sample.specs.Blocks.{blocks, part, any_rest, block};

use crate::reader::SampleWords;
use qc_grammar::{
    ClassedToken, Cursor, Ident, ItemOrLast, Number, ReadError, ReadTextEnd, Stop, UntilLast,
    answer, begin, read_until_last, scan, settle,
};
use qc_text::Kind;
use sqlite_items::Items;
use std::alloc::Global;

/// A name, and its type.
#[derive(Debug, Drop)]
pub struct Declaration {
    pub name: Ident,
    pub type_of: Ident,
}

/// A name, and its value.
#[derive(Debug, Drop)]
pub struct Assignment {
    pub name: Ident,
    pub value: Number,
}

/// Declarations, and perhaps a result.
#[derive(Debug, Drop)]
pub struct Block {
    pub declarations: Items<Declaration>,
    pub result: Option<Assignment>,
}

/// A declaration, the result, or the end without one.
#[tactic(auto, unfolding(crate::specs::Blocks::part, crate::specs::Blocks::declares, crate::specs::Blocks::assigns, crate::specs::Blocks::ends))]
fn read_part(
    alloc: Global,
    cursor: &mut Cursor<'_>,
) -> Result<ItemOrLast<Declaration, Option<Assignment>>, Stop>
    ensures { Gives result cursor.old cursor.new (reads blocks part) }
{
    if cursor.is_any(Kind::Name) {
        let name = cursor.ident(alloc, Kind::Name)?;
        if cursor.is_word(b":") {
            cursor.word(b":")?;
            let type_of = cursor.ident(alloc, Kind::Name)?;
            cursor.word(b";")?;
            Ok(ItemOrLast::Item {
                item: Declaration { name, type_of },
            })
        } else {
            cursor.word(b"=")?;
            let value = cursor.number()?;
            cursor.word(b"}")?;
            Ok(ItemOrLast::Last {
                last: Some(Assignment { name, value }),
            })
        }
    } else {
        cursor.word(b"}")?;
        Ok(ItemOrLast::Last { last: None })
    }
}

impl UntilLast for Declaration {
    ghost use Rattle.qc_grammar.specs.Reading.{reads};
    ghost use Rattle.qc_sample.specs.Blocks.{blocks, part, part_shortens};

    type Last = Option<Assignment>;

    ghost reading = { reads blocks part };

    ghost shortens = { part_shortens };

    fn read(
        alloc: Global,
        cursor: &mut Cursor<'_>,
    ) -> Result<ItemOrLast<Declaration, Option<Assignment>>, Stop> {
        read_part(alloc, cursor)
    }
}

fn read_rest(
    alloc: Global,
    cursor: &mut Cursor<'_>,
) -> Result<(Items<Declaration>, Option<Assignment>), Stop>
    ensures { Gives result cursor.old cursor.new (reads blocks (nonterminal any_rest)) }
{
    read_until_last::<Declaration>(alloc, cursor)
}

#[tactic(auto, unfolding(crate::specs::Blocks::block))]
fn read_whole_block(alloc: Global, cursor: &mut Cursor<'_>) -> Result<Block, Stop>
    ensures { Gives result cursor.old cursor.new (reads blocks (text block)) }
{
    cursor.word(b"{")?;
    let (declarations, result) = read_rest(alloc, cursor)?;
    cursor.end()?;
    Ok(Block {
        declarations,
        result,
    })
}

/// The tree that the tokens of a source spell.
fn read_block_tokens(
    alloc: Global,
    source: &[u8],
    tokens: &[ClassedToken],
) -> Result<Block, ReadError>
    requires inside { InSource (length source.now) tokens.now }
    requires ended { IsEnded tokens.now }
    ensures { Answers blocks block (lexemes_from source.now 0 tokens.now) result }
{
    let (mut cursor, deep) = begin(source, tokens);
    let given = cursor.left();
    let read = read_whole_block(alloc, &mut cursor);
    settle(read, deep, given, cursor.left())
}

/// The tree of a block's text, with numbers of tokens counted from 0.
pub fn read_block(alloc: Global, bytes: &[u8]) -> Result<Block, ReadTextEnd>
    ensures { AnswersText blocks block vocabulary bytes.now result }
{
    match scan::<SampleWords>(alloc, bytes) {
        Ok(tokens) => answer(read_block_tokens(alloc, bytes, tokens.as_slice())),
        Err(end) => Err(end),
    }
}
