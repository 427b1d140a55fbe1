//! From a text to its events.
ghost use Rattle.std.specs.Prelude.{◌≡◌, ◌≤◌, [], IfErr, IfOk, List, None, OnOk, Some, false, length, true, ℕ};
ghost use Rattle.definition_page.specs.TextTables.{text_tables};
ghost use Rattle.definition_block.specs.Frontmatter.{after_frontmatter};
ghost use Rattle.definition_text.specs.Lines.{TextLine, kind_before_text, lines, without_mark as bytes_after_mark};
ghost use Rattle.definition_inline.specs.Targets.{Targets};
ghost use Rattle.event_meaning.specs.Spelled.{spelled};
ghost use Rattle.parse_alike.specs.Spelled.{IsPageOfText};
ghost use Rattle.text_pieces.specs.Pieces.{piece_lines};
ghost use Rattle.parse_events.specs.Document.{StandsAfterMark, StandsBefore, WritesBlocks, WritesBlocksBy};
ghost use Rattle.parse_events.specs.Parsed.{AreEventsOf, FillDocument, IsStateOf};
ghost use Rattle.markdown_options.specs.Mdx.{has_mdx};
ghost use Rattle.markdown_options.specs.Messages.{IsOutOfMemory};
ghost use Rattle.block_rows.specs.Rows.{rows_of, rows_size, rows_value, value_with};
ghost use Rattle.event_check.specs.Matches.{MatchesGrammar};
ghost use Rattle.parse_output.specs.Placed.{ArePlaced};
ghost use Rattle.parse_grammar.specs.Constructs.{NothingIsOff};
ghost use Rattle.parse_output.specs.Children.{HaveChildren, holds_blocks};
ghost use Rattle.parse_lines.specs.Open.{still_open};
ghost use Rattle.parse_leaves.specs.Texts.{KnowsTargets, reading_by};
ghost use Rattle.parse_events.specs.Nested.{IsNested};
ghost use Rattle.parse_events.specs.Labels.{begun_in, defined_in, definition_labels, footnote_labels, text_blocks};
ghost use Rattle.parse_events.specs.State.{IsReadBy, definitions_of, footnotes_of};
ghost use Rattle.event_tokens.specs.Bytes.{HaveTheirBytes};
ghost use Rattle.event_tokens.specs.Shape.{HaveShape};

use crate::labels::Labels;
use crate::parser::Parser;
use crate::state::ParseState;
use block_parser::{BlockRows, block_rows};
use block_rows::Row;
use block_starts::frontmatter::without_frontmatter;
use block_targets::{definition_contents, document_definitions, document_footnotes};
use engine_events::Event;
use engine_events::event::Name;
use markdown_options::{Constructs, Kind, Message, ParseOptions, Tables};
use parse_lines::Walk;
use parse_lines::cut::up_to;
use parse_raw::{Texts, push_frontmatter};
use std::alloc::{AllocError, Allocator};
use text_lines::without_mark;
use text_pieces::Piece;

/// The largest size of a text, in bytes.
pub const SIZE_MAX: usize = usize::MAX / 8;

/// Reads a text. Returns its events, and the labels that are defined in it.
///
/// The text must have at most `SIZE_MAX` bytes. No construct of MDX may be on, which
/// `Constructs::has_mdx` tests. The only error is `out of memory`.
///
/// Each event that holds no other has bytes that its name may have: a marker is its byte, white space
/// is spaces and tabs, data ends no line, the value of an escape is punctuation. The table is in
/// `event_tokens`. The bytes are whole characters, so each event begins and ends between characters. If its
/// name can hold no other, it has at least a byte, or a column of a tab. If its name may hold others, it has
/// none.
///
/// Strings, raw HTML, paragraphs and the texts of headings hold something, and data isn't directly followed
/// by data. Raw HTML in a text begins with `<`, and a call of a footnote holds only what a string may hold.
/// The names are in `event_tokens`.
///
/// No event is of a construct that is off, by the table of names in `parse_grammar`.
pub fn parse<'a, T: Tables, A: Allocator + Clone>(
    alloc: A,
    value: &'a str,
    options: &'a ParseOptions,
    tables: &'a T,
) -> Result<(Vec<Event, A>, ParseState<'a, T, A>), Message>
    requires size { length value.now ≤ SIZE_MAX }
    requires without_mdx { has_mdx options.now.constructs ≡ false }
    ensures placed { IfOk result (λ parsed. ArePlaced value.now parsed.0.items) }
    ensures nested { IfOk result (λ parsed. IsNested parsed.0.items) }
    ensures children { IfOk result (λ parsed. HaveChildren parsed.0.items) }
    ensures tokens { IfOk result (λ parsed. HaveTheirBytes value.now parsed.0.items) }
    ensures shape { IfOk result (λ parsed. HaveShape value.now parsed.0.items) }
    ensures grammar { IfOk result (λ parsed. MatchesGrammar (T.reference_of tables.now) value.now parsed.0.items) }
    ensures spelled { IfOk result (λ parsed. let names = T.reference_of tables.now in
        IsPageOfText (text_tables names (T.punctuation_of tables.now)) options.now value.now (spelled names parsed.0.items value.now)) }
    ensures on { IfOk result (λ parsed. NothingIsOff options.now.constructs parsed.0.items) }
    ensures read_by { IfOk result (λ parsed. IsReadBy parsed.1 options.now tables.now value.now) }
    ensures definitions { IfOk result (λ parsed. definitions_of parsed.1 ≡ definition_labels (text_blocks options.now.constructs value.now)) }
    ensures footnotes { IfOk result (λ parsed. footnotes_of parsed.1 ≡ footnote_labels (text_blocks options.now.constructs value.now)) }
    ensures memory { IfErr result IsOutOfMemory }
{
    let parsed = parse_text(alloc, value, options, tables)?;
    Ok(parsed)
}

/// Reads a text.
fn parse_text<'a, T: Tables, A: Allocator + Clone>(
    alloc: A,
    value: &'a str,
    options: &'a ParseOptions,
    tables: &'a T,
) -> Result<(Vec<Event, A>, ParseState<'a, T, A>), AllocError>
    requires size { length value.now ≤ SIZE_MAX }
    ensures events { IfOk result (λ parsed. let names = T.reference_of tables.now in
        AreEventsOf (text_tables names (T.punctuation_of tables.now)) options.now value.now parsed.0.items) }
    ensures state { IfOk result (λ parsed. IsStateOf parsed.1 options.now tables.now value.now) }
{
    let (before, text) = without_mark(value);
    let blocks = block_rows(alloc.clone()?, before, text, &options.constructs)?;
    let labels = Labels::of_rows(alloc.clone()?, &blocks.rows, &blocks.pieces)?;
    let events = text_events(alloc, value, options, tables, &blocks)?;
    Ok((events, state_of(value, options, tables, labels)))
}

/// What is known of a text beside its events: what it is read by, and its labels.
fn state_of<'a, T, A: Allocator>(
    value: &'a str,
    options: &'a ParseOptions,
    tables: &'a T,
    labels: Labels<A>,
) -> ParseState<'a, T, A>
    ensures read_by { IsReadBy result options.now tables.now value.now }
    ensures definitions { definitions_of result ≡ defined_in labels }
    ensures footnotes { footnotes_of result ≡ begun_in labels }
{
    let Labels {
        definitions,
        footnotes,
        ..
    } = labels;
    ParseState {
        options,
        tables,
        bytes: value.as_bytes(),
        definitions,
        gfm_footnote_definitions: footnotes,
    }
}

/// The events of a text, whose blocks are these rows.
#[tactic(auto, using(crate::proofs::Outermost::document_paragraph, crate::proofs::Outermost::document_blocks))]
fn text_events<'a, T: Tables, A: Allocator + Clone>(
    alloc: A,
    value: &'a str,
    options: &'a ParseOptions,
    tables: &'a T,
    blocks: &BlockRows<'a, A>,
) -> Result<Vec<Event, A>, AllocError>
    requires size { length value.now ≤ SIZE_MAX }
    requires rows { rows_value blocks.now.rows.items (piece_lines blocks.now.pieces.items)
        ≡ value_with (rows_of (text_blocks options.now.constructs value.now)) [] }
    requires enough { rows_size blocks.now.rows.items ≤ length blocks.now.pieces.items }
    ensures events { IfOk result (λ events. let names = T.reference_of tables.now in
        AreEventsOf (text_tables names (T.punctuation_of tables.now)) options.now value.now events.items) }
    ensures filled { IfOk result (λ events. FillDocument events.items) }
{
    let walk = begin(alloc.clone()?, value, options)?;
    let walk = push_blocks(alloc, walk, options, tables, &blocks.rows, &blocks.pieces)?;
    let events = walk.into_output().finish(value.as_bytes())?;
    Ok(events)
}

/// A walk over the lines of a text, after its byte order mark and its frontmatter.
#[tactic(auto, using(crate::proofs::Outermost::document_mark))]
fn begin<'a, A: Allocator + Clone>(
    alloc: A,
    value: &'a str,
    options: &'a ParseOptions,
) -> Result<Walk<'a, A>, AllocError>
    requires size { length value.now ≤ SIZE_MAX }
    ensures open { IfOk result (λ walk. still_open walk ≡ []) }
    ensures begins { IfOk result (λ walk. StandsBefore options.now.constructs value.now (kind_before_text value.now) (bytes_after_mark value.now) walk) }
{
    let (before, text) = without_mark(value);
    let mut walk = Walk::new(alloc, &options.constructs, value.len(), text)?;
    walk.token(Name::ByteOrderMark, value.len().saturating_sub(text.len()))?;
    push_front(&mut walk, &options.constructs, before, text)?;
    Ok(walk)
}

/// The frontmatter of a text without a byte order mark, if it has one. No line is begun.
#[tactic(auto, using(crate::proofs::Outermost::document_frontmatter, crate::proofs::Outermost::document_lines))]
fn push_front<A: Allocator>(
    walk: &mut Walk<'_, A>,
    on: &Constructs,
    before: Kind,
    text: &str,
) -> Result<(), AllocError>
    requires open { still_open walk.old ≡ [] }
    ensures open { OnOk result (still_open walk.new ≡ []) }
    ensures begins { OnOk result ((value : List ℕ) → StandsAfterMark on.now value before text.now walk.old
        → StandsBefore on.now value before text.now walk.new) }
{
    let left = after_front(on, before, text);
    let size = text.len().saturating_sub(left.len());
    if size == 0 {
        return Ok(());
    }
    push_frontmatter(walk, up_to(text, size))
}

/// What the frontmatter of a text leaves of it: all, if it has none.
fn after_front<'a>(on: &Constructs, before: Kind, text: &'a str) -> &'a str
    ensures all { after_frontmatter on.now (lines text.now) ≡ None → result.now ≡ text.now }
    ensures left { (others : List TextLine) → after_frontmatter on.now (lines text.now) ≡ Some others → lines result.now ≡ others }
{
    let (_, left) = without_frontmatter(on, before, text);
    left
}

/// Writes the blocks of these rows, whose lines are given.
fn push_blocks<'a, T: Tables, A: Allocator + Clone>(
    alloc: A,
    walk: Walk<'a, A>,
    options: &'a ParseOptions,
    tables: &'a T,
    rows: &[Row],
    pieces: &[Piece<'a>],
) -> Result<Walk<'a, A>, AllocError>
    requires enough { rows_size rows.now ≤ length pieces.now }
    requires blocks { holds_blocks (still_open walk) ≡ true }
    ensures open { IfOk result (λ after. still_open after ≡ still_open walk.entry) }
    ensures written { IfOk result (λ after. WritesBlocks (text_tables (T.reference_of tables.now) (T.punctuation_of tables.now)) options.now rows.now
        (piece_lines pieces.now) walk.entry after) }
{
    let contents = definition_contents(alloc.clone()?, rows, pieces)?;
    let definitions = document_definitions(alloc.clone()?, &contents)?;
    let may_define = options.constructs.gfm_footnote_definition;
    let footnotes = document_footnotes(alloc.clone()?, may_define, rows, pieces)?;
    let texts = Texts {
        options,
        tables,
        labels: &definitions.labels,
        footnotes: &footnotes.labels,
    };
    push_rows(alloc, walk, &texts, rows, pieces)
}

/// Writes these rows, whose texts are read so.
fn push_rows<'a, T: Tables, A: Allocator + Clone>(
    alloc: A,
    walk: Walk<'a, A>,
    texts: &Texts<'a, '_, T, A>,
    rows: &[Row],
    pieces: &[Piece<'a>],
) -> Result<Walk<'a, A>, AllocError>
    requires enough { rows_size rows.now ≤ length pieces.now }
    requires blocks { holds_blocks (still_open walk) ≡ true }
    ensures open { IfOk result (λ after. still_open after ≡ still_open walk.entry) }
    ensures written { IfOk result (λ after. (ds : Targets) → KnowsTargets texts.now ds
        → WritesBlocksBy (reading_by T.Tables texts.now ds) rows.now (piece_lines pieces.now) walk.entry after) }
{
    let mut parser = Parser::new(alloc, walk, rows)?;
    parser.rows(texts, rows, pieces)?;
    parser.into_walk()
}
