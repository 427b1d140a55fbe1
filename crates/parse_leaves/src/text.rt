//! Texts: the inline structure of paragraphs, headings and cells (CommonMark 6).
ghost use Rattle.std.specs.Prelude.{◌≡◌, ◌<◌, ◌∷◌, OnOk, false, map, slice_index, true, ℕ};
ghost use Rattle.std.specs.List.{prefix_len};
ghost use Rattle.engine_events.specs.Names.{same_name};
ghost use Rattle.engine_events.specs.declared.event.Name.TheVariants.{Data, SpaceOrTab};
ghost use Rattle.event_grammar.specs.Void.{is_void};
ghost use Rattle.block_starts.specs.View.{rest_of};
ghost use Rattle.definition_inline.specs.Targets.{Targets};
ghost use Rattle.definition_text.specs.BlockLines.{own_lines};
ghost use Rattle.definition_text.specs.Columns.{block_codes, code_byte, is_white};
ghost use Rattle.definition_text.specs.Content.{content_text};
ghost use Rattle.definition_text.specs.InlineCode.{inline_content};
ghost use Rattle.text_pieces.specs.Pieces.{piece_lines};
ghost use Rattle.parse_output.specs.Children.{has_text, holds_text, may_enter};
ghost use Rattle.parse_output.specs.Open.{Entered};
ghost use Rattle.parse_lines.specs.Open.{still_open};
ghost use Rattle.parse_leaves.specs.Entered.{EntersText, WritesContentIn};
ghost use Rattle.parse_leaves.specs.Texts.{KnowsTargets, WritesContent, WritesIndent, WritesStructure, read_content, reading_by, without_white};
ghost use Rattle.inline_content.specs.Lines.{AreContentLines};
ghost use Rattle.inline_content.specs.View.{content_view, view_at};
ghost use Rattle.inline_parser.specs.Scanned.{IsPlace};

use crate::buffers::Buffers;
use block_starts::Cursor;
use engine_events::event::Name;
use inline_content::{Content, line_content};
use inline_leaves::gfm_task_list_item::check_at;
use inline_parser::{Room, RowRoom, content_start, inline_rows};
use markdown_options::{Kind, Tables};
use parse_inline::gfm_task_list_item::push_check;
use parse_inline::{Open, Reading, push_rows};
use parse_lines::Walk;
use parse_raw::Texts;
use std::alloc::{AllocError, Allocator};
use text_bytes::white_size;
use text_pieces::Piece;

/// An event that holds a text begins after the spaces and tabs ahead, and its content with these.
pub(crate) fn enter_text<A: Allocator>(walk: &mut Walk<'_, A>, name: Name) -> Result<(), AllocError>
    requires space { may_enter (still_open walk.old) SpaceOrTab ≡ true }
    requires child { may_enter (still_open walk.old) name ≡ true }
    requires row { is_void name ≡ false }
    ensures open { OnOk result (still_open walk.new ≡ Entered name ∷ still_open walk.old) }
    ensures written { OnOk result (EntersText name walk.old walk.new) }
{
    walk.begin_content();
    let white = white_ahead(walk.rest);
    walk.text(Name::SpaceOrTab, white)?;
    walk.enter(name)
}

/// How many spaces and tabs what is left of a line begins with, where each column that is left of a cut
/// tab is one.
fn white_ahead(rest: Cursor<'_>) -> usize
    ensures { result ≡ prefix_len is_white (map code_byte (block_codes (rest_of rest.entry))) }
{
    usize::from(rest.tab_columns()) + white_size(rest.text().as_bytes())
}

/// The text of some lines, without the last ending, before a character of a kind. It comes next in the
/// content that was begun. A first one may begin with a check (GFM 5.3).
pub fn push_text<'a, T: Tables, A: Allocator + Clone>(
    walk: &mut Walk<'_, A>,
    texts: &Texts<'a, '_, T, A>,
    buffers: &mut Buffers<'a, A>,
    first: bool,
    lines: &[Piece<'a>],
    after: Kind,
) -> Result<(), AllocError>
    requires text { holds_text (still_open walk.old) ≡ true }
    ensures open { OnOk result (still_open walk.new ≡ still_open walk.old) }
    ensures written { OnOk result ((ds : Targets) → KnowsTargets texts.now ds → AreContentLines (piece_lines lines.now) →
        let r = reading_by T.Tables texts.now ds in
        let content = inline_content r.tables.is_punctuation after (own_lines (piece_lines lines.now)) in
        WritesContent r (content_text (piece_lines lines.now)) (read_content r first content) walk.old walk.new) }
{
    if let Some(content) = line_content(lines, after) {
        return push_content(walk, texts, buffers, first, content);
    }
    buffers.content.join(lines)?;
    let content = buffers.content.content(after);
    let mut rows = RowRoom::new(buffers.alloc.clone()?)?;
    let texts = texts.reborrow();
    push_checked(
        walk,
        &texts,
        &mut buffers.room,
        &mut rows,
        &mut buffers.open,
        first,
        content,
    )
}

/// An event by a name that holds the text of some lines, before a character of a kind.
#[tactic(auto, using(parse_output::proofs::Classes::text_in, parse_output::proofs::Marks::same_self, parse_output::proofs::Rows::text_row))]
pub fn push_text_in<'a, T: Tables, A: Allocator + Clone>(
    walk: &mut Walk<'_, A>,
    texts: &Texts<'a, '_, T, A>,
    buffers: &mut Buffers<'a, A>,
    name: Name,
    lines: &[Piece<'a>],
    after: Kind,
) -> Result<(), AllocError>
    requires child { may_enter (still_open walk.old) name ≡ true }
    requires text { has_text name ≡ true }
    ensures open { OnOk result (still_open walk.new ≡ still_open walk.old) }
    ensures written { OnOk result ((ds : Targets) → KnowsTargets texts.now ds → AreContentLines (piece_lines lines.now) → same_name name Data ≡ false →
        let r = reading_by T.Tables texts.now ds in
        let content = inline_content r.tables.is_punctuation after (own_lines (piece_lines lines.now)) in
        WritesContentIn r name (content_text (piece_lines lines.now)) (read_content r false content) walk.old walk.new) }
{
    walk.enter(name)?;
    push_text(walk, texts, buffers, false, lines, after)?;
    walk.exit(name)
}

/// A content that is a part of the document's text. A first one may begin with a check.
pub(crate) fn push_content<'a, T: Tables, A: Allocator + Clone>(
    walk: &mut Walk<'_, A>,
    texts: &Texts<'a, '_, T, A>,
    buffers: &mut Buffers<'a, A>,
    first: bool,
    content: Content<'a>,
) -> Result<(), AllocError>
    requires text { holds_text (still_open walk.old) ≡ true }
    ensures open { OnOk result (still_open walk.new ≡ still_open walk.old) }
    ensures bytes { OnOk result ((k : ℕ) → slice_index content.entry.text.now k < 256) }
    ensures written { OnOk result ((ds : Targets) → KnowsTargets texts.now ds →
        let r = reading_by T.Tables texts.now ds in
        WritesContent r content.entry.text.now (read_content r first (content_view r.tables.is_punctuation content.entry)) walk.old walk.new) }
{
    push_checked(
        walk,
        texts,
        &mut buffers.room,
        &mut buffers.rows,
        &mut buffers.open,
        first,
        content,
    )
}

/// A content after the spaces and tabs that it begins with. A first one may begin with a check.
#[tactic(auto, using(parse_output::proofs::Classes::text_may))]
fn push_checked<'c, T: Tables, A: Allocator + Clone>(
    walk: &mut Walk<'_, A>,
    texts: &Texts<'c, '_, T, A>,
    room: &mut Room<A>,
    rows: &mut RowRoom<'c, A>,
    open: &mut Vec<Open, A>,
    first: bool,
    content: Content<'c>,
) -> Result<(), AllocError>
    requires text { holds_text (still_open walk.old) ≡ true }
    ensures open { OnOk result (still_open walk.new ≡ still_open walk.old) }
    ensures bytes { OnOk result ((k : ℕ) → slice_index content.entry.text.now k < 256) }
    ensures written { OnOk result ((ds : Targets) → KnowsTargets texts.now ds →
        let r = reading_by T.Tables texts.now ds in
        WritesContent r content.entry.text.now (read_content r first (content_view r.tables.is_punctuation content.entry)) walk.old walk.new) }
{
    let start = content_start(content);
    push_indent(walk, content.text(), start)?;
    match check_at(&texts.options.constructs, first, start) {
        None => push_from(walk, texts, room, rows, open, content, start),
        Some(check) => {
            push_check(walk, start.as_bytes(), check.done)?;
            push_from(walk, texts, room, rows, open, content, check.after)
        }
    }
}

/// The spaces and tabs of a content before its start, but for those that are written.
#[tactic(auto, using(parse_output::proofs::Classes::text_may))]
fn push_indent<A: Allocator>(
    walk: &mut Walk<'_, A>,
    content: &str,
    start: &str,
) -> Result<(), AllocError>
    requires text { holds_text (still_open walk.old) ≡ true }
    ensures open { OnOk result (still_open walk.new ≡ still_open walk.old) }
    ensures written { OnOk result (start.now ≡ without_white content.now → WritesIndent content.now walk.old walk.new) }
{
    let white = content.len().saturating_sub(start.len());
    walk.text(Name::SpaceOrTab, white.saturating_sub(walk.place()))
}

/// The inline structure of a content from a place on.
fn push_from<'c, T: Tables, A: Allocator + Clone>(
    walk: &mut Walk<'_, A>,
    texts: &Texts<'c, '_, T, A>,
    room: &mut Room<A>,
    rows: &mut RowRoom<'c, A>,
    open: &mut Vec<Open, A>,
    content: Content<'c>,
    start: &'c str,
) -> Result<(), AllocError>
    requires text { holds_text (still_open walk.old) ≡ true }
    requires place { IsPlace content.text.now start.now }
    ensures open { OnOk result (still_open walk.new ≡ still_open walk.old) }
    ensures written { OnOk result ((ds : Targets) → KnowsTargets texts.now ds →
        let r = reading_by T.Tables texts.now ds in
        WritesStructure r content.entry.text.now start.now (view_at r.tables.is_punctuation content.entry start.now) walk.old walk.new) }
{
    let found = inline_rows(
        room,
        rows,
        texts.options,
        texts.tables,
        texts.labels,
        texts.footnotes,
        content,
        start,
    )?;
    let reading = Reading {
        on: &texts.options.constructs,
        tables: texts.tables,
        content: content.text(),
    };
    push_rows(walk, &reading, open, found.as_slice())
}
