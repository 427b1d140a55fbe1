//! The texts of paragraphs, headings and info strings (CommonMark 4.2, 4.3, 4.5 and 4.8).
ghost use Rattle.std.specs.Prelude.{◌≡◌, ◌++◌, ◌∷◌, [], OnOk, string_bytes, true};
ghost use Rattle.definition_page.specs.InlinePieces.{inline_counts};
ghost use Rattle.definition_page.specs.Read.{context_of};
ghost use Rattle.html_bytes.specs.Document.{reading_of, document_meaning, structure_pieces, text_of, paragraph_of, info_of};
ghost use Rattle.definition_text.specs.Encode.{encode};
ghost use Rattle.html_bytes.specs.Pieces.{in_bytes};
ghost use Rattle.definition_inline.specs.Targets.{Targets};
ghost use Rattle.text_pieces.specs.ParagraphLines.{HaveNoEnding, AreLines};
ghost use Rattle.text_pieces.specs.Pieces.{piece_line, piece_lines, whole_lines};
ghost use Rattle.definition_inline.specs.Scan.{inlines, inlines_from};
ghost use Rattle.definition_text.specs.BlockLines.{own_lines};
ghost use Rattle.definition_text.specs.InlineCode.{inline_content};
ghost use Rattle.inline_content.specs.Lines.{AreContentLines};
ghost use Rattle.inline_content.specs.View.{content_view, view_at};
ghost use Rattle.inline_parser.specs.Scanned.{IsPlace};
ghost use Rattle.html_inline.specs.GfmTable.{parts_in_cell};

use crate::buffers::TextBuffers;
use html_footnotes::Output;
use html_inline::{Printing, Scratch, count_rows, push_alone, push_encoded_string, push_rows};
use inline_content::{Content, line_content, whole_content};
use inline_labels::LabelTable;
use inline_links::LinkTexts;
use inline_parser::{FoundRows, Room, RowRoom, content_start, inline_rows};
use markdown_compile_options::Options;
use markdown_options::{Kind, Tables};
use std::alloc::{AllocError, Allocator};
use text_pieces::Piece;

/// What the texts of a document are read and printed by.
#[derive(Drop)]
pub struct Texts<'a, 'd, T, A: Allocator + Clone> {
    pub options: &'a Options,
    pub tables: &'a T,
    /// The labels of the document's link reference definitions.
    pub labels: &'d LabelTable<A>,
    /// The labels of its footnote definitions.
    pub footnotes: &'d LabelTable<A>,
    /// Where the link reference definitions lead, in the order of the text.
    pub links: &'d [LinkTexts<'d>],
}

impl<'a, T: Tables, A: Allocator + Clone> Texts<'a, '_, T, A> {
    ghost use Rattle.html_contents.specs.Texts.{KnowsTargets, LaysOut, document_by};

    /// The same for contents that live no longer than this.
    pub(crate) fn reborrow(&self) -> Texts<'_, '_, T, A>
        ensures { result ≡ self.now }
    {
        Texts {
            options: self.options,
            tables: self.tables,
            labels: self.labels,
            footnotes: self.footnotes,
            links: self.links,
        }
    }

    /// Prints the text of a heading's lines, without the last ending (CommonMark 4.3).
    pub fn push_text(
        &self,
        out: &mut Output<A>,
        buffers: &mut TextBuffers<'a, A>,
        lines: &[Piece<'a>],
    ) -> Result<(), AllocError>
        ensures { (ds : Targets) → KnowsTargets self.now ds → AreLines (piece_lines lines.now) →
            let d = document_by T.Tables self.now ds in LaysOut d result out.old out.new (text_of d (own_lines (piece_lines lines.now))) }
    {
        self.push_lines(out, buffers, false, lines, Kind::Whitespace)
    }

    /// Prints the text of some lines before a character of a kind, in a cell of a table or not. What
    /// is put together doesn't stand in the document's text, and has rows of its own.
    pub(crate) fn push_lines(
        &self,
        out: &mut Output<A>,
        buffers: &mut TextBuffers<'a, A>,
        cell: bool,
        lines: &[Piece<'a>],
        after: Kind,
    ) -> Result<(), AllocError>
        ensures { (ds : Targets) → KnowsTargets self.now ds → AreContentLines (piece_lines lines.now) →
            let d = document_by T.Tables self.now ds in
            let content = inline_content (T.punctuation_of self.now.tables.now) after (own_lines (piece_lines lines.now)) in
            LaysOut d result out.old out.new (structure_pieces d (parts_in_cell cell (inlines (context_of (reading_of d)) content))) }
    {
        let scratch = &mut buffers.scratch;
        let room = &mut buffers.room;
        if let Some(content) = line_content(lines, after) {
            return self.push_content(out, scratch, room, &mut buffers.rows, cell, content);
        }
        buffers.content.join(lines)?;
        let content = buffers.content.content(after);
        let mut rows = RowRoom::new(buffers.alloc.clone()?)?;
        let texts = self.reborrow();
        texts.push_content(out, scratch, room, &mut rows, cell, content)
    }

    /// Prints the text of a paragraph's lines, without the last ending. It has a check where it is
    /// the first block of an item and begins with one (CommonMark 4.8 and GFM 5.3).
    pub fn push_paragraph(
        &self,
        out: &mut Output<A>,
        buffers: &mut TextBuffers<'a, A>,
        first: bool,
        lines: &[Piece<'a>],
    ) -> Result<(), AllocError>
        ensures { (ds : Targets) → KnowsTargets self.now ds → AreLines (piece_lines lines.now) →
            let d = document_by T.Tables self.now ds in
            LaysOut d result out.old out.new (paragraph_of d first (own_lines (piece_lines lines.now))) }
    {
        let scratch = &mut buffers.scratch;
        let room = &mut buffers.room;
        if let Some(content) = line_content(lines, Kind::Whitespace) {
            return self.push_checked(out, scratch, room, &mut buffers.rows, first, content);
        }
        buffers.content.join(lines)?;
        let content = buffers.content.content(Kind::Whitespace);
        let mut rows = RowRoom::new(buffers.alloc.clone()?)?;
        let texts = self.reborrow();
        texts.push_checked(out, scratch, room, &mut rows, first, content)
    }

    /// Prints the text of one line, which may be empty, without its ending (CommonMark 4.2).
    pub fn push_line(
        &self,
        out: &mut Output<A>,
        buffers: &mut TextBuffers<'a, A>,
        line: &Piece<'a>,
    ) -> Result<(), AllocError>
        ensures { (ds : Targets) → KnowsTargets self.now ds → HaveNoEnding (piece_line line.now).codes →
            let d = document_by T.Tables self.now ds in LaysOut d result out.old out.new (text_of d (own_lines (piece_line line.now ∷ []))) }
    {
        self.push_lines(out, buffers, false, &[*line], Kind::Whitespace)
    }

    /// Prints a paragraph of the lines of a text, without the last ending (CommonMark 4.8 and GFM 5.3).
    pub fn push_whole(
        &self,
        out: &mut Output<A>,
        buffers: &mut TextBuffers<'a, A>,
        first: bool,
        text: &'a str,
    ) -> Result<(), AllocError>
        ensures { (ds : Targets) → KnowsTargets self.now ds →
            let d = document_by T.Tables self.now ds in
            LaysOut d result out.old out.new (paragraph_of d first (own_lines (whole_lines text.now))) }
    {
        let content = whole_content(text);
        self.push_checked(
            out,
            &mut buffers.scratch,
            &mut buffers.room,
            &mut buffers.rows,
            first,
            content,
        )
    }

    /// Prints what an info string, which has no line ending, stands for (CommonMark 4.5).
    pub fn push_info(&self, out: &mut String<A>, info: &str) -> Result<(), AllocError>
        ensures { (ds : Targets) → HaveNoEnding info.now →
            OnOk result (string_bytes out.new ≡ string_bytes out.old ++ encode (info_of (document_by T.Tables self.now ds) info.now)) }
    {
        push_encoded_string(out, &self.options.parse.constructs, self.tables, info)
    }

    /// Prints the inline structure of a content, in a cell of a table or not (CommonMark 6).
    pub(crate) fn push_content(
        &self,
        out: &mut Output<A>,
        scratch: &mut Scratch<A>,
        room: &mut Room<A>,
        rows: &mut RowRoom<'a, A>,
        cell: bool,
        content: Content<'a>,
    ) -> Result<(), AllocError>
        ensures { (ds : Targets) → KnowsTargets self.now ds →
            let d = document_by T.Tables self.now ds in
            let structure = inlines (context_of (reading_of d)) (content_view (T.punctuation_of self.now.tables.now) content.entry) in
            LaysOut d result out.old out.new (structure_pieces d (parts_in_cell cell structure)) }
    {
        self.push_from(
            out,
            scratch,
            room,
            rows,
            cell,
            content,
            content_start(content),
        )
    }

    /// Prints the inline structure of a content from a place on.
    #[inline(always)]
    pub(crate) fn push_from(
        &self,
        out: &mut Output<A>,
        scratch: &mut Scratch<A>,
        room: &mut Room<A>,
        rows: &mut RowRoom<'a, A>,
        cell: bool,
        content: Content<'a>,
        start: &'a str,
    ) -> Result<(), AllocError>
        requires { IsPlace content.text.now start.now }
        ensures { (ds : Targets) → KnowsTargets self.now ds →
            let d = document_by T.Tables self.now ds in
            let structure = inlines_from (context_of (reading_of d)) (view_at (T.punctuation_of self.now.tables.now) content.entry start.now) in
            LaysOut d result out.old out.new (structure_pieces d (parts_in_cell cell structure)) }
    {
        let parse = &self.options.parse;
        let found = inline_rows(
            room,
            rows,
            parse,
            self.tables,
            self.labels,
            self.footnotes,
            content,
            start,
        )?;
        let printing = Printing {
            on: &parse.constructs,
            compile: &self.options.compile,
            tables: self.tables,
            definitions: self.links,
            footnotes: self.footnotes,
            cell,
        };
        match &found {
            FoundRows::Alone(row) => push_alone(out, scratch, &printing, *row),
            _ => push_rows(out, scratch, &printing, found.as_slice()),
        }
    }

    /// Counts the calls of footnotes in a content of a cell that isn't printed (GFM 4.10).
    pub(crate) fn count_content(
        &self,
        out: &mut Output<A>,
        scratch: &mut Scratch<A>,
        room: &mut Room<A>,
        rows: &mut RowRoom<'a, A>,
        content: Content<'a>,
    ) -> Result<(), AllocError>
        ensures { (ds : Targets) → KnowsTargets self.now ds →
            let d = document_by T.Tables self.now ds in
            let structure = inlines (context_of (reading_of d)) (content_view (T.punctuation_of self.now.tables.now) content.entry) in
            LaysOut d result out.old out.new (in_bytes (inline_counts (document_meaning d) (parts_in_cell true structure))) }
    {
        let parse = &self.options.parse;
        let definitions = self.links;
        let found = inline_rows(
            room,
            rows,
            parse,
            self.tables,
            self.labels,
            self.footnotes,
            content,
            content_start(content),
        )?;
        let printing = Printing {
            on: &parse.constructs,
            compile: &self.options.compile,
            tables: self.tables,
            definitions,
            footnotes: self.footnotes,
            cell: true,
        };
        count_rows(out, scratch, &printing, found.as_slice())
    }
}
