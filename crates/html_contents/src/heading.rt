//! Headings that get an id, which is made of what they say (CommonMark 4.2 and 4.3).
ghost use Rattle.std.specs.Prelude.{◌∷◌};
ghost use Rattle.definition_inline.specs.Scan.{inlines};
ghost use Rattle.definition_inline.specs.Targets.{Targets};
ghost use Rattle.definition_page.specs.HeadingText.{heading_text};
ghost use Rattle.definition_page.specs.Read.{context_of, read_text};
ghost use Rattle.definition_page.specs.Tags.{bare_tag};
ghost use Rattle.definition_text.specs.BlockLines.{own_lines};
ghost use Rattle.html_bytes.specs.Document.{reading_of, structure_pieces, text_of};
ghost use Rattle.html_bytes.specs.Pieces.{Named};
ghost use Rattle.inline_content.specs.View.{content_view};
ghost use Rattle.text_pieces.specs.Pieces.{piece_lines};

use crate::buffers::TextBuffers;
use crate::texts::Texts;
use html_footnotes::Output;
use html_heading_text::push_heading_text;
use html_inline::{Printing, Scratch, push_rows};
use inline_content::{Content, line_content};
use inline_parser::{Room, RowRoom, content_start, inline_rows};
use markdown_options::{Kind, Tables};
use std::alloc::{AllocError, Allocator};
use text_pieces::Piece;

impl<'a, T: Tables, A: Allocator + Clone> Texts<'a, '_, T, A> {
    ghost use Rattle.html_contents.specs.Texts.{AreTextLines, KnowsTargets, LaysOut, document_by};

    /// Prints the start tag of a heading, `h1` to `h6`, with its id, and the text of its lines, without
    /// the last ending. There may be one empty line.
    pub fn push_heading(
        &self,
        out: &mut Output<A>,
        buffers: &mut TextBuffers<'a, A>,
        name: &str,
        lines: &[Piece<'a>],
    ) -> Result<(), AllocError>
        ensures { (ds : Targets) → KnowsTargets self.now ds → AreTextLines (piece_lines lines.now) →
            let d = document_by T.Tables self.now ds in
            let ls = own_lines (piece_lines lines.now) in
            LaysOut d result out.old out.new (Named (bare_tag name.now) (heading_text (read_text (reading_of d) ls)) ∷ text_of d ls) }
    {
        let said = &mut buffers.said;
        let scratch = &mut buffers.scratch;
        let room = &mut buffers.room;
        if let Some(content) = line_content(lines, Kind::Whitespace) {
            return self.push_named(out, said, scratch, room, &mut buffers.rows, name, content);
        }
        buffers.content.join(lines)?;
        let content = buffers.content.content(Kind::Whitespace);
        let mut rows = RowRoom::new(buffers.alloc.clone()?)?;
        let texts = self.reborrow();
        texts.push_named(out, said, scratch, room, &mut rows, name, content)
    }

    /// Prints the start tag of a heading with its id, and its content. `said` is overwritten.
    fn push_named(
        &self,
        out: &mut Output<A>,
        said: &mut String<A>,
        scratch: &mut Scratch<A>,
        room: &mut Room<A>,
        rows: &mut RowRoom<'a, A>,
        name: &str,
        content: Content<'a>,
    ) -> Result<(), AllocError>
        ensures { (ds : Targets) → KnowsTargets self.now ds →
            let d = document_by T.Tables self.now ds in
            let structure = inlines (context_of (reading_of d)) (content_view (T.punctuation_of self.now.tables.now) content.entry) in
            LaysOut d result out.old out.new (Named (bare_tag name.now) (heading_text structure) ∷ structure_pieces d structure) }
    {
        let parse = &self.options.parse;
        let compile = &self.options.compile;
        let found = inline_rows(
            room,
            rows,
            parse,
            self.tables,
            self.labels,
            self.footnotes,
            content,
            content_start(content),
        )?;
        said.clear();
        push_heading_text(said, &mut scratch.text, found.as_slice())?;
        out.start_heading(compile, name, said.as_str())?;
        let printing = Printing {
            on: &parse.constructs,
            compile,
            tables: self.tables,
            definitions: self.links,
            footnotes: self.footnotes,
            cell: false,
        };
        push_rows(out, scratch, &printing, found.as_slice())
    }
}
