//! Paragraphs that may begin with a check (GFM 5.3).
ghost use Rattle.definition_inline.specs.Targets.{Targets};
ghost use Rattle.definition_inline.specs.GfmTaskListItem.{check_at};
ghost use Rattle.definition_inline.specs.Scan.{without_indent};
ghost use Rattle.definition_text.specs.InlineCode.{codes_of};
ghost use Rattle.definition_page.specs.Read.{checked_text};
ghost use Rattle.html_bytes.specs.Document.{reading_of, structure_pieces};
ghost use Rattle.inline_content.specs.View.{content_view};

use crate::texts::Texts;
use html_footnotes::Output;
use html_inline::{Scratch, push_check};
use inline_content::Content;
use inline_leaves::gfm_task_list_item::check_at;
use inline_parser::{Room, RowRoom, content_start};
use markdown_options::Tables;
use std::alloc::{AllocError, Allocator};

impl<'a, T: Tables, A: Allocator + Clone> Texts<'a, '_, T, A> {
    ghost use Rattle.html_contents.specs.Texts.{KnowsTargets, LaysOut, document_by};

    /// Prints the content of a paragraph, which has a check where it is the first block of an item
    /// and begins with one (GFM 5.3).
    pub(crate) fn push_checked(
        &self,
        out: &mut Output<A>,
        scratch: &mut Scratch<A>,
        room: &mut Room<A>,
        rows: &mut RowRoom<'a, A>,
        first: bool,
        content: Content<'a>,
    ) -> Result<(), AllocError>
        ensures { (ds : Targets) → KnowsTargets self.now ds →
            let d = document_by T.Tables self.now ds in
            let codes = without_indent (content_view (T.punctuation_of self.now.tables.now) content.entry) in
            let text = checked_text (reading_of d) codes (check_at self.now.options.now.parse.constructs first (codes_of codes)) in
            LaysOut d result out.old out.new (structure_pieces d text) }
    {
        let start = content_start(content);
        match check_at(&self.options.parse.constructs, first, start) {
            None => self.push_from(out, scratch, room, rows, false, content, start),
            Some(check) => {
                push_check(&mut out.html, &self.options.compile, check.done)?;
                self.push_from(out, scratch, room, rows, false, content, check.after)
            }
        }
    }
}
