//! Fenced code (CommonMark 4.5).
ghost use Rattle.std.specs.Prelude.{◌≡◌, ◌<◌, ◌++◌, ℕ, Bool, OnOk, codes, slice_index, true, false};
ghost use Rattle.markdown_options.specs.LineEndings.{ending_bytes};
ghost use Rattle.definition_inline.specs.Targets.{Targets};
ghost use Rattle.text_pieces.specs.ParagraphLines.{HaveNoEnding};
ghost use Rattle.definition_block.specs.Tree.{FencedCode};
ghost use Rattle.html_bytes.specs.Html.{leaf_bytes};
ghost use Rattle.text_pieces.specs.Pieces.{piece_lines, whole_lines};
ghost use Rattle.html_contents.specs.Texts.{document_by};
ghost use Rattle.html_looseness.specs.Levels.{standing_at};
ghost use Rattle.html_leaves.specs.CodeLines.{class_of};
ghost use Rattle.html_leaves.specs.Prints.{LaysOut, Prints, page_view, with_tag, KeepsEnding};

use crate::printer::LeafPrinter;
use html_contents::Texts;
use markdown_options::Tables;
use std::alloc::{AllocError, Allocator};
use text_pieces::Piece;

impl<'t, A: Allocator + Clone> LeafPrinter<'t, A> {
    /// Prints fenced code (CommonMark 4.5), at the top or in a container. Its info has no line ending.
    pub fn fenced_code<T: Tables>(
        &mut self,
        texts: &Texts<'_, '_, T, A>,
        info: &str,
        closed: bool,
        top: bool,
        lines: &[Piece<'_>],
    ) -> Result<(), AllocError>
        ensures default { KeepsEnding self.old.page self.new.page }
        ensures printed { (ds : Targets) → HaveNoEnding info.now → let code = FencedCode info.now closed (piece_lines lines.now) in
            let d = document_by T.Tables texts.now ds in
            OnOk result (LaysOut d.options.compile self.old.page self.new.page (leaf_bytes d (standing_at top) false code)) }
    {
        self.start_code(texts, info)?;
        self.page.fenced_content(closed, top, lines)?;
        self.page.say("</code></pre>")?;
        if closed {
            return Ok(());
        }
        self.page.fresh()
    }

    /// Prints fenced code that is closed and whose lines are those of a text (CommonMark 4.5), wherever
    /// it stands. Its info has no line ending.
    pub fn whole_code<T: Tables>(
        &mut self,
        texts: &Texts<'_, '_, T, A>,
        info: &str,
        text: &str,
    ) -> Result<(), AllocError>
        ensures default { KeepsEnding self.old.page self.new.page }
        ensures printed { (ds : Targets) (top : Bool) → HaveNoEnding info.now → let code = FencedCode info.now true (whole_lines text.now) in
            let d = document_by T.Tables texts.now ds in
            OnOk result (LaysOut d.options.compile self.old.page self.new.page (leaf_bytes d (standing_at top) false code)) }
        ensures bytes { (k : ℕ) → slice_index text.now k < 256 }
    {
        self.start_code(texts, info)?;
        self.page.whole_content(text)?;
        self.page.say("</code></pre>")
    }

    /// Prints the start tags of code with an info, which has no line ending.
    fn start_code<T: Tables>(
        &mut self,
        texts: &Texts<'_, '_, T, A>,
        info: &str,
    ) -> Result<(), AllocError>
        ensures default { KeepsEnding self.old.page self.new.page }
        ensures printed { (ds : Targets) → HaveNoEnding info.now →
            let tags = codes "<pre><code" ++ class_of (document_by T.Tables texts.now ds) info.now ++ codes ">" in
            OnOk result (page_view self.new.page ≡ with_tag (ending_bytes self.old.page.default_ending) tags (page_view self.old.page)) }
    {
        self.page.fresh_tag("<pre><code")?;
        self.class(texts, info)?;
        self.page.say(">")
    }

    /// Prints the class of code with an info, which has no line ending.
    fn class<T: Tables>(
        &mut self,
        texts: &Texts<'_, '_, T, A>,
        info: &str,
    ) -> Result<(), AllocError>
        ensures default { KeepsEnding self.old.page self.new.page }
        ensures printed { (ds : Targets) → HaveNoEnding info.now →
            OnOk result (Prints self.old.page self.new.page (class_of (document_by T.Tables texts.now ds) info.now)) }
    {
        if info.is_empty() {
            return Ok(());
        }
        self.page.start_class()?;
        texts.push_info(&mut self.page.out.html, info)?;
        self.page.end_class()
    }
}
