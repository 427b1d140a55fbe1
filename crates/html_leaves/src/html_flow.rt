//! HTML of the text (CommonMark 4.6).
//!
//! HTML that is kept by the list is printed marked, line by line. HTML that isn't allowed is printed
//! as text. In HTML that is allowed the tag filter may print the `<` of some tags as a reference
//! (GFM 6.11).
ghost use Rattle.std.specs.Prelude.{◌≡◌, ℕ, replicate, ◌++◌, OnOk, false};
ghost use Rattle.definition_text.specs.BlockLines.{own_lines};
ghost use Rattle.definition_text.specs.Columns.{bytes_of, tab_column};
ghost use Rattle.html_leaves.specs.CodeLines.{html_of};
ghost use Rattle.definition_block.specs.Tree.{Html};
ghost use Rattle.definition_page.specs.Read.{on_page};
ghost use Rattle.html_bytes.specs.Document.{Document};
ghost use Rattle.html_bytes.specs.Html.{leaf_bytes};
ghost use Rattle.html_bytes.specs.RawHtml.{raw_bytes};
ghost use Rattle.text_pieces.specs.Pieces.{piece_lines};
ghost use Rattle.html_escape.specs.Prints as escape;
ghost use Rattle.html_leaves.specs.Prints.{LaysOut, Prints, KeepsEnding};

use crate::page::Page;
use html_escape::push_html;
use markdown_compile_options::CompileOptions;
use std::alloc::{AllocError, Allocator};
use text_pieces::{Piece, push_ending};

impl<A: Allocator + Clone> Page<A> {
    /// Prints an HTML block (CommonMark 4.6).
    pub fn html_block(
        &mut self,
        options: &CompileOptions,
        lines: &[Piece<'_>],
    ) -> Result<(), AllocError>
        ensures default { KeepsEnding self.old self.new }
        ensures printed { (d : Document) → d.options.compile ≡ options.now → let html = Html (own_lines (piece_lines lines.now)) in
            OnOk result (LaysOut d.options.compile self.old self.new (leaf_bytes d on_page false html)) }
    {
        self.fresh()?;
        self.html_lines(options, lines)
    }

    /// Prints lines of HTML without the last ending.
    fn html_lines(
        &mut self,
        options: &CompileOptions,
        lines: &[Piece<'_>],
    ) -> Result<(), AllocError>
        ensures default { KeepsEnding self.old self.new }
        ensures printed { OnOk result (Prints self.old self.new (html_of options.now (own_lines (piece_lines lines.now)))) }
    {
        push_html_lines(&mut self.out.html, options, lines)
    }
}

/// Prints lines of HTML without the last ending.
fn push_html_lines<A: Allocator>(
    out: &mut String<A>,
    options: &CompileOptions,
    lines: &[Piece<'_>],
) -> Result<(), AllocError>
    ensures { escape.Prints result out.old out.new (html_of options.now (own_lines (piece_lines lines.now))) }
{
    let mut waiting = None;
    for line in lines {
        push_ending(out, waiting)?;
        push_html_line(out, options, line.text)?;
        waiting = line.ending;
    }
    Ok(())
}

/// Prints a line of HTML. Columns before it that are left of a tab aren't printed.
fn push_html_line<A: Allocator>(
    out: &mut String<A>,
    options: &CompileOptions,
    text: &str,
) -> Result<(), AllocError>
    ensures { (owed : ℕ) → escape.Prints result out.old out.new (raw_bytes false options.now (bytes_of (replicate owed tab_column ++ text.now))) }
{
    push_html(out, options, false, text)
}
