//! Fenced code (CommonMark 4.5).
ghost use Rattle.std.specs.Prelude.{◌≡◌, Bool, OnOk, codes, true};
ghost use Rattle.markdown_options.specs.LineEndings.{ending_bytes};
ghost use Rattle.markdown_compile_options.specs.declared.configuration.CompileOptions.{CompileOptions};
ghost use Rattle.definition_text.specs.Lines.{ending_text};
ghost use Rattle.text_pieces.specs.Pieces.{piece_lines, whole_lines};
ghost use Rattle.html_leaves.specs.CodeLines.{fenced_bytes};
ghost use Rattle.html_leaves.specs.Prints.{LaysOut, Prints, page_view, with_bytes, with_fresh, KeepsEnding};

use crate::page::Page;
use markdown_options::LineEnding;
use std::alloc::{AllocError, Allocator};
use text_pieces::Piece;

impl<A: Allocator + Clone> Page<A> {
    /// Prints the start of the class of code, before what its info stands for.
    pub fn start_class(&mut self) -> Result<(), AllocError>
        ensures default { KeepsEnding self.old self.new }
        ensures printed { OnOk result (Prints self.old self.new (codes " class=\"language-")) }
    {
        self.say(" class=\"language-")
    }

    /// Prints the end of the class of code, after what its info stands for.
    pub fn end_class(&mut self) -> Result<(), AllocError>
        ensures default { KeepsEnding self.old self.new }
        ensures printed { OnOk result (Prints self.old self.new (codes "\"")) }
    {
        self.say("\"")
    }

    /// Prints lines of fenced code, at the top or in a container. Where it isn't closed, its last
    /// ending stands outside in a container, and the default one is printed.
    pub fn fenced_content(
        &mut self,
        closed: bool,
        top: bool,
        lines: &[Piece<'_>],
    ) -> Result<(), AllocError>
        ensures default { KeepsEnding self.old self.new }
        ensures printed { (options : CompileOptions) → OnOk result (LaysOut options self.old self.new (fenced_bytes top closed (piece_lines lines.now))) }
    {
        self.code(lines)?;
        match lines.last() {
            None => Ok(()),
            Some(last) => {
                let whole = top || closed;
                let ending = if whole {
                    last.ending
                } else {
                    Some(self.default_ending)
                };
                self.end_content(ending)
            }
        }
    }

    /// Prints lines of fenced code that is closed, which are those of a text.
    pub fn whole_content(&mut self, text: &str) -> Result<(), AllocError>
        ensures default { KeepsEnding self.old self.new }
        ensures printed { (options : CompileOptions) (top : Bool) →
            OnOk result (LaysOut options self.old self.new (fenced_bytes top true (whole_lines text.now))) }
    {
        if text.is_empty() {
            return Ok(());
        }
        self.encode(text)?;
        self.fresh()
    }

    /// Prints the last ending of code, and asks for a fresh line.
    pub fn end_content(&mut self, ending: Option<LineEnding>) -> Result<(), AllocError>
        ensures default { KeepsEnding self.old self.new }
        ensures printed { OnOk result (page_view self.new ≡
            with_fresh (ending_bytes self.old.default_ending) (with_bytes (ending_text ending) (page_view self.old))) }
    {
        self.push_ending(ending)?;
        self.fresh()
    }
}
