//! Fenced code (CommonMark 4.5), and math, which is fenced code of dollars.
//!
//!     fenced ::= fence line* end_of_fence?
ghost use Rattle.std.specs.Prelude.{◌≡◌, ◌<◌, ◌^◌, IfNone, IfSome, false, length};
ghost use Rattle.std.specs.List.{list_any};
ghost use Rattle.definition_text.specs.Lines.{lines, text_line};
ghost use Rattle.text_pieces.specs.Pieces.{piece_line};
ghost use Rattle.block_starts.specs.CodeFenced.{fence_view};
ghost use Rattle.block_parser.specs.Fences.{IsWholeCode, code_line, line_closes};

use crate::parser::Parser;
use block_leaves::piece;
use block_starts::Cursor;
use block_starts::code_fenced::{Fence, closes_fence, fence_line};
use block_state::OpenLeaf;
use block_state::whole_lines::whole_piece;
use markdown_options::{Beside, Constructs, Kind, LineEnding};
use std::alloc::{AllocError, Allocator};
use text_lines::next_line;
use text_pieces::Piece;

impl<'a, A: Allocator> Parser<'a, A> {
    ghost use Rattle.std.specs.Prelude.{◌≡◌, IfOk, ◌≤◌, ◌<◌, ◌+◌, ◌^◌, length, vec_len};
    ghost use Rattle.block_state.specs.Leaves.{leaf_state};
    ghost use Rattle.block_state.specs.Shows.{InFenced};
    ghost use Rattle.block_parser.specs.View.{ReadsFenced};

    /// Reads lines of fenced code, where no container is open, and the line that closes it. If none was
    /// read before, and the fence has no indent, they are kept as one. Answers what follows.
    pub(crate) fn fenced_lines(
        &mut self,
        on: &Constructs,
        fence: Fence<'a>,
        ending: Option<LineEnding>,
        text: &'a str,
    ) -> Result<&'a str, AllocError>
        requires some { 0 < length text.now }
        requires fits { length text.now < 2 ^ 61 }
        requires leaf { leaf_state self.old.leaves.leaf ≡ InFenced (fence_view fence) ending }
        requires lines { self.old.leaves.lines_in_rows + 1 ≤ vec_len self.old.leaves.pieces }
        ensures shorter { IfOk result (λ rest. length rest.now < length text.now) }
        ensures read { IfOk result (λ rest. ReadsFenced on.now (fence_view fence.entry) text.now self.old self.new rest.now) }
    {
        if fence.indent == 0 && self.leaves.pieces.len() - self.leaves.lines_in_rows == 1 {
            if let Some(code) = whole_code(on, &fence, text) {
                self.leaves.close_whole_code(code.lines, code.ending)?;
                return Ok(code.rest);
            }
        }
        self.each_fenced_line(on, fence, ending, text)
    }

    /// Reads them line by line. What is known of the open leaf is set once, after them.
    fn each_fenced_line(
        &mut self,
        on: &Constructs,
        fence: Fence<'a>,
        ending: Option<LineEnding>,
        text: &'a str,
    ) -> Result<&'a str, AllocError>
        requires some { 0 < length text.now }
        requires fits { length text.now < 2 ^ 61 }
        requires leaf { leaf_state self.old.leaves.leaf ≡ InFenced (fence_view fence) ending }
        requires lines { self.old.leaves.lines_in_rows + 1 ≤ vec_len self.old.leaves.pieces }
        ensures shorter { IfOk result (λ rest. length rest.now < length text.now) }
        ensures read { IfOk result (λ rest. ReadsFenced on.now (fence_view fence.entry) text.now self.old self.new rest.now) }
    {
        let mut rest = text;
        let mut last = ending;
        while !rest.is_empty() {
            let (content, ending, after) = next_line(rest);
            if closes_fence(on, &fence, content) {
                self.leaves.leaf = OpenLeaf::Fenced {
                    fence,
                    ending: last,
                };
                self.leaves.rest = rest;
                self.any_line(on, Kind::Whitespace, content, ending)?;
                return Ok(after);
            }
            self.leaves.push_code(code_piece(&fence, content, ending))?;
            last = ending;
            rest = after;
        }
        self.leaves.leaf = OpenLeaf::Fenced {
            fence,
            ending: last,
        };
        Ok(rest)
    }
}

/// Whole lines of fenced code at the front of a text.
#[derive(Clone, Copy)]
struct WholeCode<'a> {
    /// The text of the lines before the first that closes the fence.
    lines: &'a str,
    /// The ending of that line.
    ending: Option<LineEnding>,
    /// What follows it.
    rest: &'a str,
}

/// The lines of a text up to the first that closes a fence, if one does.
fn whole_code<'a>(on: &Constructs, fence: &Fence<'_>, text: &'a str) -> Option<WholeCode<'a>>
    requires { length text.now < 2 ^ 61 }
    ensures closed { IfSome result (λ code.
        IsWholeCode on.now (fence_view fence.now) text.now code.lines.now code.ending code.rest.now) }
    ensures shorter { IfSome result (λ code. length code.rest.now < length text.now) }
    ensures unclosed { IfNone result (list_any (line_closes on.now (fence_view fence.now)) (lines text.now) ≡ false) }
{
    let mut rest = text;
    while !rest.is_empty() {
        let (content, ending, after) = next_line(rest);
        if closes_fence(on, fence, content) {
            return Some(WholeCode {
                lines: &text[..text.len() - rest.len()],
                ending,
                rest: after,
            });
        }
        rest = after;
    }
    None
}

/// A whole line as one of the content of a fence.
fn code_piece<'a>(fence: &Fence<'_>, content: &'a str, ending: Option<LineEnding>) -> Piece<'a>
    requires { length content.now < 2 ^ 61 }
    ensures { piece_line result ≡ code_line (fence_view fence.now) (text_line content.now ending) }
{
    if fence.indent == 0 {
        return whole_piece(content, ending);
    }
    let beside = Beside {
        before: Kind::Whitespace,
        ending,
    };
    piece(&fence_line(fence, Cursor::new(content)), beside)
}
