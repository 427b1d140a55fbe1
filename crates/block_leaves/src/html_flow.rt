//! HTML blocks (CommonMark 4.6).
//!
//!     start ::= small_indent start_of_a_kind
//!     end   ::= a line that holds the end of the kind, or nothing before a blank line
ghost use Rattle.std.specs.Prelude.{◌≡◌, ◌&&◌};
ghost use Rattle.definition_text.specs.Columns.{is_blank as is_blank_rest};
ghost use Rattle.definition_block.specs.HtmlFlow as spec;
ghost use Rattle.block_starts.specs.View.{rest_of};
ghost use Rattle.block_starts.specs.HtmlFlow.{number_of, kind_number};

use crate::leaves::{Leaves, piece};
use block_rows::Row;
use block_starts::Cursor;
use block_starts::html_flow::{HtmlKind, html_ends, html_kind};
use block_starts::indent::is_small;
use block_state::OpenLeaf;
use markdown_options::{Beside, Constructs, LineEnding};
use std::alloc::{AllocError, Allocator};

impl<'a, A: Allocator> Leaves<'a, A> {
    ghost use Rattle.std.specs.Prelude.{◌≡◌, OnOk, List, ℕ};
    ghost use Rattle.block_starts.specs.HtmlFlow.{number_of};
    ghost use Rattle.definition_text.specs.BlockLines.{BlockLine, last_ending};
    ghost use Rattle.definition_block.specs.Tree as tree;
    ghost use Rattle.block_state.specs.Shows.{leaf_lines};
    ghost use Rattle.block_leaves.specs.View.{Becomes, Closes};
    ghost use Rattle.block_starts.specs.View.{rest_of};

    /// One more line of an HTML block, which may end it.
    pub fn html_with(
        &mut self,
        kind: HtmlKind,
        rest: &Cursor<'a>,
        beside: Beside,
    ) -> Result<(), AllocError>
        ensures { OnOk result ((leaf : tree.OpenLeaf) (ls : List BlockLine) → leaf_lines leaf ≡ ls →
            Becomes self.old self.new leaf (tree.html_with (number_of kind) ls (rest_of rest.now) beside)) }
    {
        self.pieces.push(piece(rest, beside))?;
        self.leaf = OpenLeaf::Html {
            kind,
            ending: beside.ending,
        };
        if html_ends_here(kind, rest) {
            return self.close_html(beside.ending);
        }
        Ok(())
    }

    /// The open HTML block ends.
    pub(crate) fn close_html(&mut self, ending: Option<LineEnding>) -> Result<(), AllocError>
        ensures { OnOk result ((switches : Constructs) (kind : ℕ) (ls : List BlockLine) → ending ≡ last_ending ls →
            Closes self.old self.new (tree.OpenHtml kind ls) (tree.close_leaf switches (tree.OpenHtml kind ls))) }
    {
        let count = self.pieces.len() - self.lines_in_rows;
        self.end_leaf(Row::Html(count), ending)
    }
}

/// The kind of the HTML block that starts here. The last kind doesn't interrupt a paragraph.
pub fn html_start(on: &Constructs, paragraph: bool, rest: &Cursor<'_>) -> Option<HtmlKind>
    ensures { kind_number result ≡ spec.html_start on.now paragraph (rest_of rest.now) }
{
    if on.html_flow && is_small(on, rest.indent()) {
        html_kind(rest.bare_text().as_bytes(), paragraph)
    } else {
        None
    }
}

/// Whether a block of this kind ends on this line.
fn html_ends_here(kind: HtmlKind, rest: &Cursor<'_>) -> bool
    ensures { result ≡ spec.html_ends_here (number_of kind) (rest_of rest.now) }
{
    html_ends(kind, rest.bare_text().as_bytes())
}

/// Whether a block of this kind ends before this line, a blank one.
pub fn html_stops(kind: HtmlKind, rest: &Cursor<'_>) -> bool
    ensures { result ≡ (spec.ends_before_blank (number_of kind) && is_blank_rest (rest_of rest.now)) }
{
    ends_before_blank(kind) && rest.is_blank()
}

/// Whether a block of this kind ends before a blank line.
fn ends_before_blank(kind: HtmlKind) -> bool
    ensures { result ≡ spec.ends_before_blank (number_of kind) }
{
    matches!(kind, HtmlKind::Basic | HtmlKind::Complete)
}
