//! Footnote definitions (in neither standard).
//!
//!     start     ::= small_indent '[^' label ']:' white*
//!     label     ::= ('\' ('[' | ']' | '\') | byte without brackets and white space)+, of at most 999 bytes
//!     continues ::= column_of_space{4}, or a blank rest
ghost use Rattle.std.specs.Prelude.{◌≡◌, true};
ghost use Rattle.definition_block.specs.BlockQuote.{after_byte as rest_after};
ghost use Rattle.definition_block.specs.GfmFootnoteDefinition as spec;
ghost use Rattle.block_starts.specs.Labels.{is_short};
ghost use Rattle.block_starts.specs.Marks.{footnote_may_start, is_mark};
ghost use Rattle.block_starts.specs.GfmFootnoteDefinition.{footnote_marker_if};
ghost use Rattle.block_starts.specs.View.{rest_of, rest_if, line_if, started_if};

use crate::container_line::{ContainerLine, kind_before_content};
use crate::cursor::Cursor;
use crate::indent::is_small;
use crate::list_item::item_continues;
use markdown_options::constants::{CODE_INDENT, LINK_REFERENCE_SIZE_MAX};
use markdown_options::{Constructs, Container};

/// The marker of a footnote definition: its label, and the rest after its colon.
#[derive(Clone, Copy)]
pub(crate) struct FootnoteMarker<'a> {
    label: &'a str,
    rest: Cursor<'a>,
}

/// Whether a footnote definition may start here: they are on, and the rest begins with `[^`.
#[inline(always)]
pub(crate) fn footnote_may_start(on: &Constructs, rest: &Cursor<'_>) -> bool
    ensures { result ≡ footnote_may_start on.now (rest_of rest.now) }
{
    on.gfm_footnote_definition && rest.begins_with_marker()
}

/// The footnote definition that starts here, and what it leaves of the line.
#[inline(always)]
pub(crate) fn footnote_start<'a>(
    on: &Constructs,
    rest: Cursor<'a>,
) -> Option<(Container<'a>, ContainerLine<'a>)>
    ensures { started_if result ≡ spec.footnote_start on.now (rest_of rest.entry) }
{
    if !footnote_may_start(on, &rest) {
        return None;
    }
    marked_footnote(on, rest)
}

/// The same where one may start.
#[inline(never)]
fn marked_footnote<'a>(
    on: &Constructs,
    rest: Cursor<'a>,
) -> Option<(Container<'a>, ContainerLine<'a>)>
    requires { footnote_may_start on.now (rest_of rest) ≡ true }
    ensures { started_if result ≡ spec.footnote_start on.now (rest_of rest.entry) }
{
    let (columns, bare) = rest.split_bare();
    if !is_small(on, columns) {
        return None;
    }
    let marker = footnote_marker(bare)?;
    let (_, content) = marker.rest.split_bare();
    let line = ContainerLine {
        rest: content,
        before: kind_before_content(marker.rest),
    };
    Some((Container::Footnote(marker.label), line))
}

/// The marker that a rest begins with.
fn footnote_marker(rest: Cursor<'_>) -> Option<FootnoteMarker<'_>>
    ensures { footnote_marker_if result ≡ spec.footnote_mark (rest_of rest.entry) }
{
    let bracket = after_byte(b'[', rest)?;
    let open = after_byte(b'^', bracket)?;
    let (label, after) = open.split_label()?;
    if !is_short(label) {
        return None;
    }
    let rest = after_byte(b':', after)?;
    Some(FootnoteMarker { label, rest })
}

/// At least one byte, and at most 999.
fn is_short(label: &str) -> bool
    ensures { result ≡ is_short label.now }
{
    !label.is_empty() && label.len() <= LINK_REFERENCE_SIZE_MAX
}

/// The rest after a byte of a marker, where it begins with it.
fn after_byte(byte: u8, rest: Cursor<'_>) -> Option<Cursor<'_>>
    requires { is_mark byte ≡ true }
    ensures { rest_if result ≡ rest_after byte (rest_of rest.entry) }
{
    let Some((first, after)) = rest.split_first() else {
        return None;
    };
    if first == byte { Some(after) } else { None }
}

/// What is left after four columns, where it goes on.
pub(crate) fn footnote_continues(rest: Cursor<'_>) -> Option<ContainerLine<'_>>
    ensures { line_if result ≡ spec.footnote_continues (rest_of rest.entry) }
{
    item_continues(CODE_INDENT, false, rest)
}
