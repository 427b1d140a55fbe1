//! Runs of one byte, and whether they may open and close spans (CommonMark 6.2).
//!
//!     run            ::= '*'+ | '_'+ | '~'+ | '='+, as long as it gets
//!     left-flanking  ::= no whitespace after the run; and where punctuation stands after it,
//!                        whitespace or punctuation before it
//!     right-flanking ::= the same the other way round
ghost use Rattle.std.specs.Prelude.{◌≡◌};
ghost use Rattle.definition_inline.specs.Attention.{is_whole, are_fitting, has_span_size, is_other, is_punctuation_kind, is_left_flanking, opens, run_between};
ghost use Rattle.inline_runs.specs.View.{run_view};

use crate::gfm_strikethrough::{is_strikethrough_size, is_tilde};
use crate::mark::{is_equals, is_mark_size};
use markdown_options::{Kind, ParseOptions};

/// A run of one byte (CommonMark 6.2).
#[derive(Clone, Copy)]
pub struct Run {
    /// The byte.
    pub marker: u8,
    /// How many of it are left.
    pub size: usize,
    /// Whether it may open spans.
    pub may_open: bool,
    /// Whether it may close spans.
    pub may_close: bool,
}

/// A run of so many of a byte between characters of these kinds (CommonMark 6.2).
pub fn run_between(
    options: &ParseOptions,
    marker: u8,
    size: usize,
    before: Kind,
    after: Kind,
) -> Run
    ensures { run_view result ≡ run_between options.now marker size before after }
{
    let may_form = has_span_size(options, marker, size);
    Run {
        marker,
        size,
        may_open: may_form && opens(marker, before, after),
        may_close: may_form && opens(marker, after, before),
    }
}

/// Whether runs of a byte go with runs of as many alone: of `~` and `=`. Those of the others are
/// taken apart.
pub(crate) fn is_whole(marker: u8) -> bool
    ensures { result ≡ is_whole marker }
{
    is_tilde(marker) || is_equals(marker)
}

/// Whether runs of these sizes may go together.
pub(crate) fn are_fitting(marker: u8, one: usize, other: usize) -> bool
    ensures { result ≡ are_fitting marker one other }
{
    !is_whole(marker) || one == other
}

/// Whether a run of so many of a byte may form a span.
fn has_span_size(options: &ParseOptions, marker: u8, size: usize) -> bool
    ensures { result ≡ has_span_size options.now marker size }
{
    if is_tilde(marker) {
        is_strikethrough_size(options, size)
    } else if is_equals(marker) {
        is_mark_size(size)
    } else {
        true
    }
}

/// Whether a run may open spans: if it is left-flanking. Of `_` only if it isn't right-flanking
/// too, or punctuation stands before it.
fn opens(marker: u8, before: Kind, after: Kind) -> bool
    ensures { result ≡ opens marker before after }
{
    is_left_flanking(before, after)
        && (marker != b'_' || !is_left_flanking(after, before) || is_punctuation(before))
}

/// Whether a run between these kinds is left-flanking.
fn is_left_flanking(before: Kind, after: Kind) -> bool
    ensures { result ≡ is_left_flanking before after }
{
    match after {
        Kind::Other => true,
        Kind::Punctuation => !is_other(before),
        Kind::Whitespace => false,
    }
}

fn is_other(kind: Kind) -> bool
    ensures { result ≡ is_other kind }
{
    matches!(kind, Kind::Other)
}

fn is_punctuation(kind: Kind) -> bool
    ensures { result ≡ is_punctuation_kind kind }
{
    matches!(kind, Kind::Punctuation)
}
