//! Pairs of runs, and the spans that they stand for (CommonMark 6.2 and GFM 6.5).
ghost use Rattle.std.specs.Prelude.{◌≡◌};
ghost use Rattle.definition_inline.specs.Pairing.{bytes_of_pair};
ghost use Rattle.inline_runs.specs.View.{run_view, bytes_by, span_by};

use crate::gfm_strikethrough::is_tilde;
use crate::mark::is_equals;
use crate::run::Run;

/// What a pair of runs stands for (CommonMark 6.2 and GFM 6.5).
#[derive(Clone, Copy)]
pub enum Span {
    /// Emphasis, of one `*` or `_` on each side.
    Emphasis,
    /// Strong emphasis, of two `*` or `_` on each side.
    Strong,
    /// Strikethrough, of one or two `~` on each side.
    Strikethrough,
    /// Marked text, of two `=` on each side.
    Mark,
}

/// Two runs that go together, by their places among the runs of their container.
#[derive(Clone, Copy)]
pub struct Pair {
    /// The run that opens the span.
    pub opener: usize,
    /// The run that closes it.
    pub closer: usize,
    /// Whether it takes two bytes of each run, and not one.
    pub double: bool,
    /// One more than the place of the pair before this one that has the same opener; 0 if this is
    /// the first.
    pub(crate) earlier: usize,
}

impl Pair {
    /// What it stands for, by the byte of its runs.
    pub fn span(&self, marker: u8) -> Span
        ensures { result ≡ span_by marker self.now.double }
    {
        if is_tilde(marker) {
            Span::Strikethrough
        } else if is_equals(marker) {
            Span::Mark
        } else if self.double {
            Span::Strong
        } else {
            Span::Emphasis
        }
    }
}

/// How many bytes a pair takes of each run, by whether it takes two (CommonMark 6.2).
pub fn bytes_by(double: bool) -> usize
    ensures { result ≡ bytes_by double }
{
    if double { 2 } else { 1 }
}

/// Whether two runs that go together take two bytes of each: where both have two left.
pub(crate) fn is_double(opener: &Run, closer: &Run) -> bool
    ensures { bytes_by result ≡ bytes_of_pair (run_view opener.now) (run_view closer.now) }
{
    opener.size >= 2 && closer.size >= 2
}
