//! What each run becomes (CommonMark 6.2).
//!
//!     run ::= (end of a span)* byte* (start of a span)*
ghost use Rattle.std.specs.Prelude.{◌≡◌, ◌++◌, ◌-◌, ◌<◌, ◌≤◌, ◌+◌, ℕ, List, [], length, reverse, slice_index, OnOk};
ghost use Rattle.std.specs.List.{sum_by};
ghost use Rattle.inline_runs.specs.Threads.{opened_by, AreLinked, IsLast, HasThreads};
ghost use Rattle.inline_runs.specs.Laid.{HasTexts, IsLaidOut, pair_bytes};

use crate::pair::{Pair, bytes_by};
use crate::pairs::Pairs;
use std::alloc::{AllocError, Allocator};

/// What a run becomes at its place: its first bytes close spans, its last open spans, and what is
/// left between them is text (CommonMark 6.2).
#[derive(Clone, Copy)]
pub struct RunSpans<'a> {
    /// The pairs whose spans end here, the innermost first.
    pub closed: &'a [Pair],
    /// How many bytes are text.
    pub text: usize,
    /// The pairs whose spans start here, the outermost first.
    pub opened: &'a [Pair],
}

/// How many bytes of a run are text, and which pairs it opens.
#[derive(Clone, Copy)]
pub(crate) struct RunLayout {
    pub(crate) text: usize,
    /// The first of them in the list of opened pairs.
    pub(crate) start: usize,
    /// The one after the last.
    pub(crate) end: usize,
}

/// The pairs again, in the order in which their spans start.
#[derive(Drop)]
pub(crate) struct OpenedPairs<A: Allocator> {
    pub(crate) opened: Vec<Pair, A>,
    /// One for each run.
    pub(crate) laid: Vec<RunLayout, A>,
}

impl<A: Allocator> OpenedPairs<A> {
    ghost use Rattle.std.specs.Prelude.{◌≡◌};

    pub(crate) fn new(opened: Vec<Pair, A>, laid: Vec<RunLayout, A>) -> OpenedPairs<A>
        requires { laid.items ≡ [] }
        ensures { result.laid.items ≡ [] }
    {
        OpenedPairs { opened, laid }
    }

    /// No pairs.
    pub(crate) fn clear(&mut self)
        ensures opened { self.new.opened.items ≡ [] }
        ensures laid { self.new.laid.items ≡ [] }
    {
        self.opened.clear();
        self.laid.clear();
    }

    /// One more run, which had so many bytes.
    pub(crate) fn add(&mut self, pairs: &Pairs<A>, size: usize) -> Result<(), AllocError>
        requires threads { HasThreads pairs.now }
        requires run { length self.old.laid.items < length pairs.now.ends.items }
        ensures laid { IsLaidOut pairs.now self.old → OnOk result (IsLaidOut pairs.now self.new) }
        ensures texts { (sizes : List ℕ) → size ≡ slice_index sizes (length self.old.laid.items)
            → HasTexts pairs.now sizes self.old → OnOk result (HasTexts pairs.now sizes self.new) }
        ensures count { OnOk result (length self.new.laid.items ≡ length self.old.laid.items + 1) }
    {
        let ends = pairs.ends[self.laid.len()];
        let start = self.opened.len();
        self.open_pairs(&pairs.pairs, ends.last_opened)?;
        let closed = &pairs.pairs[ends.first_closed..ends.closed_end];
        let text = left_after(left_after(size, closed), &self.opened[start..]);
        let end = self.opened.len();
        self.laid.push(RunLayout { text, start, end })?;
        Ok(())
    }

    /// Adds the last of so many pairs, and those before it with the same opener, the last first.
    fn open_pairs(&mut self, pairs: &[Pair], count: usize) -> Result<(), AllocError>
        requires links { AreLinked pairs.now }
        requires within { count ≤ length pairs.now }
        ensures opened { (place : ℕ) → IsLast place pairs.now count
            → OnOk result (self.new.opened.items ≡ self.old.opened.items ++ reverse (opened_by place pairs.now)) }
        ensures laid { OnOk result (self.new.laid ≡ self.old.laid) }
    {
        let mut left = count;
        while left > 0 {
            let pair = pairs[left - 1];
            self.opened.push(pair)?;
            left = pair.earlier;
        }
        Ok(())
    }
}

/// How many bytes are left of so many when these pairs have taken theirs.
fn left_after(size: usize, pairs: &[Pair]) -> usize
    ensures { result ≡ size - sum_by pair_bytes pairs.now }
{
    let mut left = size;
    for pair in pairs {
        left = left.saturating_sub(bytes_by(pair.double));
    }
    left
}
