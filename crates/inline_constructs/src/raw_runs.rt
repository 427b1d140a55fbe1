//! Runs of a byte that raw text stands between, and where the last one of each size ends
//! (CommonMark 6.1).
//!
//!     run ::= marker+, with no such byte before or after it
ghost use Rattle.std.specs.Prelude.{◌≡◌, ◌∷◌, [], ◌<◌, ℕ, IfOk, IfSome, OnOk, drop, false, if◌then◌else◌, ◌==◌, nat_lt};
ghost use Rattle.std.specs.List.{prefix_len};
ghost use Rattle.std.specs.Option.{option_map};
ghost use Rattle.definition_inline.specs.CodeText.{run_of, raw_part};
ghost use Rattle.definition_text.specs.Content.{content_codes};
ghost use Rattle.inline_constructs.specs.Leaves.{IsRun};
ghost use Rattle.inline_leaves.specs.Leaves.{parts_of};
ghost use Rattle.inline_constructs.specs.RawRuns.{marker_byte, last_end, AreLastRuns};
ghost use Rattle.inline_constructs.specs.declared.raw_runs.LastRun.{LastRun as SeenRun};

use inline_leaves::LeafPart;
use inline_links::part::from;
use std::alloc::{AllocError, Allocator};
use text_bytes::run;

/// A byte whose runs raw text stands between.
#[derive(Clone, Copy)]
pub(crate) enum RawMarker {
    /// Of code spans (CommonMark 6.1).
    Backtick,
    /// Of math.
    Dollar,
}

impl RawMarker {
    /// The byte.
    pub(crate) fn byte(self) -> u8
        ensures { result ≡ marker_byte self }
    {
        match self {
            RawMarker::Backtick => b'`',
            RawMarker::Dollar => b'$',
        }
    }

    /// What runs of it hold (CommonMark 6.1).
    pub(crate) fn part(self, text: &str) -> LeafPart<'_>
        ensures { parts_of result ≡ raw_part (marker_byte self) (content_codes text.now) ∷ [] }
    {
        match self {
            RawMarker::Backtick => LeafPart::Code(text),
            RawMarker::Dollar => LeafPart::Math(text),
        }
    }
}

/// The last run of its size.
#[derive(Clone, Copy)]
pub(crate) struct LastRun {
    size: usize,
    // Where it ends.
    end: usize,
}

/// Where the first run of exactly so many of a byte begins.
pub(crate) fn first_run(marker: u8, bytes: &[u8], size: usize) -> Option<usize>
    requires { 0 < size }
    ensures read { option_map (λ end. drop end bytes.now) result ≡ run_of marker size false bytes.now }
    ensures run { IfSome result (λ end. IsRun marker bytes.now end size) }
{
    let mut at = 0;
    while at < bytes.len() {
        let run = run(marker, from(bytes, at));
        if run == size {
            return Some(at);
        }
        at += if run == 0 { 1 } else { run };
    }
    None
}

/// The last run of each size in a content, ascending by size. A content of n bytes has runs of fewer
/// sizes than the root of 2n.
pub(crate) fn last_runs<A: Allocator>(
    alloc: A,
    marker: u8,
    content: &[u8],
) -> Result<Vec<LastRun, A>, AllocError>
    ensures { IfOk result (λ runs. AreLastRuns marker content.now runs.items) }
{
    let mut runs = Vec::new(alloc);
    let mut at = 0;
    while at < content.len() {
        let size = run(marker, from(content, at));
        if size == 0 {
            at += 1;
        } else {
            at += size;
            keep(&mut runs, LastRun { size, end: at })?;
        }
    }
    Ok(runs)
}

/// Where the last run of a size ends, or 0 if there is none. In an ascending list it looks at no more
/// runs than the size.
pub(crate) fn last_end(runs: &[LastRun], size: usize) -> usize
    ensures { result ≡ last_end runs.now size }
{
    match runs.get(smaller(runs, size)) {
        Some(run) if run.size == size => run.end,
        _ => 0,
    }
}

/// Keeps a run, in place of an earlier one of its size.
fn keep<A: Allocator>(runs: &mut Vec<LastRun, A>, run: LastRun) -> Result<(), AllocError>
    ensures { (size : ℕ) → OnOk result (last_end runs.new.items size ≡ (if run.size == size then run.end else last_end runs.old.items size)) }
{
    let place = smaller(runs, run.size);
    if place < runs.len() && runs[place].size == run.size {
        runs[place] = run;
    } else {
        runs.insert(place, run)?;
    }
    Ok(())
}

/// How many runs at the front are smaller than a size.
fn smaller(runs: &[LastRun], size: usize) -> usize
    ensures { result ≡ prefix_len (λ (run : SeenRun). nat_lt run.size size) runs.now }
{
    for (i, run) in runs.iter().enumerate() {
        if run.size >= size {
            return i;
        }
    }
    runs.len()
}
