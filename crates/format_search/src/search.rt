//! Which edits of a text keep the document the same.
//!
//! All are tried at once. If the document changes, halves of the groups are tried, and so on, each with the
//! blocks that it is in alone: so the search costs little more than the pages of each block. Blocks depend
//! on one another, so the whole text is compared at the end. If it changed, halves are tried once more,
//! with the whole text.
ghost use Rattle.std.specs.Prelude.{IfOk, IfSome, string_bytes};

use crate::reader::Reader;
use format_edits::{Edits, Window};
use std::alloc::{AllocError, Global};

/// How many times the size of a text its search may read. What isn't decided then is left out. So time
/// is linear.
const SIZES_MAX: usize = 64;

/// What a page of few bytes costs beside them, in bytes.
const PAGE_COST: usize = 64;

/// Edits of a text, of which some keep the document the same.
#[derive(Drop)]
pub struct Search<'a, R> {
    /// The allocator.
    pub alloc: Global,
    /// What compares texts.
    pub reader: &'a R,
    /// The text.
    pub text: &'a str,
    /// The edits of the text, finished.
    pub edits: &'a Edits,
}

/// Groups of edits: from one, up to but without another.
#[derive(Clone, Copy)]
struct Range {
    first: usize,
    past: usize,
}

/// What is read to find out if edits keep the document the same.
#[derive(Clone, Copy)]
enum Scope {
    /// The blocks that they are in.
    Blocks,
    /// The whole text.
    Text,
}

impl<'a, R: Reader> Search<'a, R> {
    /// The text after those edits that keep the document the same, or none if no edit does.
    pub fn edited(&self) -> Result<Option<String>, AllocError>
        ensures { IfOk result (λ next. IfSome next (λ it. R.is_kept self.now.reader.now (string_bytes it))) }
    {
        let all = self.with_all()?;
        if all.is_some() || self.edits.groups() < 2 {
            return Ok(all);
        }
        let by_blocks = self.with_kept(Scope::Blocks)?;
        if by_blocks.is_some() {
            return Ok(by_blocks);
        }
        self.with_kept(Scope::Text)
    }

    /// The text after all edits, if it is the same document.
    pub fn with_all(&self) -> Result<Option<String>, AllocError>
        ensures { IfOk result (λ next. IfSome next (λ it. R.is_kept self.now.reader.now (string_bytes it))) }
    {
        let kept = vec![in self.alloc; true; self.edits.groups()]?;
        self.with(&kept)
    }

    /// The text after the edits that a search keeps, if it is the same document.
    fn with_kept(&self, scope: Scope) -> Result<Option<String>, AllocError>
        ensures { IfOk result (λ next. IfSome next (λ it. R.is_kept self.now.reader.now (string_bytes it))) }
    {
        let mut kept = vec![in self.alloc; false; self.edits.groups()]?;
        self.search(scope, &mut kept)?;
        self.with(&kept)
    }

    /// The text after the groups of edits that are kept, if it is the same document.
    fn with(&self, kept: &[bool]) -> Result<Option<String>, AllocError>
        ensures { IfOk result (λ next. IfSome next (λ it. R.is_kept self.now.reader.now (string_bytes it))) }
    {
        let Some(next) = self.edits.apply(self.alloc, self.text, self.whole(), kept)? else {
            return Ok(None);
        };
        if self.reader.is_same(&next)? {
            Ok(Some(next))
        } else {
            Ok(None)
        }
    }

    /// Keeps groups of edits that change nothing that is compared of what is read.
    fn search(&self, scope: Scope, kept: &mut [bool]) -> Result<(), AllocError> {
        let mut ranges = halves(self.alloc, kept.len())?;
        let mut size = self.text.len().saturating_mul(SIZES_MAX);
        for _ in 0..kept.len().saturating_mul(2) {
            let Some(range) = ranges.pop() else {
                break;
            };
            let window = self.window(scope, range);
            let cost = window.size().saturating_add(PAGE_COST);
            if cost <= size {
                size = size.saturating_sub(cost);
                if !self.keep(range, window, kept)? {
                    push_halves(&mut ranges, range)?;
                }
            }
        }
        Ok(())
    }

    /// Keeps the groups of a range if a window stays the same. Returns whether it does.
    fn keep(&self, range: Range, window: Window, kept: &mut [bool]) -> Result<bool, AllocError> {
        set_range(kept, range, true);
        let keeps = self.keeps(window, kept)?;
        if !keeps {
            set_range(kept, range, false);
        }
        Ok(keeps)
    }

    /// Whether a window stays the same with the groups that are kept.
    fn keeps(&self, window: Window, kept: &[bool]) -> Result<bool, AllocError> {
        match self.edits.apply(self.alloc, self.text, window, kept)? {
            Some(new) => self.is_same_in(window, &new),
            None => Ok(false),
        }
    }

    /// Whether a text may come in place of a window: the whole text is compared as a document, blocks by
    /// their pages.
    fn is_same_in(&self, window: Window, new: &str) -> Result<bool, AllocError> {
        if window.size() == self.text.len() {
            return self.reader.is_same(new);
        }
        match self.text.get(window.start..window.end) {
            Some(old) => self.reader.have_same_pages(old, new),
            None => Ok(false),
        }
    }

    /// What is read to find out if the groups of a range may be kept.
    fn window(&self, scope: Scope, range: Range) -> Window {
        match scope {
            Scope::Blocks => self.edits.window(range.first, range.past),
            Scope::Text => self.whole(),
        }
    }

    /// The whole text.
    fn whole(&self) -> Window {
        Window {
            start: 0,
            end: self.text.len(),
        }
    }
}

/// The two halves of a number of groups, the first one last.
fn halves(alloc: Global, groups: usize) -> Result<Vec<Range>, AllocError> {
    let mut ranges = Vec::new(alloc);
    push_halves(
        &mut ranges,
        Range {
            first: 0,
            past: groups,
        },
    )?;
    Ok(ranges)
}

/// Adds the two halves of a range of groups, the first one last. A single group has none.
fn push_halves(ranges: &mut Vec<Range>, range: Range) -> Result<(), AllocError> {
    let size = range.past.saturating_sub(range.first);
    if size > 1 {
        let middle = range.first.saturating_add(size / 2);
        ranges.push(Range {
            first: middle,
            past: range.past,
        })?;
        ranges.push(Range {
            first: range.first,
            past: middle,
        })?;
    }
    Ok(())
}

/// Keeps or leaves out the groups of a range.
fn set_range(kept: &mut [bool], range: Range, is_kept: bool) {
    if range.first <= range.past && range.past <= kept.len() {
        kept[range.first..range.past].fill(is_kept);
    }
}
