//! What changes in a text, as a unified diff.
use crate::changes::{Change, changes};
use std::alloc::{AllocError, Global};

/// How many lines that don't change are printed around those that do.
const CONTEXT: usize = 3;

/// The unified diff from a text to another, with a name for both.
pub(crate) fn diff(alloc: Global, name: &str, old: &str, new: &str) -> Result<String, AllocError> {
    let old = lines_of(alloc, old)?;
    let new = lines_of(alloc, new)?;
    let changes = changes(alloc, &old, &new)?;
    let mut hunks = Hunks {
        alloc,
        old: &old,
        new: &new,
        text: format!(in alloc; "--- {name}\n+++ {name}\n")?,
    };
    let mut hunk = Vec::new(alloc);
    for change in &changes {
        if is_apart(hunk.last(), change) {
            hunks.push_hunk(&hunk)?;
            hunk = Vec::new(alloc);
        }
        hunk.push(*change)?;
    }
    hunks.push_hunk(&hunk)?;
    Ok(hunks.text)
}

/// The lines of a text with their endings.
fn lines_of(alloc: Global, text: &str) -> Result<Vec<&str>, AllocError> {
    let mut lines = Vec::new(alloc);
    for line in text.split_inclusive('\n') {
        lines.push(line)?;
    }
    Ok(lines)
}

/// Whether the lines around a change and those around the one before it are apart.
fn is_apart(before: Option<&Change>, change: &Change) -> bool {
    match before {
        Some(before) => change.old_start.saturating_sub(before.old_end) > 2 * CONTEXT,
        None => false,
    }
}

/// The changed parts of a text, as they are written.
#[derive(Drop)]
struct Hunks<'a> {
    alloc: Global,
    /// The lines of both texts.
    old: &'a [&'a str],
    new: &'a [&'a str],
    /// What is written.
    text: String,
}

impl Hunks<'_> {
    /// Adds changes that are near each other, and the lines around them.
    fn push_hunk(&mut self, changes: &[Change]) -> Result<(), AllocError> {
        let (Some(first), Some(last)) = (changes.first(), changes.last()) else {
            return Ok(());
        };
        let before = first.old_start.min(CONTEXT);
        let after = self.old.len().saturating_sub(last.old_end).min(CONTEXT);
        let start = first.old_start.saturating_sub(before);
        let end = last.old_end.saturating_add(after);
        let new_start = first.new_start.saturating_sub(before);
        let new_end = last.new_end.saturating_add(after);
        self.push_head(start, end, new_start, new_end)?;
        let mut at = start;
        for change in changes {
            self.push_lines(' ', at, change.old_start)?;
            self.push_lines('-', change.old_start, change.old_end)?;
            self.push_lines('+', change.new_start, change.new_end)?;
            at = change.old_end;
        }
        self.push_lines(' ', at, end)
    }

    /// Adds the numbers of the lines of a hunk. They count from 1, and from 0 where there are no lines.
    fn push_head(
        &mut self,
        start: usize,
        end: usize,
        new_start: usize,
        new_end: usize,
    ) -> Result<(), AllocError> {
        let size = end.saturating_sub(start);
        let new_size = new_end.saturating_sub(new_start);
        let number = start.saturating_add(size.min(1));
        let new_number = new_start.saturating_add(new_size.min(1));
        let head = format!(in self.alloc; "@@ -{number},{size} +{new_number},{new_size} @@\n")?;
        self.text.push_str(&head)
    }

    /// Adds the lines from one up to but without another, with a mark: of the new text, if it is `+`.
    fn push_lines(&mut self, mark: char, start: usize, end: usize) -> Result<(), AllocError> {
        let lines = if mark == '+' { self.new } else { self.old };
        for line in lines.iter().skip(start).take(end.saturating_sub(start)) {
            self.text.push(mark)?;
            self.text.push_str(line)?;
            if !line.ends_with('\n') {
                self.text.push_str("\n\\ No newline at end of file\n")?;
            }
        }
        Ok(())
    }
}
