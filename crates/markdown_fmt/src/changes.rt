//! Which lines of a text differ from those of another.
use std::alloc::{AllocError, Global};

/// How many lines are looked through for the next one that both texts have.
const AHEAD: usize = 40;

/// Lines of a text, and those of another in their place.
#[derive(Clone, Copy)]
pub(crate) struct Change {
    /// The lines of the text: from this one, up to but without the other. They are numbered from 0.
    pub(crate) old_start: usize,
    pub(crate) old_end: usize,
    /// The lines of the other text.
    pub(crate) new_start: usize,
    pub(crate) new_end: usize,
}

/// The changes from lines to others, in their order and apart. They needn't be the fewest.
///
/// Time is linear: from a line that differs on, the nearest equal lines are looked for among a fixed number.
pub(crate) fn changes(
    alloc: Global,
    old: &[&str],
    new: &[&str],
) -> Result<Vec<Change>, AllocError> {
    let mut changes = Vec::new(alloc);
    let (mut at, mut new_at) = (0, 0);
    // Each round passes a line of one of the two.
    for _ in 0..old.len().saturating_add(new.len()) {
        let equal = equal_lines(old, new, at, new_at);
        (at, new_at) = (at.saturating_add(equal), new_at.saturating_add(equal));
        if at >= old.len() && new_at >= new.len() {
            break;
        }
        let change = next_change(old, new, at, new_at);
        changes.push(change)?;
        (at, new_at) = (change.old_end, change.new_end);
    }
    Ok(changes)
}

/// The number of lines that are equal from two places on.
fn equal_lines(old: &[&str], new: &[&str], at: usize, new_at: usize) -> usize {
    let others = new.iter().skip(new_at);
    let pairs = old.iter().skip(at).zip(others);
    pairs.take_while(|(line, other)| line == other).count()
}

/// The change that starts at two places, up to the nearest lines that are equal.
fn next_change(old: &[&str], new: &[&str], at: usize, new_at: usize) -> Change {
    let mut change = Change {
        old_start: at,
        old_end: at,
        new_start: new_at,
        new_end: new_at,
    };
    // Each round passes a line.
    for _ in 0..old.len().max(new.len()) {
        if let Some((lines, new_lines)) = nearest(old, new, change.old_end, change.new_end) {
            change.old_end = change.old_end.saturating_add(lines);
            change.new_end = change.new_end.saturating_add(new_lines);
            break;
        }
        change.old_end = change.old_end.saturating_add(1).min(old.len());
        change.new_end = change.new_end.saturating_add(1).min(new.len());
    }
    change
}

/// The numbers of lines from two places to the nearest ones that are equal, or to the ends of both texts.
fn nearest(old: &[&str], new: &[&str], at: usize, new_at: usize) -> Option<(usize, usize)> {
    for ahead in 0..AHEAD {
        for lines in 0..=ahead {
            let new_lines = ahead.saturating_sub(lines);
            let line = old.get(at.saturating_add(lines));
            if line == new.get(new_at.saturating_add(new_lines)) {
                return Some((lines, new_lines));
            }
        }
    }
    None
}
