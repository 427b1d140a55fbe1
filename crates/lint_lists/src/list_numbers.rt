//! list-numbers (MD029): a number that doesn't go on with those of its list.
//!
//! What is printed counts up from the first number, whatever the others are (CommonMark 5.3). So either each
//! number is one more than the one before, or all are the same.
//!
//! Example: `3. b` on the line after `1. a`.
use crate::item::{Item, Items};
use lint_document::{Document, Report, Rule};
use std::alloc::AllocError;

/// Reports the number of an item if it is neither one more than the one before nor the same as all others.
pub(crate) fn check(item: &Item, report: &mut Report) -> Result<(), AllocError> {
    let Some((number, wanted)) = wrong_number(item) else {
        return Ok(());
    };
    let words = ["item", ", wanted"];
    report.add_numbers(Rule::ListNumbers, item.marker.span, words, [number, wanted])
}

/// The number of an item, and that which it should have, if it has another.
fn wrong_number(item: &Item) -> Option<(usize, usize)> {
    let number = item.marker.number?;
    let first = item.first?.number?;
    // The first two items say whether all numbers are the same.
    let wanted = if item.is_same.unwrap_or(number == first) {
        first
    } else {
        item.last?.saturating_add(1)
    };
    if number == wanted {
        None
    } else {
        Some((number, wanted))
    }
}

/// Reports the numbers of items that the rule would find, one after the other, if each was mended. The words
/// of a finding are the number that the item should have.
pub fn renumber(document: &Document<'_>, report: &mut Report) -> Result<(), AllocError> {
    let mut items = Items::new(report.alloc());
    for step in document.steps() {
        if let Some(item) = items.read(&step)? {
            renumber_item(&item, report)?;
        }
    }
    Ok(())
}

/// Reports the number that an item should have, if it has another.
fn renumber_item(item: &Item, report: &mut Report) -> Result<(), AllocError> {
    match right_number(item) {
        Some(number) => {
            let what = format!(in report.alloc(); "{number}")?;
            report.add_made(Rule::ListNumbers, item.marker.span, what)
        }
        None => Ok(()),
    }
}

/// The number that an item should have by those of the first items of its list, if it has another.
fn right_number(item: &Item) -> Option<usize> {
    let number = item.marker.number?;
    let first = item.first?.number?;
    let wanted = if item.is_same.unwrap_or(number == first) {
        first
    } else {
        first.saturating_add(item.position)
    };
    if number == wanted { None } else { Some(wanted) }
}
