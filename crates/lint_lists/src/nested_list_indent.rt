//! nested-list-indent (MD007): a list of bullets in others that isn't indented by two columns a level, or by
//! another number of columns that is asked for.
//!
//! Two columns are what `- ` takes, so that the items in an item are below its text. Lists in items with
//! numbers aren't looked at, and of a list only its first item.
//!
//! Example: four spaces and `- b` on the line after `- a`.
use crate::item::Item;
use lint_document::{Report, Rule};
use std::alloc::AllocError;

/// Reports the first item of a list of bullets if it isn't indented by so many columns a level.
pub(crate) fn check(
    item: &Item,
    level_indent: usize,
    report: &mut Report,
) -> Result<(), AllocError> {
    let Some(wanted) = wanted_indent(item, level_indent) else {
        return Ok(());
    };
    let words = ["list indented by", ", wanted"];
    let numbers = [item.marker.indent, wanted];
    report.add_numbers(Rule::NestedListIndent, item.marker.span, words, numbers)
}

/// The indent that a list should have by so many columns a level, if it has another and this is its first
/// item.
fn wanted_indent(item: &Item, level_indent: usize) -> Option<usize> {
    let level = item.level?;
    let wanted = level.saturating_mul(level_indent);
    let is_right = item.first.is_some()
        || item.marker.number.is_some()
        || item.marker.indent == wanted;
    if is_right { None } else { Some(wanted) }
}
