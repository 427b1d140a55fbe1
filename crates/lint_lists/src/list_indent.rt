//! list-indent (MD005): an item that is indented otherwise than the first of its list.
//!
//! It looks like an item of another list. Numbers may be aligned at their ends.
//!
//! Example: ` - b` on the line after `- a`.
use crate::item::Item;
use lint_document::{Report, Rule};
use std::alloc::AllocError;

/// Reports an item if it is indented otherwise than the first of its list.
pub(crate) fn check(item: &Item, report: &mut Report) -> Result<(), AllocError> {
    let Some(wanted) = wanted_indent(item) else {
        return Ok(());
    };
    let words = ["item indented by", ", the first by"];
    let numbers = [item.marker.indent, wanted];
    report.add_numbers(Rule::ListIndent, item.marker.span, words, numbers)
}

/// The indent of the first item of the list, if the item has another.
fn wanted_indent(item: &Item) -> Option<usize> {
    let first = item.first?;
    let marker = item.marker;
    let is_aligned = marker.indent == first.indent
        || marker.number.is_some() && marker.end == first.end;
    if is_aligned { None } else { Some(first.indent) }
}
