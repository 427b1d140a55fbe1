//! The numbers of items.
use format_document::Document;
use format_edits::Edits;
use std::alloc::Global;
use std::str;

/// The numbers that the items of a list get.
#[derive(Clone, Copy, Default)]
pub(crate) struct Numbers {
    /// The number of the next item.
    next: usize,
    /// By how much numbers grow: 0 or 1.
    step: usize,
}

impl Numbers {
    /// The numbers of a list: they count up from that of its first item, unless its second one has the same.
    pub(crate) fn of(document: &Document<'_>, list: usize) -> Numbers {
        let mut first = None;
        for (item, _) in document.kids(list) {
            let number = number_of(document, item);
            match (first, number) {
                (Some(first), Some(second)) => {
                    return Numbers {
                        next: first,
                        step: usize::from(first != second),
                    };
                }
                (None, _) => first = number,
                _ => {}
            }
        }
        Numbers {
            next: first.unwrap_or(0),
            step: 1,
        }
    }

    /// The number of the next item.
    pub(crate) fn next(&mut self) -> usize {
        let number = self.next;
        self.next = number.saturating_add(self.step);
        number
    }
}

/// The number of an item, if it has one.
fn number_of(document: &Document<'_>, item: usize) -> Option<usize> {
    let prefix = document.prefix_of(item)?;
    let digits = str::from_utf8(document.between(prefix.start, prefix.marker)).ok()?;
    digits.parse().ok()
}

/// Writes a number. Returns how many bytes it takes.
pub(crate) fn write_number(alloc: Global, number: usize, edits: &mut Edits) -> usize {
    match format!(in alloc; "{number}") {
        Ok(digits) => {
            edits.write(digits.as_bytes());
            digits.len()
        }
        Err(_) => {
            edits.fail();
            0
        }
    }
}
