//! The first place of a page that isn't safe.
ghost use Rattle.std.specs.Prelude.{◌≡◌, ◌≤◌, IfOk, length};
ghost use Rattle.html_unsafe_place.specs.Place.{line_after, column_after, IsPlaceAt, IsFirstUnsafe};

use crate::what::{Unsafe, unsafe_at};
use html_safe_page::unsafe_place;
use std::alloc::{AllocError, Allocator};

/// A place of a page that isn't safe.
#[derive(Clone, Copy)]
pub struct UnsafePlace {
    /// The line, from 1. A line ends with a line feed.
    pub line: usize,
    /// The column, in bytes, from 1.
    pub column: usize,
    /// What is there.
    pub what: Unsafe,
}

/// Returns the first place of a page that isn't safe, or `None` if the page is safe.
///
/// The place is that of the first letter, reference or tag that can't follow what is before it, or
/// the end of the page if elements are left open. Time is linear in the page. The only error is out
/// of memory.
pub fn first_unsafe<A: Allocator>(alloc: A, page: &str) -> Result<Option<UnsafePlace>, AllocError>
    ensures { IfOk result (IsFirstUnsafe page.now) }
{
    let Some(offset) = unsafe_place(alloc, page)? else {
        return Ok(None);
    };
    Ok(Some(place_at(page.as_bytes(), offset)))
}

/// The place of this offset, and what is there.
fn place_at(page: &[u8], offset: usize) -> UnsafePlace
    requires { offset ≤ length page.now }
    ensures { IsPlaceAt page.now offset result }
{
    let (before, rest) = page.split_at(offset);
    let (line, column) = line_and_column(before);
    UnsafePlace {
        line,
        column,
        what: unsafe_at(rest),
    }
}

/// The line and the column after these bytes, both from 1.
fn line_and_column(before: &[u8]) -> (usize, usize)
    ensures line { result.0 ≡ line_after 1 before.now }
    ensures column { result.1 ≡ column_after 1 before.now }
{
    let mut line = 1;
    let mut column = 1;
    for byte in before {
        if *byte == b'\n' {
            line += 1;
            column = 1;
        } else {
            column += 1;
        }
    }
    (line, column)
}
