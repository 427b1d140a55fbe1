//! Whether a page is safe.
ghost use Rattle.std.specs.Prelude.{◌≡◌, ◌≤◌, ◌↔◌};
ghost use Rattle.std.specs.Str.{IsUtf8};
ghost use Rattle.html_safe_page.specs.SafePage.{IsSafePage};

use crate::status::{MEMORY, OK};
use html_safe_page::is_safe_page;
use std::alloc::Allocator;

/// Tests whether a page of any origin is safe: UTF-8, with the letters, references and tags of a
/// fixed table alone (see `is_safe_page` of `html_safe_page`). Returns a status, `OK` or `MEMORY`.
/// `is_safe` becomes 1 if the status is `OK` and the page is safe, and otherwise 0.
pub fn check_page<A: Allocator>(alloc: A, page: &[u8], is_safe: &mut u32) -> u32
    ensures safe { result ≡ OK → ((is_safe.new ≡ 1) ↔ (IsUtf8 page.now × IsSafePage page.now)) }
    ensures number { is_safe.new ≤ 1 }
    ensures none { ¬ (result ≡ OK) → is_safe.new ≡ 0 }
    ensures status { ¬ (result ≡ OK) → result ≡ MEMORY }
{
    *is_safe = 0;
    let Ok(page) = str::from_utf8(page) else {
        return OK;
    };
    let Ok(safe) = is_safe_page(alloc, page) else {
        return MEMORY;
    };
    *is_safe = u32::from(safe);
    OK
}
