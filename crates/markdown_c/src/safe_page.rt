//! Whether a page is safe.
ghost use Rattle.std.specs.Prelude.{◌≡◌, ◌≤◌, ◌↔◌};
ghost use Rattle.std.specs.Str.{IsUtf8};
ghost use Rattle.html_safe_page.specs.SafePage.{IsSafePage};

use markdown_buffers::safe_page::check_page;
use markdown_buffers::status::{MEMORY, OK};
use std::alloc::Global;

/// Tests whether a page of any origin is safe, and returns a status, `OK` or `MEMORY`. `is_safe`
/// becomes 1 if the status is `OK` and the page is safe, and otherwise 0.
#[unsafe(no_mangle)]
pub extern "C" fn markdown_check_page(alloc: Global, page: &[u8], is_safe: &mut u32) -> u32
    ensures safe { result ≡ OK → ((is_safe.new ≡ 1) ↔ (IsUtf8 page.now × IsSafePage page.now)) }
    ensures number { is_safe.new ≤ 1 }
    ensures none { ¬ (result ≡ OK) → is_safe.new ≡ 0 }
    ensures status { ¬ (result ≡ OK) → result ≡ MEMORY }
{
    check_page(alloc, page, is_safe)
}
