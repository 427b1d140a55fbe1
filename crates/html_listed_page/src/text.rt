//! Texts of a page.
ghost use Rattle.std.specs.Prelude.{◌↔◌, IfOk, IsTrue};
ghost use Rattle.html_listed_page.specs.Tags.{IsText};

use html_safe_page::is_safe_page;
use std::alloc::{AllocError, Allocator};

/// Whether a text has only letters and references. It is a safe page without tags then.
pub(crate) fn is_text<A: Allocator>(alloc: &A, text: &str) -> Result<bool, AllocError>
    ensures { IfOk result (λ yes. IsTrue yes ↔ IsText text.now) }
{
    if text.contains('<') {
        return Ok(false);
    }
    is_safe_page(alloc, text)
}
