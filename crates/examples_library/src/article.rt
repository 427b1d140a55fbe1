//! A comment as HTML.
ghost use Rattle.std.specs.Prelude.{◌≡◌, ◌≤◌, IfOk, IfErr, length, string_bytes};
ghost use Rattle.markdown_options.specs.Messages.{IsOutOfMemory};
ghost use Rattle.examples_library.specs.Article.{article};

use markdown::{Message, SIZE_MAX, to_html};
use std::alloc::Allocator;

/// A comment as an article: its page, in an element of its own.
///
/// The comment fits, which `markdown::fits` tests. The only error is want of memory.
pub fn article<A: Allocator + Clone>(alloc: A, comment: &str) -> Result<String<A>, Message>
    requires size { length comment.now ≤ SIZE_MAX }
    ensures page { IfOk result (λ page. string_bytes page ≡ article comment.now) }
    ensures memory { IfErr result IsOutOfMemory }
{
    let html = to_html(alloc.clone()?, comment)?;
    let mut page = String::new(alloc);
    page.push_str("<article>\n")?;
    page.push_str(&html)?;
    page.push_str("\n</article>\n")?;
    Ok(page)
}
