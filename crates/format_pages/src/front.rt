//! What is before the first block of a text: a byte order mark, and frontmatter.
ghost use Rattle.std.specs.Prelude.{◌≡◌, true, IfOk, IfSome, string_bytes};
ghost use Rattle.format_pages.specs.Front as spec;
ghost use Rattle.format_pages.specs.Calls as spec_calls;

use crate::constructs::every_construct;
use block_starts::frontmatter::without_frontmatter;
use std::alloc::{AllocError, Global};
use text_lines::without_mark;

/// How many bytes of a text are its byte order mark and its frontmatter.
pub(crate) fn front_size(text: &str) -> usize
    ensures { result ≡ spec.front_size text.now }
{
    let (before, marked) = without_mark(text);
    let (_, body) = without_frontmatter(&every_construct(), before, marked);
    text.len().saturating_sub(body.len())
}

/// Whether these bytes are the byte order mark and the frontmatter of a text.
pub(crate) fn has_front(text: &str, bytes: &[u8]) -> bool
    ensures { result ≡ true → spec.front text.now ≡ bytes.now }
{
    front(text) == bytes
}

/// A copy of the byte order mark and the frontmatter of a text.
pub(crate) fn copy_of_front(alloc: Global, text: &str) -> Result<Vec<u8>, AllocError>
    ensures { IfOk result (λ copy. copy.items ≡ spec.front text.now) }
{
    let mut copy = Vec::new(alloc);
    copy.extend_from_slice(front(text))?;
    Ok(copy)
}

/// The bytes of a byte order mark and frontmatter.
fn front(text: &str) -> &[u8]
    ensures { result.now ≡ spec.front text.now }
{
    let size = front_size(text);
    let bytes = text.as_bytes();
    if size <= bytes.len() {
        &bytes[..size]
    } else {
        bytes
    }
}

/// A text with these bytes after its byte order mark and its frontmatter. Returns none if that would cut a
/// character, which never happens.
pub(crate) fn with_calls(
    alloc: Global,
    calls: &str,
    text: &str,
) -> Result<Option<String>, AllocError>
    ensures { IfOk result (λ called. IfSome called (λ it. string_bytes it ≡ spec_calls.with_calls calls.now text.now)) }
{
    let size = front_size(text);
    let (Some(front), Some(body)) = (text.get(..size), text.get(size..)) else {
        return Ok(None);
    };
    let mut called = String::new(alloc);
    called.push_str(front)?;
    called.push_str(calls)?;
    called.push_str(body)?;
    Ok(Some(called))
}
