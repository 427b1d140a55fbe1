//! Strings and labels of the caller's, for buffers of the caller's.
ghost use Rattle.std.specs.Prelude.{◌≡◌, ◌≤◌, ◌↔◌, IfOk, length, string_bytes};
ghost use Rattle.definition_text.specs.Content.{content_codes};
ghost use Rattle.definition_inline.specs.LabelMatch.{normal_label};
ghost use Rattle.markdown_buffers.specs.Pages.{HoldsPage};
ghost use Rattle.markdown_buffers.specs.Texts.{decoded, StoresText};

use crate::status::{MEMORY, OK, ROOM, UTF8};
use html_inline::push_string;
use inline_labels::normalize_identifier;
use markdown_options::Constructs;
use markdown_tables::Builtin;
use std::alloc::{AllocError, Allocator};

/// Writes what a string stands for into a buffer: escapes and character references are replaced
/// (CommonMark 2.4 and 2.5), and spaces and tabs around line endings are dropped. Returns a status.
/// `size` becomes its length in bytes if the status is `OK` or `ROOM`, and otherwise 0.
///
/// The buffer is written only with `OK`, from its start.
#[tactic(auto, using(crate::proofs::WrittenTexts::no_text, crate::proofs::WrittenTexts::no_memory))]
pub fn decode<A: Allocator>(alloc: A, text: &[u8], buffer: &mut [u8], size: &mut usize) -> u32
    ensures { StoresText text.now (decoded text.now) buffer.old buffer.new size.new result }
{
    *size = 0;
    let Ok(text) = str::from_utf8(text) else {
        return UTF8;
    };
    let Ok(decoded) = decoded(alloc, text) else {
        return MEMORY;
    };
    write_text(decoded.as_str(), buffer, size)
}

/// Writes the form in which a label matches others into a buffer (CommonMark 6.3): its case folded in
/// full, no white space at the ends, and one space for white space inside. Returns a status, as
/// [`decode`] does. The label is the text between the brackets.
#[tactic(auto, using(crate::proofs::WrittenTexts::no_text, crate::proofs::WrittenTexts::no_memory))]
pub fn normalize_label<A: Allocator>(
    alloc: A,
    label: &[u8],
    buffer: &mut [u8],
    size: &mut usize,
) -> u32
    ensures { StoresText label.now (normal_label (content_codes label.now)) buffer.old buffer.new size.new result }
{
    *size = 0;
    let Ok(label) = str::from_utf8(label) else {
        return UTF8;
    };
    let Ok(normal) = normalize_identifier(alloc, label) else {
        return MEMORY;
    };
    write_text(normal.as_str(), buffer, size)
}

/// The text that a string stands for.
fn decoded<A: Allocator>(alloc: A, text: &str) -> Result<String<A>, AllocError>
    ensures { IfOk result (λ out. string_bytes out ≡ decoded text.now) }
{
    let mut out = String::new(alloc);
    push_string(&mut out, &Constructs::default(), &Builtin, text)?;
    Ok(out)
}

/// Writes a text at the front of a buffer, if it fits.
pub(crate) fn write_text(text: &str, buffer: &mut [u8], size: &mut usize) -> u32
    ensures ok { result ≡ OK → HoldsPage text.now buffer.old buffer.new }
    ensures unchanged { ¬ (result ≡ OK) → buffer.new ≡ buffer.old }
    ensures stored { size.new ≡ length text.now }
    ensures room { (result ≡ OK) ↔ (size.new ≤ length buffer.old) }
    ensures statuses { result ≤ ROOM }
{
    *size = text.len();
    if *size > buffer.len() {
        return ROOM;
    }
    buffer[..*size].copy_from_slice(text.as_bytes());
    OK
}
