//! Strings and labels of the caller's, for buffers of the caller's.
ghost use Rattle.definition_text.specs.Content.{content_codes};
ghost use Rattle.definition_inline.specs.LabelMatch.{normal_label};
ghost use Rattle.markdown_buffers.specs.Texts.{decoded, StoresText};

use markdown_buffers::texts::{decode, normalize_label};
use std::alloc::Global;

/// Writes what a string stands for into a buffer: escapes and character references are replaced
/// (CommonMark 2.4 and 2.5), and spaces and tabs around line endings are dropped. Returns a status.
/// `size` becomes its length in bytes if the status is `OK` or `ROOM`, and otherwise 0.
///
/// The buffer is written only with `OK`, from its start.
#[unsafe(no_mangle)]
pub extern "C" fn markdown_decode(
    alloc: Global,
    text: &[u8],
    buffer: &mut [u8],
    size: &mut usize,
) -> u32
    ensures { StoresText text.now (decoded text.now) buffer.old buffer.new size.new result }
{
    decode(alloc, text, buffer, size)
}

/// Writes the form in which a label matches others into a buffer (CommonMark 6.3): its case folded in
/// full, no white space at the ends, and one space for white space inside. Returns a status, as
/// [`markdown_decode`] does. The label is the text between the brackets.
#[unsafe(no_mangle)]
pub extern "C" fn markdown_normalize_label(
    alloc: Global,
    label: &[u8],
    buffer: &mut [u8],
    size: &mut usize,
) -> u32
    ensures { StoresText label.now (normal_label (content_codes label.now)) buffer.old buffer.new size.new result }
{
    normalize_label(alloc, label, buffer, size)
}
