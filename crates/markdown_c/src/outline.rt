//! From a text to its headings in the caller's array, and their texts and slugs in a buffer.
ghost use Rattle.markdown_c_options.specs.FlatOptions.{IsKnown, ReadsBy};
ghost use Rattle.markdown_buffers.specs.Outline.{StoresOutline};
ghost use Rattle.markdown_buffers.specs.Statuses.{NamesCause};

use markdown_buffers::flat_heading::FlatHeading;
use markdown_buffers::outline::list_outline_with;
use markdown_c_options::flat_options::FlatOptions;
use std::alloc::Global;

/// Finds the headings of a text by options, writes them into an array and their texts and slugs into
/// a buffer, and returns a status. If it is `OK` or `ROOM`, `count` becomes the number of headings,
/// and `size` the number of bytes of all texts and slugs; otherwise both become 0.
///
/// Array and buffer are written only with `OK`, from their starts. `ROOM` means that one of them is
/// too small. `FLAGS` also means that a text of the options isn't UTF-8, or that the struct's size is
/// another one.
#[unsafe(no_mangle)]
pub extern "C" fn markdown_list_outline_with(
    alloc: Global,
    text: &[u8],
    options: &FlatOptions<'_>,
    array: &mut [FlatHeading],
    count: &mut usize,
    buffer: &mut [u8],
    size: &mut usize,
) -> u32
    ensures cause { NamesCause (IsKnown options.now) text.now result }
    ensures outline { StoresOutline (ReadsBy options.now) text.now array.old array.new count.new buffer.old buffer.new size.new result }
{
    list_outline_with(alloc, text, options, array, count, buffer, size)
}
