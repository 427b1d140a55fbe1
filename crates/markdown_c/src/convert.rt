//! From a text to HTML in the caller's buffer.
ghost use Rattle.markdown_c_options.specs.Flags.{AreFlags, MeanFlags};
ghost use Rattle.markdown_buffers.specs.Pages.{StoresPage};
ghost use Rattle.markdown_buffers.specs.Statuses.{NamesCause};

use markdown_buffers::convert::convert;
use std::alloc::Global;

/// Converts a text to HTML in a buffer, and returns a status. `size` becomes the length of the page
/// in bytes if the status is `OK` or `ROOM`, and otherwise 0.
///
/// The buffer is written only with `OK`, from its start to the end of the page.
#[unsafe(no_mangle)]
pub extern "C" fn markdown_convert(
    alloc: Global,
    text: &[u8],
    flags: u32,
    buffer: &mut [u8],
    size: &mut usize,
) -> u32
    ensures cause { NamesCause (AreFlags flags) text.now result }
    ensures page { StoresPage (MeanFlags flags) text.now buffer.old buffer.new size.new result }
{
    convert(alloc, text, flags, buffer, size)
}
