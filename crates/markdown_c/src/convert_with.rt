//! From a text to HTML in the caller's buffer, by options.
ghost use Rattle.markdown_c_options.specs.FlatOptions.{IsKnown, StandsFor};
ghost use Rattle.markdown_buffers.specs.Pages.{StoresPage};
ghost use Rattle.markdown_buffers.specs.Statuses.{NamesCause};

use markdown_buffers::convert::convert_with;
use markdown_c_options::flat_options::FlatOptions;
use std::alloc::Global;

/// Converts a text to HTML in a buffer by options, and returns a status, as [`markdown_convert`]
/// does by flags. `FLAGS` also means that a text of the options isn't UTF-8, or that the struct's
/// size is another one.
#[unsafe(no_mangle)]
pub extern "C" fn markdown_convert_with(
    alloc: Global,
    text: &[u8],
    options: &FlatOptions<'_>,
    buffer: &mut [u8],
    size: &mut usize,
) -> u32
    ensures cause { NamesCause (IsKnown options.now) text.now result }
    ensures page { StoresPage (StandsFor options.now) text.now buffer.old buffer.new size.new result }
{
    convert_with(alloc, alloc, text, options, buffer, size)
}
