//! From a text to HTML in the caller's buffer, by numbers of options.
ghost use Rattle.markdown_c_options.specs.Switches.{AreNumbers, MeanNumbers};
ghost use Rattle.markdown_buffers.specs.Pages.{StoresPage};
ghost use Rattle.markdown_buffers.specs.Statuses.{NamesCause};

use markdown_buffers::convert::convert_by_numbers;
use std::alloc::Global;

/// Converts a text to HTML in a buffer by numbers of options, and returns a status, as
/// [`markdown_convert_with`] does by a struct with the default texts. It takes memory from `alloc`
/// alone, so that WebAssembly has it.
#[unsafe(no_mangle)]
pub extern "C" fn markdown_convert_by_numbers(
    alloc: Global,
    text: &[u8],
    constructs: u64,
    switches: u32,
    line_ending: u32,
    buffer: &mut [u8],
    size: &mut usize,
) -> u32
    ensures cause { NamesCause (AreNumbers constructs switches line_ending) text.now result }
    ensures page { StoresPage (MeanNumbers constructs switches line_ending) text.now buffer.old buffer.new size.new result }
{
    convert_by_numbers(alloc, text, constructs, switches, line_ending, buffer, size)
}
