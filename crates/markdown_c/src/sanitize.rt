//! From any HTML to a page in the caller's buffer, by the list of elements and attributes that are kept.
ghost use Rattle.markdown_c_options.specs.FlatOptions.{IsKnown};
ghost use Rattle.markdown_buffers.specs.Sanitized.{compile_options_of, StoresSanitized};
ghost use Rattle.markdown_buffers.specs.Statuses.{NamesCause};

use markdown_buffers::sanitize::sanitize_with;
use markdown_c_options::flat_options::FlatOptions;
use std::alloc::Global;

/// Writes what is kept of any HTML into a buffer, by the list of elements and attributes of
/// `html_listed`, and returns a status. `size` becomes the length of the page in bytes if the status
/// is `OK` or `ROOM`, and otherwise 0. Of the options only the switches for protocols make a
/// difference.
///
/// The buffer is written only with `OK`, from its start to the end of the page. `FLAGS` also means
/// that a text of the options isn't UTF-8, or that the struct's size is another one.
#[unsafe(no_mangle)]
pub extern "C" fn markdown_sanitize_with(
    alloc: Global,
    html: &[u8],
    options: &FlatOptions<'_>,
    buffer: &mut [u8],
    size: &mut usize,
) -> u32
    ensures cause { NamesCause (IsKnown options.now) html.now result }
    ensures page { StoresSanitized (compile_options_of options.now) html.now buffer.old buffer.new size.new result }
{
    sanitize_with(alloc, html, options, buffer, size)
}
