//! From any HTML to a page in the caller's buffer, by the list of elements and attributes that are kept.
ghost use Rattle.definition_html.specs.Listed.{sanitized};
ghost use Rattle.markdown_tables.specs.Builtin.{builtin_tables};
ghost use Rattle.markdown_c_options.specs.FlatOptions.{IsKnown};
ghost use Rattle.markdown_buffers.specs.Sanitized.{compile_options_of, StoresSanitized};
ghost use Rattle.markdown_buffers.specs.Statuses.{NamesCause};

use crate::status::{FLAGS, MEMORY, SIZE, UTF8};
use crate::texts::write_text;
use html_sanitizer::sanitized_html;
use markdown::{Builtin, CompileOptions, fits};
use markdown_c_options::flat_options::{FlatOptions, is_known};
use markdown_c_options::switches::options_of_numbers;
use std::alloc::Allocator;
use std::mem::ManuallyDrop;

/// Writes what is kept of any HTML into a buffer, by the list of elements and attributes of
/// `html_listed`, and returns a status. `size` becomes the length of the page in bytes if the status
/// is `OK` or `ROOM`, and otherwise 0. Of the options only the switches for protocols make a
/// difference.
///
/// The buffer is written only with `OK`, from its start to the end of the page. `FLAGS` also means
/// that a text of the options isn't UTF-8, or that the struct's size is another one.
#[tactic(auto, using(crate::proofs::Statuses::option_statuses, crate::proofs::Sanitized::nothing_stored))]
pub fn sanitize_with<A: Allocator + Clone>(
    alloc: A,
    html: &[u8],
    options: &FlatOptions<'_>,
    buffer: &mut [u8],
    size: &mut usize,
) -> u32
    ensures cause { NamesCause (IsKnown options.now) html.now result }
    ensures page { StoresSanitized (compile_options_of options.now) html.now buffer.old buffer.new size.new result }
{
    *size = 0;
    if !is_known(options) {
        return FLAGS;
    }
    // Not dropped (see `convert`). The texts of the options make no difference, so none is copied.
    let options = ManuallyDrop::new(options_of_numbers(
        options.constructs,
        options.switches,
        options.default_line_ending,
    ));
    sanitize_by(alloc, html, &options.compile, buffer, size)
}

/// Writes what is kept of any HTML into a buffer by options.
#[tactic(auto, using(crate::proofs::Statuses::text_statuses, crate::proofs::Sanitized::nothing_stored))]
fn sanitize_by<A: Allocator + Clone>(
    alloc: A,
    html: &[u8],
    options: &CompileOptions,
    buffer: &mut [u8],
    size: &mut usize,
) -> u32
    ensures cause { NamesCause (Unit {0}) html.now result }
    ensures page { StoresSanitized options.now html.now buffer.old buffer.new size.new result }
{
    *size = 0;
    let Ok(html) = str::from_utf8(html) else {
        return UTF8;
    };
    if !fits(html) {
        return SIZE;
    }
    let Ok(page) = sanitized_html(alloc, html, options, &Builtin) else {
        return MEMORY;
    };
    write_text(page.as_str(), buffer, size)
}
