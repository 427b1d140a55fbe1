//! From a text to HTML in the caller's buffer.
ghost use Rattle.std.specs.Prelude.{◌≡◌, ◌≤◌, ◌<◌, IfOk, length, string_bytes};
ghost use Rattle.markdown_compile_options.specs.Mdx.{HasNoMdx};
ghost use Rattle.markdown_definition.specs.Html.{html};
ghost use Rattle.markdown_tables.specs.Builtin.{builtin_tables};
ghost use Rattle.markdown_c_options.specs.Flags.{AreFlags, MeanFlags};
ghost use Rattle.markdown_c_options.specs.FlatOptions.{IsKnown, StandsFor};
ghost use Rattle.markdown_c_options.specs.Switches.{AreNumbers, MeanNumbers};
ghost use Rattle.markdown_buffers.specs.Pages.{StoresPage};
ghost use Rattle.markdown_buffers.specs.Statuses.{NamesCause};

use crate::status::{FLAGS, MEMORY, OK, ROOM, SIZE, UTF8};
use markdown::{Options, SIZE_MAX, fits, to_html_with_options};
use markdown_c_options::flags::{ALL, flagged_options};
use markdown_c_options::flat_options::{FlatOptions, asked_options, is_known};
use markdown_c_options::switches::{are_known, options_of_numbers};
use std::alloc::{AllocError, Allocator, Global};
use std::mem::ManuallyDrop;

/// Converts a text to HTML in a buffer, and returns a status. `size` becomes the length of the page
/// in bytes if the status is `OK` or `ROOM`, and otherwise 0.
///
/// The buffer is written only with `OK`, from its start to the end of the page.
#[tactic(auto, using(crate::proofs::Statuses::option_statuses, crate::proofs::Pages::no_page))]
pub fn convert<A: Allocator + Clone>(
    alloc: A,
    text: &[u8],
    flags: u32,
    buffer: &mut [u8],
    size: &mut usize,
) -> u32
    ensures cause { NamesCause (AreFlags flags) text.now result }
    ensures page { StoresPage (MeanFlags flags) text.now buffer.old buffer.new size.new result }
{
    *size = 0;
    if flags > ALL {
        return FLAGS;
    }
    // Not dropped: it owns no memory, and its destructor would need the C library, which WebAssembly
    // doesn't have.
    let options = ManuallyDrop::new(flagged_options(flags));
    convert_by(alloc, text, &*options, buffer, size)
}

/// Converts a text to HTML in a buffer by options, and returns a status, as [`convert`] does by
/// flags. `FLAGS` also means that a text of the options isn't UTF-8, or that the struct's size is
/// another one.
///
/// The texts of the options that aren't the default ones are copied to `heap`.
#[tactic(auto, using(crate::proofs::Statuses::option_statuses, crate::proofs::Pages::no_page))]
pub fn convert_with<A: Allocator + Clone>(
    alloc: A,
    heap: Global,
    text: &[u8],
    options: &FlatOptions<'_>,
    buffer: &mut [u8],
    size: &mut usize,
) -> u32
    ensures cause { NamesCause (IsKnown options.now) text.now result }
    ensures page { StoresPage (StandsFor options.now) text.now buffer.old buffer.new size.new result }
{
    *size = 0;
    if !is_known(options) {
        return FLAGS;
    }
    match asked_options(heap, options) {
        Ok(options) => convert_by(alloc, text, &options, buffer, size),
        Err(_) => cause(text),
    }
}

/// Converts a text to HTML in a buffer by numbers of options, and returns a status, as
/// [`convert_with`] does by a struct with the default texts.
#[tactic(auto, using(crate::proofs::Statuses::unknown_options, crate::proofs::Pages::no_page))]
pub fn convert_by_numbers<A: Allocator + Clone>(
    alloc: A,
    text: &[u8],
    constructs: u64,
    switches: u32,
    line_ending: u32,
    buffer: &mut [u8],
    size: &mut usize,
) -> u32
    ensures cause { NamesCause (AreNumbers constructs switches line_ending) text.now result }
    ensures page { StoresPage (MeanNumbers constructs switches line_ending) text.now buffer.old buffer.new size.new result }
{
    *size = 0;
    if !are_known(constructs, switches, line_ending) {
        return FLAGS;
    }
    // Not dropped (see `convert`).
    let options = ManuallyDrop::new(options_of_numbers(constructs, switches, line_ending));
    convert_by(alloc, text, &*options, buffer, size)
}

/// The status of a call that has no memory: another cause comes first.
#[tactic(auto, using(crate::proofs::Statuses::text_statuses))]
fn cause(text: &[u8]) -> u32
    ensures cause { NamesCause (Unit {0}) text.now result }
    ensures fault { ROOM < result }
{
    let Ok(text) = str::from_utf8(text) else {
        return UTF8;
    };
    if fits(text) { MEMORY } else { SIZE }
}

/// Converts a text to HTML in a buffer by options, which have no construct of MDX.
#[tactic(auto, using(crate::proofs::Statuses::text_statuses, crate::proofs::Pages::no_page))]
fn convert_by<A: Allocator + Clone>(
    alloc: A,
    text: &[u8],
    options: &Options,
    buffer: &mut [u8],
    size: &mut usize,
) -> u32
    requires without_mdx { HasNoMdx options.now }
    ensures cause { NamesCause (Unit {0}) text.now result }
    ensures page { StoresPage (λ it. it ≡ options.now) text.now buffer.old buffer.new size.new result }
{
    *size = 0;
    let Ok(text) = str::from_utf8(text) else {
        return UTF8;
    };
    if !fits(text) {
        return SIZE;
    }
    let Ok(page) = page_of(alloc, text, options) else {
        return MEMORY;
    };
    *size = page.len();
    if *size > buffer.len() {
        return ROOM;
    }
    buffer[..*size].copy_from_slice(page.as_bytes());
    OK
}

/// The page of a text, without the laws that `to_html_with_options` promises of it.
fn page_of<A: Allocator + Clone>(
    alloc: A,
    text: &str,
    options: &Options,
) -> Result<String<A>, AllocError>
    requires size { length text.now ≤ SIZE_MAX }
    requires without_mdx { HasNoMdx options.now }
    ensures { IfOk result (λ page. string_bytes page ≡ html builtin_tables text.now options.now) }
{
    match to_html_with_options(alloc, text, options) {
        Ok(page) => Ok(page),
        Err(_) => Err(AllocError),
    }
}
