//! From a text to its headings in the caller's array, and their texts and slugs in a buffer.
ghost use Rattle.std.specs.Prelude.{◌≡◌, ◌≤◌, IfOk, false, length};
ghost use Rattle.markdown_options.specs.Mdx.{has_mdx};
ghost use Rattle.markdown_c_options.specs.FlatOptions.{IsKnown, ReadsBy};
ghost use Rattle.markdown_buffers.specs.Outline.{IsOutlineOf, StoresOutline};
ghost use Rattle.markdown_buffers.specs.Statuses.{NamesCause};

use crate::events::events_of;
use crate::flat_heading::{FlatHeading, write_headings};
use crate::status::{FLAGS, MEMORY, OK, ROOM, SIZE, UTF8};
use crate::texts::write_text;
use markdown::{Builtin, ParseOptions, SIZE_MAX, fits};
use markdown_c_options::flat_options::{FlatOptions, is_known};
use markdown_c_options::switches::parse_options_of;
use markdown_outline::{Outline, outline};
use std::alloc::{AllocError, Allocator};

/// Finds the headings of a text by options, writes them into an array and their texts and slugs into
/// a buffer, and returns a status. If it is `OK` or `ROOM`, `count` becomes the number of headings,
/// and `size` the number of bytes of all texts and slugs; otherwise both become 0.
///
/// Array and buffer are written only with `OK`, from their starts. `ROOM` means that one of them is
/// too small. `FLAGS` also means that a text of the options isn't UTF-8, or that the struct's size is
/// another one.
#[tactic(auto, using(crate::proofs::Statuses::unknown_options, crate::proofs::ListedOutline::no_outline))]
pub fn list_outline_with<A: Allocator + Clone>(
    alloc: A,
    text: &[u8],
    options: &FlatOptions<'_>,
    array: &mut [FlatHeading],
    count: &mut usize,
    buffer: &mut [u8],
    size: &mut usize,
) -> u32
    ensures cause { NamesCause (IsKnown options.now) text.now result }
    ensures outline { StoresOutline (ReadsBy options.now) text.now array.old array.new count.new buffer.old buffer.new size.new result }
{
    *count = 0;
    *size = 0;
    if !is_known(options) {
        return FLAGS;
    }
    let options = parse_options_of(options.constructs, options.switches);
    list_by(alloc, text, &options, array, count, buffer, size)
}

/// Writes the headings of a text into an array and a buffer by options, which have no construct of
/// MDX.
#[tactic(auto, using(crate::proofs::Statuses::text_statuses, crate::proofs::ListedOutline::stored_outline))]
fn list_by<A: Allocator + Clone>(
    alloc: A,
    text: &[u8],
    options: &ParseOptions,
    array: &mut [FlatHeading],
    count: &mut usize,
    buffer: &mut [u8],
    size: &mut usize,
) -> u32
    requires without_mdx { has_mdx options.now.constructs ≡ false }
    ensures cause { NamesCause (Unit {0}) text.now result }
    ensures outline { StoresOutline (λ it. it ≡ options.now) text.now array.old array.new count.new buffer.old buffer.new size.new result }
{
    *count = 0;
    *size = 0;
    let Ok(text) = str::from_utf8(text) else {
        return UTF8;
    };
    if !fits(text) {
        return SIZE;
    }
    let Ok(found) = outline_of(alloc, text, options) else {
        return MEMORY;
    };
    *count = found.headings.len();
    *size = found.texts.len();
    if *count > array.len() {
        return ROOM;
    }
    let status = write_text(found.texts.as_str(), buffer, size);
    if status != OK {
        return status;
    }
    write_headings(array, &found.headings);
    OK
}

/// The headings of a text.
fn outline_of<A: Allocator + Clone>(
    alloc: A,
    text: &str,
    options: &ParseOptions,
) -> Result<Outline<A>, AllocError>
    requires size { length text.now ≤ SIZE_MAX }
    requires without_mdx { has_mdx options.now.constructs ≡ false }
    ensures { IfOk result (λ found. IsOutlineOf options.now text.now found) }
{
    let events = events_of(alloc.clone()?, text, options)?;
    outline(alloc, &events, text.as_bytes(), &Builtin)
}
