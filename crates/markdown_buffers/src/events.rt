//! From a text to its events in the caller's array.
ghost use Rattle.std.specs.Prelude.{◌≡◌, ◌≤◌, IfOk, false, length};
ghost use Rattle.markdown_options.specs.Mdx.{has_mdx};
ghost use Rattle.markdown_tables.specs.Builtin.{builtin_tables};
ghost use Rattle.parse_events.specs.Parsed.{AreEventsOf};
ghost use Rattle.markdown_c_options.specs.Flags.{AreFlags, ReadByFlags};
ghost use Rattle.markdown_c_options.specs.FlatOptions.{IsKnown, ReadsBy};
ghost use Rattle.markdown_buffers.specs.Events.{StoresEvents};
ghost use Rattle.markdown_buffers.specs.Statuses.{NamesCause};

use crate::flat_event::{FlatEvent, write_events};
use crate::status::{FLAGS, MEMORY, OK, ROOM, SIZE, UTF8};
use engine_events::Event;
use markdown::{Builtin, ParseOptions, SIZE_MAX, fits};
use markdown_c_options::flags::{ALL, flagged_parse_options};
use markdown_c_options::flat_options::{FlatOptions, is_known};
use markdown_c_options::switches::parse_options_of;
use parse_events::parse;
use std::alloc::{AllocError, Allocator};

/// Finds the events of a text, writes them into an array, and returns a status. `count` becomes the
/// number of events if the status is `OK` or `ROOM`, and otherwise 0.
///
/// The array is written only with `OK`, from its start to the last event. Flags for the HTML make no
/// difference.
#[tactic(auto, using(crate::proofs::Statuses::unknown_options, crate::proofs::Listed::no_events))]
pub fn list_events<A: Allocator + Clone>(
    alloc: A,
    text: &[u8],
    flags: u32,
    array: &mut [FlatEvent],
    count: &mut usize,
) -> u32
    ensures cause { NamesCause (AreFlags flags) text.now result }
    ensures events { StoresEvents (ReadByFlags flags) text.now array.old array.new count.new result }
{
    *count = 0;
    if flags > ALL {
        return FLAGS;
    }
    let options = flagged_parse_options(flags);
    list_by(alloc, text, &options, array, count)
}

/// Finds the events of a text by options, writes them into an array, and returns a status, as
/// [`list_events`] does by flags. `FLAGS` also means that a text of the options isn't UTF-8, or that
/// the struct's size is another one.
#[tactic(auto, using(crate::proofs::Statuses::unknown_options, crate::proofs::Listed::no_events))]
pub fn list_events_with<A: Allocator + Clone>(
    alloc: A,
    text: &[u8],
    options: &FlatOptions<'_>,
    array: &mut [FlatEvent],
    count: &mut usize,
) -> u32
    ensures cause { NamesCause (IsKnown options.now) text.now result }
    ensures events { StoresEvents (ReadsBy options.now) text.now array.old array.new count.new result }
{
    *count = 0;
    if !is_known(options) {
        return FLAGS;
    }
    let options = parse_options_of(options.constructs, options.switches);
    list_by(alloc, text, &options, array, count)
}

/// Writes the events of a text into an array by options, which have no construct of MDX.
#[tactic(auto, using(crate::proofs::Statuses::text_statuses, crate::proofs::Listed::stored_events))]
fn list_by<A: Allocator + Clone>(
    alloc: A,
    text: &[u8],
    options: &ParseOptions,
    array: &mut [FlatEvent],
    count: &mut usize,
) -> u32
    requires without_mdx { has_mdx options.now.constructs ≡ false }
    ensures cause { NamesCause (Unit {0}) text.now result }
    ensures events { StoresEvents (λ it. it ≡ options.now) text.now array.old array.new count.new result }
{
    *count = 0;
    let Ok(text) = str::from_utf8(text) else {
        return UTF8;
    };
    if !fits(text) {
        return SIZE;
    }
    let Ok(events) = events_of(alloc, text, options) else {
        return MEMORY;
    };
    *count = events.len();
    if *count > array.len() {
        return ROOM;
    }
    write_events(array, &events);
    OK
}

/// The events of a text.
#[tactic(auto, using(crate::proofs::Listed::are_events))]
pub(crate) fn events_of<A: Allocator + Clone>(
    alloc: A,
    text: &str,
    options: &ParseOptions,
) -> Result<Vec<Event, A>, AllocError>
    requires size { length text.now ≤ SIZE_MAX }
    requires without_mdx { has_mdx options.now.constructs ≡ false }
    ensures { IfOk result (λ events. AreEventsOf builtin_tables options.now text.now events.items) }
{
    match parse(alloc, text, options, &Builtin) {
        Ok((events, _)) => Ok(events),
        Err(_) => Err(AllocError),
    }
}
