//! From a text to its events in the caller's array.
ghost use Rattle.markdown_c_options.specs.Flags.{AreFlags, ReadByFlags};
ghost use Rattle.markdown_c_options.specs.FlatOptions.{IsKnown, ReadsBy};
ghost use Rattle.markdown_buffers.specs.Events.{StoresEvents};
ghost use Rattle.markdown_buffers.specs.Statuses.{NamesCause};

use markdown_buffers::events::{list_events, list_events_with};
use markdown_buffers::flat_event::FlatEvent;
use markdown_c_options::flat_options::FlatOptions;
use std::alloc::Global;

/// Finds the events of a text, writes them into an array, and returns a status. `count` becomes the
/// number of events if the status is `OK` or `ROOM`, and otherwise 0.
///
/// The array is written only with `OK`, from its start to the last event. Flags for the HTML make no
/// difference.
#[unsafe(no_mangle)]
pub extern "C" fn markdown_list_events(
    alloc: Global,
    text: &[u8],
    flags: u32,
    array: &mut [FlatEvent],
    count: &mut usize,
) -> u32
    ensures cause { NamesCause (AreFlags flags) text.now result }
    ensures events { StoresEvents (ReadByFlags flags) text.now array.old array.new count.new result }
{
    list_events(alloc, text, flags, array, count)
}

/// Finds the events of a text by options, writes them into an array, and returns a status, as
/// [`markdown_list_events`] does by flags. `FLAGS` also means that a text of the options isn't UTF-8,
/// or that the struct's size is another one.
#[unsafe(no_mangle)]
pub extern "C" fn markdown_list_events_with(
    alloc: Global,
    text: &[u8],
    options: &FlatOptions<'_>,
    array: &mut [FlatEvent],
    count: &mut usize,
) -> u32
    ensures cause { NamesCause (IsKnown options.now) text.now result }
    ensures events { StoresEvents (ReadsBy options.now) text.now array.old array.new count.new result }
{
    list_events_with(alloc, text, options, array, count)
}
