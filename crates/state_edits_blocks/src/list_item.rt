//! Lists: items side by side whose markers are the same (CommonMark 5.3).
//!
//! ```text
//! list ::= item *( *between item)
//! between ::= line_ending | blank_line_ending | space_or_tab | block_quote_prefix
//! ```
//!
//! Any other block ends a list, and so does an item with another marker.
ghost use Rattle.std.specs.Prelude.{◌≡◌, ◌∷◌, [], None, ◌<◌, ◌^◌, OnOk, IfOk, IfErr};
ghost use Rattle.markdown_options.specs.Messages.{IsOutOfMemory};
ghost use Rattle.engine_edits.specs.Edits.{edits_of};
ghost use Rattle.state_edits_blocks.specs.ListItem.{byte_at, edits_at, ended, goes_on, is_between, item_entered, item_exited, levels_at, levels_over};
ghost use Rattle.state_edits_blocks.specs.ListItem.{list_edits, list_name, marker_at, marker_of, other_entered, run_edit, top, with_top, without_top};

use crate::added::put;
use engine_edits::EditMap;
use markdown_engine::Message;
use markdown_engine::event::{Event, Kind, Name};
use state_edits_data::each::{enter_event, exit_event, is_bound_at, is_event, later, place_at};
use std::alloc::{AllocError, Allocator};

/// How many events of an item are looked at for its marker. The marker is behind the start of the
/// item, of its prefix, and a number.
const MARKER_DEPTH: usize = 8;

/// Items side by side, from the start of the first to the end of the last.
#[derive(Clone, Copy)]
struct Run {
    enter: usize,
    exit: usize,
    marker: u8,
}

/// The byte at an index, or 0 behind the text.
fn byte_at(bytes: &[u8], index: usize) -> u8
    ensures { result ≡ byte_at bytes.now index }
{
    match bytes.get(index) {
        None => 0,
        Some(byte) => *byte,
    }
}

/// The marker of an item at an index, if it is there.
fn marker_at(bytes: &[u8], events: &[Event], index: usize) -> Option<u8>
    ensures { result ≡ marker_at bytes.now events.now index }
{
    if is_bound_at(Kind::Enter, Name::ListItemMarker, events, index) {
        return Some(byte_at(bytes, place_at(events, index).index));
    }
    None
}

/// The marker of the item that begins at an index, or 0 if none is found.
#[tactic(auto, using(crate::proofs::Steps::marker_more, crate::proofs::Steps::marker_none))]
fn marker_of(bytes: &[u8], events: &[Event], index: usize) -> u8
    requires { index < 2 ^ 63 }
    ensures { result ≡ marker_of bytes.now events.now index }
{
    let mut marker = None;
    for depth in 0..MARKER_DEPTH {
        if marker.is_none() {
            marker = marker_at(bytes, events, index + depth);
        }
    }
    marker.unwrap_or(0)
}

/// Whether an event may stand between two items of a list.
fn is_between(event: &Event) -> bool
    ensures { result ≡ is_between event.now }
{
    matches!(
        event.name,
        Name::LineEnding
            | Name::BlankLineEnding
            | Name::SpaceOrTab
            | Name::BlockQuotePrefix
            | Name::BlockQuoteMarker
    )
}

/// The event of a list, by the marker of its items.
fn list_name(marker: u8) -> Name
    ensures { result ≡ list_name marker }
{
    match marker {
        b'.' | b')' => Name::ListOrdered,
        _ => Name::ListUnordered,
    }
}

/// The items that may go on where the innermost event is open that isn't an item's own.
fn top<A: Allocator>(levels: &Vec<Option<Run>, A>) -> Option<Run>
    ensures { result ≡ top levels.now.items }
{
    match levels.last() {
        None => None,
        Some(run) => *run,
    }
}

/// Without the innermost level.
fn leave<A: Allocator>(levels: &mut Vec<Option<Run>, A>)
    ensures { levels.new.items ≡ without_top levels.old.items }
{
    levels.truncate(levels.len().saturating_sub(1));
}

/// With other items in the innermost level.
fn set_top<A: Allocator>(
    levels: &mut Vec<Option<Run>, A>,
    run: Option<Run>,
) -> Result<(), AllocError>
    ensures { OnOk result (levels.new.items ≡ with_top levels.old.items run) }
{
    leave(levels);
    levels.push(run)?;
    Ok(())
}

/// Whether an item with a marker goes on with the items before it.
fn goes_on(run: Option<Run>, marker: u8) -> bool
    ensures { result ≡ goes_on run marker }
{
    match run {
        None => false,
        Some(run) => run.marker == marker,
    }
}

/// The levels after the start of an item.
fn enter_item<A: Allocator>(
    levels: &mut Vec<Option<Run>, A>,
    bytes: &[u8],
    events: &[Event],
    index: usize,
) -> Result<(), AllocError>
    requires { index < 2 ^ 63 }
    ensures { OnOk result (levels.new.items ≡ item_entered bytes.now events.now index levels.old.items) }
{
    let marker = marker_of(bytes, events, index);
    if !goes_on(top(levels), marker) {
        let run = Run {
            enter: index,
            exit: index,
            marker,
        };
        set_top(levels, Some(run))?;
    }
    levels.push(None)?;
    Ok(())
}

/// The levels after the end of an item.
fn exit_item<A: Allocator>(levels: &mut Vec<Option<Run>, A>, index: usize) -> Result<(), AllocError>
    ensures { OnOk result (levels.new.items ≡ item_exited index levels.old.items) }
{
    leave(levels);
    match top(levels) {
        None => Ok(()),
        Some(run) => set_top(levels, Some(Run { exit: index, ..run })),
    }
}

/// The levels after the start of something else, which ends a list.
fn enter_other<A: Allocator>(levels: &mut Vec<Option<Run>, A>) -> Result<(), AllocError>
    ensures { OnOk result (levels.new.items ≡ other_entered levels.old.items) }
{
    set_top(levels, None)?;
    levels.push(None)?;
    Ok(())
}

/// The levels after an event that has an index.
fn go_over<A: Allocator>(
    levels: &mut Vec<Option<Run>, A>,
    bytes: &[u8],
    events: &[Event],
    event: &Event,
    index: usize,
) -> Result<(), AllocError>
    requires { index < 2 ^ 63 }
    ensures { OnOk result (levels.new.items ≡ levels_over bytes.now events.now event.now index levels.old.items) }
{
    if is_between(event) {
        return Ok(());
    }
    match event.kind {
        Kind::Enter => {
            if event.name == Name::ListItem {
                return enter_item(levels, bytes, events, index);
            }
            enter_other(levels)
        }
        Kind::Exit => {
            if event.name == Name::ListItem {
                return exit_item(levels, index);
            }
            leave(levels);
            Ok(())
        }
    }
}

/// The items that an event at an index ends.
fn ended<A: Allocator>(
    levels: &Vec<Option<Run>, A>,
    bytes: &[u8],
    events: &[Event],
    event: &Event,
    index: usize,
) -> Option<Run>
    requires { index < 2 ^ 63 }
    ensures { result ≡ ended bytes.now events.now event.now index levels.now.items }
{
    if is_between(event) {
        return None;
    }
    let run = top(levels);
    if is_event(Kind::Enter, Name::ListItem, event)
        && goes_on(run, marker_of(bytes, events, index))
    {
        return None;
    }
    run
}

/// Adds the edits that make a list of items, if there are any.
fn add_list<A: Allocator + Clone>(
    edits: &mut EditMap<A>,
    alloc: &A,
    events: &[Event],
    run: Option<Run>,
) -> Result<(), Message>
    ensures edits { OnOk result (edits_of edits.new ≡ run_edit events.now run (edits_of edits.old)) }
    ensures memory { IfErr result IsOutOfMemory }
{
    let Some(run) = run else {
        return Ok(());
    };
    let name = list_name(run.marker);
    let start = [enter_event(name, place_at(events, run.enter))];
    put(edits, alloc, run.enter, 0, &start)?;
    let end = [exit_event(name, place_at(events, run.exit))];
    put(edits, alloc, later(1, run.exit), 0, &end)
}

/// The levels of a document, in which nothing is open.
fn outermost<A: Allocator>(alloc: A) -> Result<Vec<Option<Run>, A>, AllocError>
    ensures { IfOk result (λ levels. levels.items ≡ None ∷ []) }
{
    let mut levels = Vec::new(alloc);
    levels.push(None)?;
    Ok(levels)
}

/// Goes over the event at an index, and adds the edits of the list that it ends.
fn add_at<A: Allocator + Clone>(
    edits: &mut EditMap<A>,
    levels: &mut Vec<Option<Run>, A>,
    alloc: &A,
    bytes: &[u8],
    events: &[Event],
    index: usize,
) -> Result<(), Message>
    requires { index < 2 ^ 63 }
    ensures edits { OnOk result (edits_of edits.new ≡ edits_at bytes.now events.now index levels.old.items (edits_of edits.old)) }
    ensures levels { OnOk result (levels.new.items ≡ levels_at bytes.now events.now index levels.old.items) }
    ensures memory { IfErr result IsOutOfMemory }
{
    let Some(event) = events.get(index) else {
        return Ok(());
    };
    add_list(
        edits,
        alloc,
        events,
        ended(levels, bytes, events, event, index),
    )?;
    go_over(levels, bytes, events, event, index)?;
    Ok(())
}

/// The edits that make lists.
#[tactic(auto, using(crate::proofs::Steps::lists_more, crate::proofs::Steps::lists_start, crate::proofs::Steps::levels_more, crate::proofs::Steps::levels_start))]
pub fn list_edits<A: Allocator + Clone>(
    alloc: &A,
    bytes: &[u8],
    events: &[Event],
) -> Result<EditMap<A>, Message>
    ensures edits { IfOk result (λ edits. edits_of edits ≡ list_edits bytes.now events.now) }
    ensures memory { IfErr result IsOutOfMemory }
{
    let mut edits = EditMap::new(alloc.clone()?);
    let mut levels = outermost(alloc.clone()?)?;
    for index in 0..events.len() {
        add_at(&mut edits, &mut levels, alloc, bytes, events, index)?;
    }
    add_list(&mut edits, alloc, events, top(&levels))?;
    Ok(edits)
}
