//! Spaces and tabs of data at the ends of lines, and at the ends of a text (CommonMark 4.8, 6.7).
ghost use Rattle.std.specs.Prelude.{◌≡◌, ◌<◌, ◌≤◌, ◌+◌, ◌^◌};
ghost use Rattle.std.specs.Prelude.{OnOk, IfOk, IfErr, is_some, length, slice_get};
ghost use Rattle.std.specs.List.{list_all, suffix_len};
ghost use Rattle.markdown_options.specs.Messages.{IsOutOfMemory};
ghost use Rattle.engine_edits.specs.Edits.{edits_of};
ghost use Rattle.definition_text.specs.Columns.{is_white};
ghost use Rattle.state_edits_data.specs.Whitespace.{are_spaces, begins, ends, ends_part, head_size, index_edit, is_line, is_space};
ghost use Rattle.state_edits_data.specs.Whitespace.{may_break, part_edit, tail_name, tail_size, trimmed_data, white_edit, white_edits};

use crate::each::{data_part, place_at, place_past, push_if};
use crate::partial_data::is_data_at;
use engine_edits::EditMap;
use markdown_engine::Message;
use markdown_engine::event::{Event, Kind, Name};
use markdown_engine::place::Point;
use std::alloc::Allocator;
use text_bytes::{is_space_or_tab, white_size};

/// Where the white space of data is cut, and in which text.
#[derive(Clone, Copy)]
pub struct Trimming<'a> {
    /// Whether a text is read, which is trimmed at its ends, too.
    pub in_text: bool,
    /// Whether spaces at a line's end are a hard break.
    pub hard: bool,
    pub bytes: &'a [u8],
}

/// Whether a line ending begins, or ends.
fn is_line(kind: Kind, event: Option<Event>) -> bool
    ensures { result ≡ is_line kind event }
{
    match event {
        None => false,
        Some(event) => event.kind == kind && event.name == Name::LineEnding,
    }
}

/// Whether a line ending begins, or ends, at an index.
fn is_line_at(kind: Kind, events: &[Event], index: usize) -> bool
    ensures { result ≡ is_line kind (slice_get events.now index) }
{
    is_line(kind, events.get(index).copied())
}

/// Whether what is before an index is trimmed at its end.
fn ends_part_at(in_text: bool, events: &[Event], index: usize) -> bool
    ensures { result ≡ ends_part in_text (slice_get events.now index) }
{
    if has_event(events, index) {
        is_line_at(Kind::Enter, events, index)
    } else {
        in_text
    }
}

/// Whether there is an event at an index.
fn has_event(events: &[Event], index: usize) -> bool
    ensures { result ≡ is_some (slice_get events.now index) }
{
    events.get(index).is_some()
}

/// How many spaces and tabs come first, where they are cut.
fn head_size(begins: bool, part: &[u8]) -> usize
    ensures size { result ≡ head_size begins part.now }
    ensures within { result ≤ length part.now }
{
    if begins { white_size(part) } else { 0 }
}

/// How many spaces and tabs come last.
fn back(part: &[u8]) -> usize
    ensures size { result ≡ suffix_len is_white part.now }
    ensures within { result ≤ length part.now }
{
    let mut end = part.len();
    while end > 0 && is_space_or_tab(part[end - 1]) {
        end -= 1;
    }
    part.len() - end
}

/// How many spaces and tabs come last, where they are cut.
fn tail_size(ends: bool, part: &[u8]) -> usize
    ensures size { result ≡ tail_size ends part.now }
    ensures within { result ≤ length part.now }
{
    if ends { back(part) } else { 0 }
}

fn is_space(byte: u8) -> bool
    ensures { result ≡ is_space byte }
{
    byte == b' '
}

/// Whether there are only spaces.
fn is_blank(part: &[u8]) -> bool
    ensures { result ≡ list_all is_space part.now }
{
    part.iter().all(|b| is_space(*b))
}

/// Whether the last bytes are two spaces or more.
fn are_spaces(part: &[u8], tail: usize) -> bool
    requires { tail ≤ length part.now }
    ensures { result ≡ are_spaces part.now tail }
{
    if tail < 2 {
        return false;
    }
    is_blank(&part[part.len() - tail..])
}

fn tail_name(breaks: bool) -> Name
    ensures { result ≡ tail_name breaks }
{
    if breaks {
        Name::HardBreakTrailing
    } else {
        Name::SpaceOrTab
    }
}

/// The events in place of data that begins and ends at these places.
fn trimmed_data<A: Allocator>(
    alloc: A,
    part: &[u8],
    sizes: (usize, usize),
    breaks: bool,
    ends: (Point, Point),
) -> Result<Vec<Event, A>, Message>
    requires tail { sizes.1 ≤ length part.now }
    requires head { sizes.0 ≤ length part.now }
    ensures events { IfOk result (λ all. all.items ≡ trimmed_data part.now sizes.0 sizes.1 breaks ends.0 ends.1) }
    ensures memory { IfErr result IsOutOfMemory }
{
    let (head, tail) = sizes;
    let (from, to) = ends;
    let first = place_past(from, &part[..head]);
    let left = part.len() - tail;
    let last = place_past(from, &part[..left]);
    let mut all = Vec::new(alloc);
    push_if(head != 0, &mut all, Name::SpaceOrTab, from, first)?;
    push_if(head < left, &mut all, Name::Data, first, last)?;
    push_if(tail != 0, &mut all, tail_name(breaks), last, to)?;
    Ok(all)
}

/// Whether data that begins at an index is cut at its start.
fn begins(in_text: bool, events: &[Event], index: usize) -> bool
    ensures { result ≡ begins in_text events.now index }
{
    if index == 0 {
        return in_text;
    }
    is_line_at(Kind::Exit, events, index - 1)
}

/// Whether data that begins at an index is cut at its end.
fn ends(in_text: bool, events: &[Event], index: usize) -> bool
    requires { index < 2 ^ 63 }
    ensures { result ≡ ends in_text events.now index }
{
    ends_part_at(in_text, events, index + 2)
}

/// Whether a line ending that isn't the last of all follows data that begins at an index.
fn may_break(hard: bool, events: &[Event], index: usize) -> bool
    requires { index < 2 ^ 63 }
    ensures { result ≡ may_break hard events.now index }
{
    if !hard {
        return false;
    }
    if !is_line_at(Kind::Enter, events, index + 2) {
        return false;
    }
    has_event(events, index + 4)
}

/// Adds the edit of data of these bytes, of which so many are cut at the start.
fn add_part<A: Allocator + Clone>(
    edits: &mut EditMap<A>,
    alloc: A,
    trimming: &Trimming<'_>,
    events: &[Event],
    index: usize,
    part: &[u8],
    head: usize,
) -> Result<(), Message>
    requires index { index < 2 ^ 63 }
    requires head { head ≤ length part.now }
    ensures edits { OnOk result (edits_of edits.new ≡ part_edit trimming.now.in_text trimming.now.hard events.now index part.now head (edits_of edits.old)) }
    ensures memory { IfErr result IsOutOfMemory }
{
    let tail = tail_size(ends(trimming.in_text, events, index), &part[head..]);
    add_white(
        edits,
        alloc,
        trimming.hard,
        events,
        index,
        part,
        (head, tail),
    )
}

/// Adds the edit of data of these bytes, of which so many are cut.
fn add_white<A: Allocator + Clone>(
    edits: &mut EditMap<A>,
    alloc: A,
    hard: bool,
    events: &[Event],
    index: usize,
    part: &[u8],
    sizes: (usize, usize),
) -> Result<(), Message>
    requires index { index < 2 ^ 63 }
    requires sizes { sizes.0 + sizes.1 ≤ length part.now }
    ensures edits { OnOk result (edits_of edits.new ≡ white_edit hard events.now index part.now sizes.0 sizes.1 (edits_of edits.old)) }
    ensures memory { IfErr result IsOutOfMemory }
{
    let (head, tail) = sizes;
    if head + tail == 0 {
        return Ok(());
    }
    let breaks = may_break(hard, events, index) && are_spaces(part, tail);
    let from = place_at(events, index);
    let to = place_at(events, index + 1);
    let all = trimmed_data(alloc, part, sizes, breaks, (from, to))?;
    edits.add(index, 2, all)?;
    Ok(())
}

/// Adds the edit of an index.
fn add_index<A: Allocator + Clone>(
    edits: &mut EditMap<A>,
    alloc: A,
    trimming: &Trimming<'_>,
    events: &[Event],
    index: usize,
) -> Result<(), Message>
    requires { index < 2 ^ 63 }
    ensures edits { OnOk result (edits_of edits.new
        ≡ index_edit trimming.now.in_text trimming.now.hard trimming.now.bytes.now events.now index (edits_of edits.old)) }
    ensures memory { IfErr result IsOutOfMemory }
{
    if !is_data_at(Kind::Enter, events, index) {
        return Ok(());
    }
    if !is_data_at(Kind::Exit, events, index + 1) {
        return Ok(());
    }
    let part = data_part(trimming.bytes, events, index);
    let head = head_size(begins(trimming.in_text, events, index), part);
    add_part(edits, alloc, trimming, events, index, part, head)
}

/// The edits of white space.
#[tactic(auto, using(crate::proofs::Steps::white_more, crate::proofs::Steps::white_start))]
pub fn white_edits<A: Allocator + Clone>(
    alloc: A,
    trimming: &Trimming<'_>,
    events: &[Event],
) -> Result<EditMap<A>, Message>
    ensures edits { IfOk result (λ edits. edits_of edits
        ≡ white_edits trimming.now.in_text trimming.now.hard trimming.now.bytes.now events.now (length events.now)) }
    ensures memory { IfErr result IsOutOfMemory }
{
    let mut edits = EditMap::new(alloc.clone()?);
    for index in 0..events.len() {
        add_index(&mut edits, alloc.clone()?, trimming, events, index)?;
    }
    Ok(edits)
}
