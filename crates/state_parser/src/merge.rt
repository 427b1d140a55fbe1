//! The events of a document, of the flow in it, and of its containers, in one list.
ghost use Rattle.std.specs.Prelude.{◌≡◌, ◌<◌, ◌+◌, ◌-◌, IfOk, OnOk, OnSome, length, slice_get};
ghost use Rattle.std.specs.List.{fold};
ghost use Rattle.state_parser.specs.Merge.{IsMerged, begins, block_start, container_start, event_steps, flow_end, flow_part, flow_steps, is_chunk};
ghost use Rattle.state_parser.specs.Merge.{is_flow_at, is_indented, is_of_line, line_at, line_end, moved_start, name_of, put_together, span_steps};
ghost use Rattle.state_parser.specs.Merge.{steps, steps_of};
ghost use Rattle.state_parser.specs.Merged.{merged_seen, pushed};

use crate::containers::{filled_lines, is_last_blank, last_lines};
use crate::events::{is_before, is_ending_at, is_white_at, point_at};
use crate::merged::{Merged, nothing_merged};
use markdown_engine::container::Container;
use markdown_engine::event::{Content, Event, Kind, Name};
use markdown_engine::place::Point;
use state_reader::span::Span;
use std::alloc::{AllocError, Allocator};

/// Whether the event at an index begins a line of flow.
fn is_flow_at(document: &[Event], index: usize) -> bool
    ensures { result ≡ is_flow_at document.now index }
{
    let Some(event) = document.get(index) else {
        return false;
    };
    match event.link() {
        Some(link) => link.content == Content::Flow,
        None => false,
    }
}

/// Whether the event at an index is of a line of flow: it begins one, or ends it.
fn is_chunk(document: &[Event], index: usize) -> bool
    ensures { result ≡ is_chunk document.now index }
{
    is_flow_at(document, index) || is_flow_at(document, index.saturating_sub(1))
}

/// Whether the event of flow at an index is of a line that ends at a place. What ends after the line's
/// ending is of the next line: the marks of containers come first.
fn is_of_line(flow: &[Event], end: Point, index: usize) -> bool
    ensures { result ≡ is_of_line flow.now end index }
{
    let point = point_at(flow, index);
    is_before(point, end)
        || (!is_before(end, point)
            && (is_ending_at(flow, index) || !is_ending_at(flow, index.saturating_sub(1))))
}

/// The index of the first event of flow from an index on that isn't of a line that ends at a place.
#[tactic(auto, using(crate::proofs::MergeSteps::line_step, crate::proofs::MergeSteps::line_past))]
fn line_end(flow: &[Event], from: usize, end: Point) -> usize
    ensures { result ≡ line_end flow.now end (length flow.now - from) from }
{
    let mut index = from;
    while index < flow.len() && is_of_line(flow, end, index) {
        index += 1;
    }
    index
}

/// Whether the name at an index is of a block that begins with white space that belongs before it.
fn is_indented(flow: &[Event], index: usize) -> bool
    ensures { result ≡ is_indented flow.now index }
{
    let Some(event) = flow.get(index) else {
        return false;
    };
    event.kind == Kind::Enter
        && (event.name == Name::CodeIndented
            || event.name == Name::CodeFencedFence
            || event.name == Name::MathFlowFence)
        && is_white_at(flow, Kind::Enter, index + 1)
}

/// The event at an index, if there is one.
fn event_at(events: &[Event], index: usize) -> Option<Event>
    ensures { result ≡ slice_get events.now index }
{
    events.get(index).copied()
}

/// The start of the block at an index of flow, moved to a place.
fn moved_start(flow: &[Event], index: usize, point: Point) -> Option<Event>
    ensures { result ≡ moved_start (slice_get flow.now index) point }
{
    match flow.get(index) {
        Some(event) => Some(Event::new(Kind::Enter, event.name, point, event.link())),
        None => None,
    }
}

/// The start of the block whose white space ends at an index of flow.
fn block_start(flow: &[Event], index: usize) -> Option<Event>
    ensures { result ≡ block_start flow.now index }
{
    if index < 2 || !is_indented(flow, index - 2) {
        return None;
    }
    moved_start(flow, index - 2, point_at(flow, index))
}

/// Adds an event, if there is one.
fn push_some<A: Allocator>(merged: &mut Merged<A>, event: Option<Event>) -> Result<(), AllocError>
    ensures { OnOk result (merged_seen merged.new ≡ fold pushed (merged_seen merged.old) (steps_of event)) }
{
    match event {
        Some(event) => merged.push(None, &event),
        None => Ok(()),
    }
}

/// Adds the event of flow at an index, with white space that a block begins with before it.
#[tactic(auto, using(crate::proofs::MergeSteps::flow_step))]
fn push_flow<A: Allocator>(
    merged: &mut Merged<A>,
    flow: &[Event],
    index: usize,
) -> Result<(), AllocError>
    ensures { OnOk result (merged_seen merged.new ≡ fold pushed (merged_seen merged.old) (flow_steps flow.now index)) }
{
    if is_indented(flow, index) {
        return Ok(());
    }
    push_some(merged, event_at(flow, index))?;
    push_some(merged, block_start(flow, index))?;
    Ok(())
}

/// Adds the events of flow between two indices.
#[tactic(auto, using(crate::proofs::MergeSteps::part_step))]
fn push_part<A: Allocator>(
    merged: &mut Merged<A>,
    flow: &[Event],
    from: usize,
    to: usize,
) -> Result<(), AllocError>
    ensures { OnOk result (merged_seen merged.new ≡ fold pushed (merged_seen merged.old) (flow_part flow.now (to - from) from)) }
{
    for index in from..to {
        push_flow(merged, flow, index)?;
    }
    Ok(())
}

/// What is merged.
#[derive(Clone, Copy)]
pub(crate) struct Sources<'s> {
    /// The events of the document, with a chunk for each line of flow.
    pub(crate) document: &'s [Event],
    /// The events of flow.
    pub(crate) flow: &'s [Event],
    /// The containers, in the order in which they begin.
    pub(crate) spans: &'s [Span],
}

/// The name of a kind of container.
fn name_of(kind: Container) -> Name
    ensures { result ≡ name_of kind }
{
    match kind {
        Container::BlockQuote => Name::BlockQuote,
        Container::ListItem => Name::ListItem,
        Container::GfmFootnoteDefinition => Name::GfmFootnoteDefinition,
    }
}

/// Whether a container begins before the document's event at an index. White space before its mark
/// is outside.
fn begins(document: &[Event], span: &Span, at: usize) -> bool
    ensures { result ≡ begins document.now span.now at }
{
    let white = if is_white_at(document, Kind::Enter, span.start) {
        2
    } else {
        0
    };
    span.start <= at && white <= at - span.start
}

/// The last line of the container with an index, or 0.
fn line_at(last: &[usize], index: usize) -> usize
    ensures { result ≡ line_at last.now index }
{
    match last.get(index) {
        Some(line) => *line,
        None => 0,
    }
}

/// The start of the next container, if it begins before the document's event at an index.
fn container_start(sources: &Sources<'_>, next: usize, at: usize) -> Option<Event>
    ensures start { result ≡ container_start sources.now.document.now sources.now.spans.now next at }
    ensures within { OnSome result (next < length sources.now.spans.now) }
{
    let span = sources.spans.get(next)?;
    if !begins(sources.document, span, at) {
        return None;
    }
    let point = point_at(sources.document, at);
    Some(Event::new(Kind::Enter, name_of(span.kind), point, None))
}

/// Begins the next container, if it begins before the document's event at an index. Returns the index
/// of the next one.
fn begin_next<A: Allocator>(
    merged: &mut Merged<A>,
    sources: &Sources<'_>,
    last: &[usize],
    next: usize,
    at: usize,
) -> Result<usize, AllocError>
    ensures list { OnOk result (merged_seen merged.new ≡
        fold pushed (merged_seen merged.old) (span_steps sources.now.document.now sources.now.spans.now last.now next at)) }
    ensures next { IfOk result (λ n. n ≡ next + length (span_steps sources.now.document.now sources.now.spans.now last.now next at)) }
{
    let Some(event) = container_start(sources, next, at) else {
        return Ok(next);
    };
    merged.push(Some(line_at(last, next)), &event)?;
    Ok(next + 1)
}

/// Up to which index flow is read before the document's event at an index.
fn flow_end(document: &[Event], flow: &[Event], next: usize, at: usize) -> usize
    ensures { result ≡ flow_end document.now flow.now next at }
{
    if is_flow_at(document, at) || !is_flow_at(document, at.saturating_sub(1)) {
        return next;
    }
    line_end(flow, next, point_at(document, at))
}

/// Adds the document's event at an index, or the flow that it stands for. Returns the index of the next
/// event of flow.
fn push_event<A: Allocator>(
    merged: &mut Merged<A>,
    sources: &Sources<'_>,
    next: usize,
    at: usize,
) -> Result<usize, AllocError>
    ensures list { OnOk result (merged_seen merged.new ≡
        fold pushed (merged_seen merged.old) (event_steps sources.now.document.now sources.now.flow.now next at)) }
    ensures next { IfOk result (λ n. n ≡ flow_end sources.now.document.now sources.now.flow.now next at) }
{
    let to = flow_end(sources.document, sources.flow, next, at);
    push_part(merged, sources.flow, next, to)?;
    if !is_chunk(sources.document, at) {
        push_some(merged, event_at(sources.document, at))?;
    }
    Ok(to)
}

/// Merges the events of a document, of its flow and of its containers, which end with these lines.
#[tactic(auto, using(crate::proofs::MergeSteps::all_step))]
fn push_all<A: Allocator>(
    merged: &mut Merged<A>,
    sources: &Sources<'_>,
    last: &[usize],
) -> Result<(), AllocError>
    ensures { OnOk result (merged_seen merged.new ≡ fold pushed (merged_seen merged.old)
        (steps sources.now.document.now sources.now.flow.now sources.now.spans.now last.now (length sources.now.document.now) 0 0 0)) }
{
    let mut span = 0;
    let mut flow = 0;
    for at in 0..sources.document.len() {
        span = begin_next(merged, sources, last, span, at)?;
        flow = push_event(merged, sources, flow, at)?;
    }
    push_part(merged, sources.flow, flow, sources.flow.len())
}

/// The events of a document, of its flow and of its containers, which end with these lines, of a text
/// that ends at a place, maybe with a blank line.
fn put_together<A: Allocator + Clone>(
    alloc: &A,
    sources: &Sources<'_>,
    last: &[usize],
    blank: bool,
    end: Point,
) -> Result<Vec<Event, A>, AllocError>
    ensures { IfOk result (λ events. events.items ≡ put_together sources.now.document.now sources.now.flow.now sources.now.spans.now last.now blank end) }
{
    let mut merged = nothing_merged(alloc)?;
    push_all(&mut merged, sources, last)?;
    merged.end(blank, end)?;
    Ok(merged.events)
}

/// The events of a document, of its flow and of its containers, of a text that ends at a place.
///
/// The flow of a line takes the place of its chunk, and containers are around what is in them. Each
/// event ends inside the one it began in, and none is before the one before it.
pub(crate) fn merge<A: Allocator + Clone>(
    alloc: &A,
    sources: &Sources<'_>,
    end: Point,
) -> Result<Vec<Event, A>, AllocError>
    ensures { IfOk result (λ events. IsMerged sources.now.document.now sources.now.flow.now sources.now.spans.now end events.items) }
{
    let lines = filled_lines(alloc.clone()?, sources.flow, end)?;
    let last = last_lines(alloc.clone()?, &lines, sources.spans)?;
    let blank = is_last_blank(&lines, end);
    put_together(alloc, sources, &last, blank, end)
}
