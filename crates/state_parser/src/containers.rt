//! The last line of each container.
//!
//! A container ends with its last line that has content or a marker of it, or of one in it. Blank
//! lines after that are outside.
ghost use Rattle.std.specs.Prelude.{◌≡◌, IfOk, OnOk, length, map};
ghost use Rattle.std.specs.List.Sorted.{IsNonDecreasing};
ghost use Rattle.state_parser.specs.LastLines.{AreLastLines, all_raised, content_lines, filled_lines, is_content, is_last_blank, last_before, last_of};
ghost use Rattle.state_parser.specs.LastLines.{own_line, raised, takes_last_line, with_line};

use crate::events::is_ending;
use markdown_engine::event::{Event, Kind, Name};
use markdown_engine::place::Point;
use state_reader::span::Span;
use std::alloc::{AllocError, Allocator};

/// Whether an event says that its line isn't blank.
fn is_content(event: &Event) -> bool
    ensures { result ≡ is_content event.now }
{
    event.kind == Kind::Enter && !matches!(event.name, Name::SpaceOrTab | Name::BlankLineEnding)
}

/// The last of these lines, or 0.
fn last_of(lines: &[usize]) -> usize
    ensures { result ≡ last_of lines.now }
{
    match lines.last() {
        Some(line) => *line,
        None => 0,
    }
}

/// Adds a line, if it is after the last of these.
fn push_line<A: Allocator>(lines: &mut Vec<usize, A>, line: usize) -> Result<(), AllocError>
    ensures { OnOk result (lines.new.items ≡ with_line lines.old.items line) }
{
    if last_of(lines) < line {
        lines.push(line)?;
    }
    Ok(())
}

/// The lines of flow that aren't blank, in order.
fn content_lines<A: Allocator>(alloc: A, flow: &[Event]) -> Result<Vec<usize, A>, AllocError>
    ensures { IfOk result (λ lines. lines.items ≡ content_lines flow.now) }
{
    let mut lines = Vec::new(alloc);
    for event in flow {
        if is_content(event) {
            push_line(&mut lines, event.point().line)?;
        }
    }
    Ok(lines)
}

/// Whether a block is open on the last line, which containers take whole: a line of code or HTML.
fn takes_last_line(flow: &[Event], end: Point) -> bool
    ensures { result ≡ takes_last_line flow.now end }
{
    let Some(event) = flow.last() else {
        return false;
    };
    let point = event.point();
    !is_ending(event) && point.line == end.line && point.index < end.index
}

/// The lines that aren't blank of a text that ends at a place, in order.
pub(crate) fn filled_lines<A: Allocator>(
    alloc: A,
    flow: &[Event],
    end: Point,
) -> Result<Vec<usize, A>, AllocError>
    ensures { IfOk result (λ lines. lines.items ≡ filled_lines flow.now end) }
{
    let mut lines = content_lines(alloc, flow)?;
    if takes_last_line(flow, end) {
        push_line(&mut lines, end.line)?;
    }
    Ok(lines)
}

/// Whether the last line of a text that ends at a place is blank.
pub(crate) fn is_last_blank(lines: &[usize], end: Point) -> bool
    ensures { result ≡ is_last_blank lines.now end }
{
    last_of(lines) != end.line
}

/// The last of these lines, which are in order, that is before a line, or 0.
fn last_before(lines: &[usize], line: usize) -> usize
    requires { IsNonDecreasing lines.now }
    ensures { result ≡ last_before lines.now line }
{
    let count = lines.partition_point(|other| *other < line);
    last_of(&lines[..count])
}

/// The last line of a container by its own marks, and by the lines on which it is open.
fn own_line(lines: &[usize], span: &Span) -> usize
    requires { IsNonDecreasing lines.now }
    ensures { result ≡ own_line lines.now span.now }
{
    let line = last_before(lines, span.close);
    if line < span.marker {
        span.marker
    } else {
        line
    }
}

/// The last line of each container by its own marks and lines.
fn own_lines<A: Allocator>(
    alloc: A,
    lines: &[usize],
    spans: &[Span],
) -> Result<Vec<usize, A>, AllocError>
    requires { IsNonDecreasing lines.now }
    ensures { IfOk result (λ last. last.items ≡ map (own_line lines.now) spans.now) }
{
    let mut last = Vec::new(alloc);
    for span in spans {
        last.push(own_line(lines, span))?;
    }
    Ok(last)
}

/// Lets the container around one end no earlier.
fn raise_outer(last: &mut [usize], spans: &[Span], index: usize)
    ensures { last.new ≡ raised spans.now last.old index }
{
    let Some(span) = spans.get(index) else {
        return;
    };
    let Some(outer) = span.parent else {
        return;
    };
    if outer < index && index < last.len() && last[outer] < last[index] {
        last[outer] = last[index];
    }
}

/// Lets no container end before one in it.
fn raise_all(last: &mut [usize], spans: &[Span])
    ensures { last.new ≡ all_raised spans.now last.old (length spans.now) }
{
    let mut index = spans.len();
    while index > 0 {
        index -= 1;
        raise_outer(last, spans, index);
    }
}

/// The last line of each container by its own marks and lines, and by those in it.
fn raised_lines<A: Allocator>(
    alloc: A,
    lines: &[usize],
    spans: &[Span],
) -> Result<Vec<usize, A>, AllocError>
    requires { IsNonDecreasing lines.now }
    ensures { IfOk result (λ last. last.items ≡ all_raised spans.now (map (own_line lines.now) spans.now) (length spans.now)) }
{
    let mut last = own_lines(alloc, lines, spans)?;
    raise_all(&mut last, spans);
    Ok(last)
}

/// The last line of each container. These are the lines that aren't blank, in order.
pub(crate) fn last_lines<A: Allocator>(
    alloc: A,
    lines: &[usize],
    spans: &[Span],
) -> Result<Vec<usize, A>, AllocError>
    requires { IsNonDecreasing lines.now }
    ensures { IfOk result (λ last. AreLastLines lines.now spans.now last.items) }
{
    raised_lines(alloc, lines, spans)
}
