//! The events of a text by both roads, compared.
ghost use Rattle.std.specs.Prelude.{◌<◌, length};
ghost use Rattle.markdown_compile_options.specs.Mdx.{HasNoMdx};

use engine_events::event::Name;
use engine_events::{Event, Kind};
use markdown_compile_options::Options;
use markdown_options::Message;
use markdown_tables::Builtin;
use parse_events::{SIZE_MAX, parse};
use state_parser::{parse_by_machines, parse_in_ranges};
use std::alloc::Global;

/// How many columns a tab has at most.
const TAB: usize = 4;

/// How alike the events of both roads are.
#[derive(Clone, Copy, PartialEq, Eq)]
pub(crate) enum Likeness {
    /// They are equal.
    Equal,
    /// They are equal but for spaces and tabs at the edges of events, and for places where data is cut.
    Alike,
    /// They are not.
    Different,
}

/// Whether two events are the same, at the same place.
fn are_equal(first: &Event, second: &Event) -> bool {
    first.kind == second.kind && first.name == second.name && first.point() == second.point()
}

/// Whether two lists of events are the same.
fn all_equal(first: &[Event], second: &[Event]) -> bool {
    if first.len() != second.len() {
        return false;
    }
    for (one, other) in first.iter().zip(second) {
        if !are_equal(one, other) {
            return false;
        }
    }
    true
}

/// Whether there is a space or a tab at an index of a text.
fn is_white(bytes: &[u8], index: usize) -> bool {
    matches!(bytes.get(index), Some(b' ' | b'\t'))
}

/// The index after spaces and tabs.
fn after_white(bytes: &[u8], from: usize) -> usize {
    for index in from..bytes.len() {
        if !is_white(bytes, index) {
            return index;
        }
    }
    bytes.len()
}

/// The index before spaces and tabs.
fn before_white(bytes: &[u8], to: usize) -> usize {
    for index in (0..to).rev() {
        if !is_white(bytes, index) {
            return index + 1;
        }
    }
    0
}

/// Where an event is without the spaces and tabs at its edge.
fn edge(bytes: &[u8], event: &Event) -> usize {
    let point = event.point();
    match event.kind {
        Kind::Enter => {
            let within = if point.vs == 0 { 0 } else { 1 };
            after_white(bytes, point.index.saturating_add(within))
        }
        Kind::Exit => before_white(bytes, point.index),
    }
}

/// Whether an event is of data.
fn is_data(event: &Event) -> bool {
    matches!(
        event.name,
        Name::Data | Name::CodeTextData | Name::MathTextData
    )
}

/// Whether data ends at an index and goes on there at once.
fn is_cut(events: &[Event], index: usize) -> bool {
    let (Some(end), Some(start)) = (events.get(index), events.get(index.saturating_add(1))) else {
        return false;
    };
    is_data(end)
        && end.kind == Kind::Exit
        && start.kind == Kind::Enter
        && start.name == end.name
        && start.point() == end.point()
}

/// How many events at an index are left out: white space, and the end and the start of data that is
/// cut.
fn left_out(events: &[Event], index: usize) -> usize {
    if is_cut(events, index) {
        return 2;
    }
    match events.get(index) {
        Some(event) if event.name == Name::SpaceOrTab => 1,
        _ => 0,
    }
}

/// The first event from an index on that isn't left out, and the index after it.
fn next_event(events: &[Event], from: usize) -> Option<(Event, usize)> {
    let mut index = from;
    for _ in from..events.len() {
        let count = left_out(events, index);
        if count == 0 {
            let event = events.get(index).copied()?;
            return Some((event, index.saturating_add(1)));
        }
        index = index.saturating_add(count);
    }
    None
}

/// Whether two lists of events are the same but for spaces and tabs at the edges, and for cuts of data.
fn are_alike(bytes: &[u8], first: &[Event], second: &[Event]) -> bool {
    let mut from = 0;
    let mut other_from = 0;
    for _ in 0..=first.len() {
        match (next_event(first, from), next_event(second, other_from)) {
            (None, None) => return true,
            (Some((one, after)), Some((other, other_after))) => {
                let same = one.kind == other.kind && one.name == other.name;
                if !same || edge(bytes, &one) != edge(bytes, &other) {
                    return false;
                }
                from = after;
                other_from = other_after;
            }
            _ => return false,
        }
    }
    false
}

/// How alike two lists of events of a text are.
fn likeness_of(bytes: &[u8], first: &[Event], second: &[Event]) -> Likeness {
    if all_equal(first, second) {
        Likeness::Equal
    } else if are_alike(bytes, first, second) {
        Likeness::Alike
    } else {
        Likeness::Different
    }
}

/// How alike the events of a text are by both roads.
pub(crate) fn compare(alloc: Global, text: &str, options: &Options) -> Result<Likeness, Message>
    requires { HasNoMdx options.now }
{
    if text.len() > SIZE_MAX {
        return Ok(Likeness::Different);
    }
    let (events, _) = parse(alloc, text, &options.parse, &Builtin)?;
    let others = parse_by_machines(alloc, text, &options.parse, &Builtin)?;
    Ok(likeness_of(text.as_bytes(), &events, &others))
}

/// Whether the events of a text by the machines are these in two ranges that are cut at a place.
fn is_same_cut(
    alloc: Global,
    text: &str,
    options: &Options,
    whole: &[Event],
    cut: (usize, usize),
) -> Result<bool, Message>
    requires { cut.0 < length text.now }
{
    let parts = parse_in_ranges(alloc, text, &options.parse, &Builtin, &[cut])?;
    Ok(all_equal(&parts, whole))
}

/// Whether the events of a text by the machines are the same in two ranges, wherever it is cut: before
/// a byte, or before a further column of a tab.
pub(crate) fn is_same_in_ranges(
    alloc: Global,
    text: &str,
    options: &Options,
) -> Result<bool, Message> {
    let whole = parse_by_machines(alloc, text, &options.parse, &Builtin)?;
    for index in 0..text.len() {
        let columns = if text.as_bytes()[index] == b'\t' {
            TAB
        } else {
            1
        };
        for column in 0..columns {
            if !is_same_cut(alloc, text, options, &whole, (index, column))? {
                return Ok(false);
            }
        }
    }
    Ok(true)
}
