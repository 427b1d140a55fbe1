//! A text as HTML without its images, and with each ATX heading one rank lower: its events are changed.
ghost use Rattle.std.specs.Prelude.{◌≤◌, IfOk, length};

use engine_events::event::{Event, Kind, Name};
use engine_events::place::Point;
use markdown::{Builtin, RunError};
use markdown_compile_options::CompileOptions;
use markdown_html::compile;
use markdown_options::ParseOptions;
use parse_events::{SIZE_MAX, parse};
use std::alloc::{AllocError, Global};

/// The text.
const TEXT: &str = "# a\n\nb ![c](d) e\n\n## f\n";

/// Prints the page of the text after the change.
pub(crate) fn print_lowered(rt: &HostRuntime) -> Result<(), RunError> {
    if TEXT.len() > SIZE_MAX {
        return Err(RunError::Size);
    }
    let Ok((events, _)) = parse(rt.alloc(), TEXT, &ParseOptions::default(), &Builtin) else {
        return Err(RunError::Memory);
    };
    let Ok(changed) = changed(rt.alloc(), &events) else {
        return Err(RunError::Memory);
    };
    let options = CompileOptions::default();
    match compile(rt.alloc(), &changed, TEXT.as_bytes(), &options, &Builtin) {
        Ok(html) => println!(rt; "{html}").map_err(RunError::Write),
        Err(_) => Err(RunError::Memory),
    }
}

/// The events without images, and with each ATX heading one rank lower.
fn changed(alloc: Global, events: &[Event]) -> Result<Vec<Event>, AllocError> {
    lowered(alloc, &without_images(alloc, events)?)
}

/// The events without those of images.
fn without_images(alloc: Global, events: &[Event]) -> Result<Vec<Event>, AllocError> {
    let mut kept = Vec::new(alloc);
    let mut open: usize = 0;
    for event in events {
        if event.name == Name::Image && event.kind == Kind::Enter {
            open = open.saturating_add(1);
        }
        if open == 0 {
            kept.push(*event)?;
        }
        if event.name == Name::Image && event.kind == Kind::Exit {
            open = open.saturating_sub(1);
        }
    }
    Ok(kept)
}

/// The events with one byte more in the sequence before each ATX heading's text, up to six: the
/// space after it.
fn lowered(alloc: Global, events: &[Event]) -> Result<Vec<Event>, AllocError> {
    let mut changed = Vec::new(alloc);
    let mut rest = events;
    while let [event, others @ ..] = rest {
        changed.push(*event)?;
        rest = others;
        if event.name == Name::HeadingAtx && event.kind == Kind::Enter {
            rest = push_lower(&mut changed, others)?;
        }
    }
    Ok(changed)
}

/// Adds the sequence that these events begin with, one byte longer, and the space after it, one byte
/// shorter. Returns the events after these. Adds nothing where there is no such space.
fn push_lower<'e>(changed: &mut Vec<Event>, events: &'e [Event]) -> Result<&'e [Event], AllocError>
    ensures { IfOk result (λ rest. length rest.now ≤ length events.now) }
{
    let [enter, exit, space, end, rest @ ..] = events else {
        return Ok(events);
    };
    let rank = exit.point().index.saturating_sub(enter.point().index);
    if space.name != Name::SpaceOrTab || rank > 5 {
        return Ok(events);
    }
    let point = after(exit.point());
    changed.push(*enter)?;
    changed.push(Event::new(exit.kind, exit.name, point, None))?;
    changed.push(Event::new(space.kind, space.name, point, None))?;
    changed.push(*end)?;
    Ok(rest)
}

/// The point one byte further on in a line.
fn after(point: Point) -> Point {
    Point {
        line: point.line,
        column: point.column.saturating_add(1),
        index: point.index.saturating_add(1),
        vs: 0,
    }
}
