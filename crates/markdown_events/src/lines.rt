//! Events and headings as lines.
use engine_events::{Event, Kind};
use markdown_outline::{Heading, Outline};
use std::alloc::Allocator;
use std::io::{self, Write};

/// Writes events, one a line: `enter NAME line:column(index) vs`, or the same with `exit`.
pub(crate) fn write_events<W: Write>(writer: &mut W, events: &[Event]) -> io::Result<()> {
    for event in events {
        write_event(writer, event)?;
    }
    writer.flush()
}

/// Writes an event.
fn write_event<W: Write>(writer: &mut W, event: &Event) -> io::Result<()> {
    let point = event.point();
    writeln!(
        writer,
        "{} {:?} {}:{}({}) {}",
        kind_word(event.kind),
        event.name,
        point.line,
        point.column,
        point.index,
        point.vs,
    )
}

fn kind_word(kind: Kind) -> &'static str {
    match kind {
        Kind::Enter => "enter",
        Kind::Exit => "exit",
    }
}

/// Writes headings, one a line: `LINE: ## TEXT (#SLUG)`.
pub(crate) fn write_headings<W: Write, A: Allocator>(
    writer: &mut W,
    found: &Outline<A>,
) -> io::Result<()> {
    for heading in &found.headings {
        write_heading(writer, heading, found.text(heading), found.slug(heading))?;
    }
    writer.flush()
}

/// Writes a heading. A line ending in its text is a space.
fn write_heading<W: Write>(
    writer: &mut W,
    heading: &Heading,
    text: &str,
    slug: &str,
) -> io::Result<()> {
    write!(
        writer,
        "{}: {}",
        heading.start.line,
        number_signs(heading.rank)
    )?;
    for line in text.split(['\n', '\r']).filter(|line| !line.is_empty()) {
        write!(writer, " {line}")?;
    }
    writeln!(writer, " (#{slug})")
}

/// What a heading of a rank begins with.
fn number_signs(rank: u8) -> &'static str {
    match rank {
        1 => "#",
        2 => "##",
        3 => "###",
        4 => "####",
        5 => "#####",
        _ => "######",
    }
}
