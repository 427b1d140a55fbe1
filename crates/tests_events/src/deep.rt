//! Lists that are 100,000 deep, or have a million events, and the sizes of their pages.
use compile_html::compile;
use engine_events::event::{Event, Kind, Name};
use engine_events::place::Point;
use event_check::CompileError;
use markdown_compile_options::CompileOptions;
use markdown_tables::Builtin;
use std::alloc::{AllocError, Global};
use std::io::{self, ErrorKind};

/// How deep these lists are.
const DEPTH: usize = 100_000;

/// Adds an event at the start of the text.
fn push(events: &mut Vec<Event>, kind: Kind, name: Name) -> Result<(), AllocError> {
    let point = Point {
        line: 1,
        column: 1,
        index: 0,
        vs: 0,
    };
    events.push(Event::new(kind, name, point, None))?;
    Ok(())
}

/// Adds an event that holds nothing.
fn push_void(events: &mut Vec<Event>, name: Name) -> Result<(), AllocError> {
    push(events, Kind::Enter, name)?;
    push(events, Kind::Exit, name)
}

/// Quotes in each other.
fn quotes(alloc: Global) -> Result<Vec<Event>, AllocError> {
    let mut events = Vec::new(alloc);
    for _ in 0..DEPTH {
        push(&mut events, Kind::Enter, Name::BlockQuote)?;
        push(&mut events, Kind::Enter, Name::BlockQuotePrefix)?;
        push_void(&mut events, Name::BlockQuoteMarker)?;
        push(&mut events, Kind::Exit, Name::BlockQuotePrefix)?;
    }
    for _ in 0..DEPTH {
        push(&mut events, Kind::Exit, Name::BlockQuote)?;
    }
    Ok(events)
}

/// Lists in each other.
fn lists(alloc: Global) -> Result<Vec<Event>, AllocError> {
    let mut events = Vec::new(alloc);
    for _ in 0..DEPTH {
        push(&mut events, Kind::Enter, Name::ListUnordered)?;
        push(&mut events, Kind::Enter, Name::ListItem)?;
        push(&mut events, Kind::Enter, Name::ListItemPrefix)?;
        push_void(&mut events, Name::ListItemMarker)?;
        push(&mut events, Kind::Exit, Name::ListItemPrefix)?;
    }
    for _ in 0..DEPTH {
        push(&mut events, Kind::Exit, Name::ListItem)?;
        push(&mut events, Kind::Exit, Name::ListUnordered)?;
    }
    Ok(events)
}

/// Images in each other, which spell the first one alone.
fn images(alloc: Global) -> Result<Vec<Event>, AllocError> {
    let mut events = Vec::new(alloc);
    push(&mut events, Kind::Enter, Name::Paragraph)?;
    for _ in 0..DEPTH {
        push(&mut events, Kind::Enter, Name::Image)?;
        push(&mut events, Kind::Enter, Name::Label)?;
        push(&mut events, Kind::Enter, Name::LabelImage)?;
        push_void(&mut events, Name::LabelImageMarker)?;
        push_void(&mut events, Name::LabelMarker)?;
        push(&mut events, Kind::Exit, Name::LabelImage)?;
        push(&mut events, Kind::Enter, Name::LabelText)?;
    }
    for _ in 0..DEPTH {
        push(&mut events, Kind::Exit, Name::LabelText)?;
        push(&mut events, Kind::Enter, Name::LabelEnd)?;
        push_void(&mut events, Name::LabelMarker)?;
        push(&mut events, Kind::Exit, Name::LabelEnd)?;
        push(&mut events, Kind::Exit, Name::Label)?;
        push(&mut events, Kind::Enter, Name::Resource)?;
        push_void(&mut events, Name::ResourceMarker)?;
        push_void(&mut events, Name::ResourceMarker)?;
        push(&mut events, Kind::Exit, Name::Resource)?;
        push(&mut events, Kind::Exit, Name::Image)?;
    }
    push(&mut events, Kind::Exit, Name::Paragraph)?;
    Ok(events)
}

/// Paragraphs after each other.
fn paragraphs(alloc: Global) -> Result<Vec<Event>, AllocError> {
    let mut events = Vec::new(alloc);
    for _ in 0..250_000 {
        push(&mut events, Kind::Enter, Name::Paragraph)?;
        push_void(&mut events, Name::Data)?;
        push(&mut events, Kind::Exit, Name::Paragraph)?;
    }
    Ok(events)
}

/// The list of this name.
fn list_of(alloc: Global, name: &str) -> io::Result<Vec<Event>> {
    match name {
        "quotes" => Ok(quotes(alloc)?),
        "lists" => Ok(lists(alloc)?),
        "images" => Ok(images(alloc)?),
        "paragraphs" => Ok(paragraphs(alloc)?),
        _ => Err(ErrorKind::InvalidData.into()),
    }
}

/// Prints how many bytes the page of a list has, by its name. Its text is empty.
pub fn print_deep(rt: &(impl AllocGlobal + Print), name: &str) -> io::Result<()> {
    let alloc = rt.alloc();
    let events = list_of(alloc, name)?;
    match compile(alloc, &events, b"", &CompileOptions::default(), &Builtin) {
        Ok(page) => println!(rt; "{}", page.len()),
        Err(CompileError::Memory) => Err(ErrorKind::OutOfMemory.into()),
        Err(CompileError::Events(_)) => Err(ErrorKind::InvalidData.into()),
    }
}
