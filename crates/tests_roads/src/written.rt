//! The events of a text by the machines, beside those that are written after it.
use engine_events::{Event, Kind};
use markdown_options::{Message, ParseOptions};
use markdown_tables::Builtin;
use state_parser::parse_by_machines;
use std::alloc::{AllocError, Global};

/// Events as they are written: `+` for an enter or `-` for an exit, the name, `:` and the index.
fn show(alloc: Global, events: &[Event]) -> Result<String, AllocError> {
    let mut out = String::new(alloc);
    for event in events {
        let sign = if event.kind == Kind::Enter { '+' } else { '-' };
        let name = event.name;
        let index = event.point().index;
        out.push_str(&format!(in alloc; "{sign}{name:?}:{index} ")?)?;
    }
    Ok(out)
}

/// The events of a text by the machines, as they are written.
pub(crate) fn shown(alloc: Global, text: &str, options: &ParseOptions) -> Result<String, Message> {
    let events = parse_by_machines(alloc, text, options, &Builtin)?;
    Ok(show(alloc, &events)?)
}
