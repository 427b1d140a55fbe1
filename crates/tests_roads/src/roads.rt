//! How many events a text has.
use markdown_options::ParseOptions;
use markdown_tables::Builtin;
use parse_events::{SIZE_MAX, parse};
use state_parser::parse_by_machines;
use std::alloc::Global;

/// How many events a text has by a road, with GFM; none if it can't be read, or no road has the name.
pub(crate) fn count(alloc: Global, road: &str, text: &str) -> Option<usize> {
    match road {
        "parse" => parsed(alloc, text),
        "machines" => read(alloc, text),
        _ => None,
    }
}

/// The same by `parse`.
fn parsed(alloc: Global, text: &str) -> Option<usize> {
    if text.len() > SIZE_MAX {
        return None;
    }
    let options = ParseOptions::gfm();
    let (events, _) = parse(alloc, text, &options, &Builtin).ok()?;
    Some(events.len())
}

/// The same by the machines.
fn read(alloc: Global, text: &str) -> Option<usize> {
    let options = ParseOptions::gfm();
    let events = parse_by_machines(alloc, text, &options, &Builtin).ok()?;
    Some(events.len())
}
