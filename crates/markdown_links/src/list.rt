//! A list of events to its links.
ghost use Rattle.std.specs.Prelude.{◌≡◌, ℕ, List, [], IfOk, get_or, string_bytes};
ghost use Rattle.markdown_links.specs.Definition.{HasDefinitions, Labelled};
ghost use Rattle.markdown_links.specs.Listed.{HasLinks, HasParts, destinations_of, empty, link_at, links_of, listed_from, targets_of};

use crate::definition::Definitions;
use crate::link::{Link, Links, Range};
use crate::span::{Span, spans};
use crate::target::push_target;
use engine_events::event::Event;
use markdown_options::Tables;
use std::alloc::{AllocError, Allocator};

/// Returns the links of a text, by its events, which `parse` returns. The only error is out of memory.
///
/// There is one for each enter of a link, an image, an autolink, a literal or a definition, in order.
/// The destinations stand side by side, in the order of their links, and nothing else is with them.
/// For a list of events that no text has, destinations and ends mean what the definition in `specs`
/// computes.
pub fn links<T: Tables, A: Allocator + Clone>(
    alloc: A,
    events: &[Event],
    bytes: &[u8],
    tables: &T,
) -> Result<Links<A>, AllocError>
    ensures listed { IfOk result (λ found. HasLinks (string_bytes found.destinations) found.links.items (links_of (T.reference_of tables.now) bytes.now events.now)) }
    ensures whole { IfOk result (λ found. string_bytes found.destinations ≡ destinations_of (T.reference_of tables.now) bytes.now events.now) }
{
    let spans = spans(alloc.clone()?, events)?;
    let definitions = Definitions::read(alloc.clone()?, bytes, events, &spans)?;
    let mut destinations = String::new(alloc.clone()?);
    let ranges = push_targets(
        alloc.clone()?,
        &mut destinations,
        bytes,
        tables,
        events,
        &spans,
    )?;
    let links = links_of(alloc, bytes, events, &definitions, &ranges, &spans)?;
    Ok(Links {
        links,
        destinations,
    })
}

/// Writes what the targets of links spell into an empty text, and returns where each is.
fn push_targets<T: Tables, A: Allocator + Clone>(
    alloc: A,
    out: &mut String<A>,
    bytes: &[u8],
    tables: &T,
    events: &[Event],
    spans: &[Span],
) -> Result<Vec<Range, A>, AllocError>
    requires empty { string_bytes out.old ≡ [] }
    ensures { IfOk result (λ ranges. HasParts (string_bytes out.new) ranges.items (targets_of (T.reference_of tables.now) bytes.now events.now spans.now)) }
{
    let mut ranges = Vec::new(alloc);
    for span in spans {
        let start = out.len();
        push_target(out, bytes, tables, events, span.target)?;
        ranges.push(Range {
            start,
            end: out.len(),
        })?;
    }
    Ok(ranges)
}

/// The links of spans, where each leads to its own range or to that of its definition.
fn links_of<A: Allocator + Clone>(
    alloc: A,
    bytes: &[u8],
    events: &[Event],
    definitions: &Definitions<A>,
    ranges: &[Range],
    spans: &[Span],
) -> Result<Vec<Link, A>, AllocError>
    ensures { (out : List ℕ) (targets : List (List ℕ)) (ds : List Labelled) → HasParts out ranges.now targets → HasDefinitions definitions.now ds →
        IfOk result (λ links. HasLinks out links.items (listed_from bytes.now events.now targets ds 0 spans.now)) }
{
    let mut label = Vec::new(alloc.clone()?);
    let mut links = Vec::new(alloc);
    for (index, span) in spans.iter().enumerate() {
        let definition = definitions.of(&mut label, bytes, events, span)?;
        let destination = range_at(ranges, definition.unwrap_or(index));
        links.push(link_of(span, definition, destination))?;
    }
    Ok(links)
}

/// The range of this place, or an empty one.
fn range_at(ranges: &[Range], place: usize) -> Range
    ensures { result ≡ get_or ranges.now place empty }
{
    match ranges.get(place) {
        Some(range) => *range,
        None => Range { start: 0, end: 0 },
    }
}

fn link_of(span: &Span, definition: Option<usize>, destination: Range) -> Link
    ensures { result ≡ link_at span.now definition destination }
{
    Link {
        kind: span.kind,
        event: span.enter,
        start: span.start,
        end: span.end,
        destination,
        definition,
    }
}
