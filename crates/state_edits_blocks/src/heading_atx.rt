//! ATX headings: what is between the opening sequence and the closing one is a text (CommonMark 4.2).
//!
//! ```text
//! heading_atx ::= 1*6'#' [ 1*space_or_tab text [ 1*space_or_tab 1*'#' ] ]
//! ```
//!
//! States read the line as data and further sequences. If the last of these is a sequence, it closes
//! the heading. All before it is text.
ghost use Rattle.std.specs.Prelude.{◌≡◌, OnOk, IfOk, IfErr, length, slice_get};
ghost use Rattle.markdown_options.specs.Messages.{IsOutOfMemory};
ghost use Rattle.engine_edits.specs.Edits.{edits_of};
ghost use Rattle.state_edits_blocks.specs.HeadingAtx.{atx_edits, begins_text, bounds_heading, past_sequence, seen, seen_at, text_edit};
ghost use Rattle.state_edits_blocks.specs.HeadingAtx.{heading_edit, nothing};

use crate::added::put;
use engine_edits::EditMap;
use markdown_engine::Message;
use markdown_engine::event::{Event, Kind, Name};
use state_edits_data::each::{enter_event, exit_event, is_bound_at, is_event, later, place_at};
use state_table::links::TEXT;
use std::alloc::Allocator;

/// What is known of the heading that is open.
#[derive(Clone, Copy)]
struct Heading {
    /// Whether its opening sequence ended.
    is_opened: bool,
    /// Where its text may begin: the first data or sequence after that.
    first: Option<usize>,
    /// Where its text ends, if nothing more belongs to it.
    last: Option<usize>,
    /// Where the sequence ends that is behind the text: the closing one, if nothing follows.
    closing: Option<usize>,
}

/// Nothing is known: no heading is open, or one begins.
fn nothing() -> Heading
    ensures { result ≡ nothing }
{
    Heading {
        is_opened: false,
        first: None,
        last: None,
        closing: None,
    }
}

/// Whether a heading begins or ends.
fn bounds_heading(event: &Event) -> bool
    ensures { result ≡ bounds_heading event.now }
{
    event.name == Name::HeadingAtx
}

/// Whether the text of a heading may begin.
fn begins_text(event: &Event) -> bool
    ensures { result ≡ begins_text event.now }
{
    is_event(Kind::Enter, Name::Data, event)
        || is_event(Kind::Enter, Name::HeadingAtxSequence, event)
}

/// What is known after a sequence that ends at an index. One before it belongs to the text.
fn past_sequence(heading: Heading, index: usize) -> Heading
    ensures { result ≡ past_sequence heading index }
{
    if !heading.is_opened {
        return Heading {
            is_opened: true,
            ..heading
        };
    }
    let last = if heading.closing.is_none() {
        heading.last
    } else {
        heading.closing
    };
    Heading {
        last,
        closing: Some(index),
        ..heading
    }
}

/// What is known after an event that has an index.
fn seen(heading: Heading, event: &Event, index: usize) -> Heading
    ensures { result ≡ seen heading event.now index }
{
    if bounds_heading(event) {
        return nothing();
    }
    if is_event(Kind::Exit, Name::HeadingAtxSequence, event) {
        return past_sequence(heading, index);
    }
    if !heading.is_opened {
        return heading;
    }
    if is_event(Kind::Exit, Name::Data, event) {
        return Heading {
            last: Some(index),
            closing: None,
            ..heading
        };
    }
    if heading.first.is_none() && begins_text(event) {
        return Heading {
            first: Some(index),
            ..heading
        };
    }
    heading
}

/// What is known after the event at an index, if there is one.
fn seen_at(heading: Heading, events: &[Event], index: usize) -> Heading
    ensures { result ≡ seen_at events.now heading index }
{
    match events.get(index) {
        None => heading,
        Some(event) => seen(heading, event, index),
    }
}

/// Adds the edit that makes the text of a heading, if it has one.
fn add_text<A: Allocator + Clone>(
    edits: &mut EditMap<A>,
    alloc: &A,
    events: &[Event],
    heading: Heading,
) -> Result<(), Message>
    ensures edits { OnOk result (edits_of edits.new ≡ text_edit events.now heading (edits_of edits.old)) }
    ensures memory { IfErr result IsOutOfMemory }
{
    let Some(first) = heading.first else {
        return Ok(());
    };
    let Some(last) = heading.last else {
        return Ok(());
    };
    let from = place_at(events, first);
    let to = place_at(events, last);
    let text = [
        enter_event(Name::HeadingAtxText, from),
        Event::new(Kind::Enter, Name::Data, from, Some(TEXT)),
        exit_event(Name::Data, to),
        exit_event(Name::HeadingAtxText, to),
    ];
    put(
        edits,
        alloc,
        first,
        later(1, last).saturating_sub(first),
        &text,
    )
}

/// Adds the edit of an index: where a heading ends, that of its text.
fn add_heading<A: Allocator + Clone>(
    edits: &mut EditMap<A>,
    alloc: &A,
    events: &[Event],
    heading: Heading,
    index: usize,
) -> Result<(), Message>
    ensures edits { OnOk result (edits_of edits.new ≡ heading_edit events.now heading index (edits_of edits.old)) }
    ensures memory { IfErr result IsOutOfMemory }
{
    if is_bound_at(Kind::Exit, Name::HeadingAtx, events, index) {
        return add_text(edits, alloc, events, heading);
    }
    Ok(())
}

/// The edits that make the texts of ATX headings.
#[tactic(auto, using(crate::proofs::Steps::atx_more, crate::proofs::Steps::atx_start, crate::proofs::Steps::known_more, crate::proofs::Steps::known_start))]
pub fn atx_edits<A: Allocator + Clone>(alloc: &A, events: &[Event]) -> Result<EditMap<A>, Message>
    ensures edits { IfOk result (λ edits. edits_of edits ≡ atx_edits events.now (length events.now)) }
    ensures memory { IfErr result IsOutOfMemory }
{
    let mut edits = EditMap::new(alloc.clone()?);
    let mut heading = nothing();
    for index in 0..events.len() {
        add_heading(&mut edits, alloc, events, heading, index)?;
        heading = seen_at(heading, events, index);
    }
    Ok(edits)
}
