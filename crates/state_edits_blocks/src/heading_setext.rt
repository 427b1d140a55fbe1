//! Setext headings: an underline makes a heading of the paragraph before it (CommonMark 4.3).
//!
//! ```text
//! heading_setext ::= paragraph eol underline
//! ```
ghost use Rattle.std.specs.Prelude.{◌≡◌, OnOk, IfOk, IfErr, length, slice_get};
ghost use Rattle.markdown_options.specs.Messages.{IsOutOfMemory};
ghost use Rattle.engine_edits.specs.Edits.{edits_of};
ghost use Rattle.state_edits_blocks.specs.HeadingSetext.{after_at, after_event, heading_edit, nothing, setext_edits, underline_edit};

use crate::added::put;
use engine_edits::EditMap;
use markdown_engine::Message;
use markdown_engine::event::{Event, Kind, Name};
use state_edits_data::each::{enter_event, exit_event, is_bound_at, is_event, later, place_at};
use std::alloc::Allocator;

/// The last paragraph: where it begins and ends.
#[derive(Clone, Copy)]
struct Paragraph {
    enter: Option<usize>,
    exit: Option<usize>,
}

/// There is no paragraph yet.
fn nothing() -> Paragraph
    ensures { result ≡ nothing }
{
    Paragraph {
        enter: None,
        exit: None,
    }
}

/// The last paragraph after an event that has an index.
fn after_event(paragraph: Paragraph, event: &Event, index: usize) -> Paragraph
    ensures { result ≡ after_event paragraph event.now index }
{
    if is_event(Kind::Enter, Name::Paragraph, event) {
        return Paragraph {
            enter: Some(index),
            exit: None,
        };
    }
    if is_event(Kind::Exit, Name::Paragraph, event) {
        return Paragraph {
            exit: Some(index),
            ..paragraph
        };
    }
    if is_event(Kind::Exit, Name::HeadingSetextUnderline, event) {
        return nothing();
    }
    paragraph
}

/// The last paragraph after the event at an index, if there is one.
fn after_at(paragraph: Paragraph, events: &[Event], index: usize) -> Paragraph
    ensures { result ≡ after_at events.now paragraph index }
{
    match events.get(index) {
        None => paragraph,
        Some(event) => after_event(paragraph, event, index),
    }
}

/// Adds the edits that make a heading of a paragraph, whose underline ends at an index.
fn add_heading<A: Allocator + Clone>(
    edits: &mut EditMap<A>,
    alloc: &A,
    events: &[Event],
    paragraph: Paragraph,
    index: usize,
) -> Result<(), Message>
    ensures edits { OnOk result (edits_of edits.new ≡ heading_edit events.now paragraph index (edits_of edits.old)) }
    ensures memory { IfErr result IsOutOfMemory }
{
    let Some(enter) = paragraph.enter else {
        return Ok(());
    };
    let Some(exit) = paragraph.exit else {
        return Ok(());
    };
    let from = place_at(events, enter);
    let start = [
        enter_event(Name::HeadingSetext, from),
        enter_event(Name::HeadingSetextText, from),
    ];
    put(edits, alloc, enter, 1, &start)?;
    let text_end = [exit_event(Name::HeadingSetextText, place_at(events, exit))];
    put(edits, alloc, exit, 1, &text_end)?;
    let end = [exit_event(Name::HeadingSetext, place_at(events, index))];
    put(edits, alloc, later(1, index), 0, &end)
}

/// Adds the edits of an index: where an underline ends, those of its heading.
fn add_underline<A: Allocator + Clone>(
    edits: &mut EditMap<A>,
    alloc: &A,
    events: &[Event],
    paragraph: Paragraph,
    index: usize,
) -> Result<(), Message>
    ensures edits { OnOk result (edits_of edits.new ≡ underline_edit events.now paragraph index (edits_of edits.old)) }
    ensures memory { IfErr result IsOutOfMemory }
{
    if is_bound_at(Kind::Exit, Name::HeadingSetextUnderline, events, index) {
        return add_heading(edits, alloc, events, paragraph, index);
    }
    Ok(())
}

/// The edits that make setext headings.
#[tactic(auto, using(crate::proofs::Steps::setext_more, crate::proofs::Steps::setext_start, crate::proofs::Steps::last_more, crate::proofs::Steps::last_start))]
pub fn setext_edits<A: Allocator + Clone>(
    alloc: &A,
    events: &[Event],
) -> Result<EditMap<A>, Message>
    ensures edits { IfOk result (λ edits. edits_of edits ≡ setext_edits events.now (length events.now)) }
    ensures memory { IfErr result IsOutOfMemory }
{
    let mut edits = EditMap::new(alloc.clone()?);
    let mut paragraph = nothing();
    for index in 0..events.len() {
        add_underline(&mut edits, alloc, events, paragraph, index)?;
        paragraph = after_at(paragraph, events, index);
    }
    Ok(edits)
}
