//! What is left of the open paragraph once the definitions at its front are cut (CommonMark 4.7).
//!
//! Whether a line is an underline, or a table begins, depends on it while lines are read. It is
//! asked once a line is an underline or a row of delimiters, so at most twice in a paragraph.
ghost use Rattle.std.specs.Prelude.{◌≡◌, ◌++◌, IfOk, OnOk};
ghost use Rattle.markdown_engine.specs.Machine.{bytes_of, config, constructs_of};
ghost use Rattle.state_left.specs.Left.{events_between, is_head_left, is_left, is_of_line, is_paragraph_left, last_lines};
ghost use Rattle.state_left.specs.Left.{line_of, open_text, paragraph_text, place_at};

use engine_text::bytes::part;
use inline_links::definition::definition;
use markdown_engine::event::{Event, Kind, Name};
use markdown_engine::tokenizer::Tokenizer;
use std::alloc::{AllocError, Allocator};

/// Whether an event is one of a paragraph's line: of its chunk, of its line ending, or of the white
/// space before it.
fn is_of_line(event: &Event) -> bool
    ensures { result ≡ is_of_line event.now }
{
    event.name == Name::Content || event.name == Name::LineEnding || event.name == Name::SpaceOrTab
}

/// The events of the lines of a paragraph that are the last of these events.
fn last_lines(events: &[Event]) -> &[Event]
    ensures { result.now ≡ last_lines events.now }
{
    let mut first = events.len();
    while first > 0 && is_of_line(&events[first - 1]) {
        first -= 1;
    }
    &events[first..]
}

/// Adds the bytes of a line between two places, and a line ending.
fn push_line<A: Allocator>(
    text: &mut Vec<u8, A>,
    bytes: &[u8],
    start: usize,
    end: usize,
) -> Result<(), AllocError>
    ensures { OnOk result (text.new.items ≡ text.old.items ++ line_of bytes.now start end) }
{
    text.extend_from_slice(part(bytes, start, end.saturating_sub(start)))?;
    text.push(b'\n')?;
    Ok(())
}

/// The text of the paragraph whose lines are the last of these events.
fn paragraph_text<A: Allocator>(
    alloc: A,
    bytes: &[u8],
    events: &[Event],
) -> Result<Vec<u8, A>, AllocError>
    ensures { IfOk result (λ text. text.items ≡ paragraph_text bytes.now events.now) }
{
    let lines = last_lines(events);
    let mut text = Vec::new(alloc);
    let mut start = 0;
    for index in 0..lines.len() {
        let event = lines[index];
        if event.name == Name::Content {
            match event.kind {
                Kind::Enter => start = event.point().index,
                Kind::Exit => push_line(&mut text, bytes, start, event.point().index)?,
            }
        }
    }
    Ok(text)
}

/// Whether something is left of a paragraph's text after all definitions at its front.
fn is_left(text: &[u8]) -> bool
    ensures { result ≡ is_left text.now }
{
    let mut rest = text;
    while let Some(found) = definition(rest) {
        rest = found.rest;
    }
    !rest.is_empty()
}

/// The events from an index on that come before another.
fn events_between(events: &[Event], first: usize, end: usize) -> &[Event]
    ensures { result.now ≡ events_between first end events.now }
{
    let before = &events[..end.min(events.len())];
    &before[first.min(before.len())..]
}

/// The index in the text of the event at an index.
fn place_at(events: &[Event], index: usize) -> usize
    ensures { result ≡ place_at events.now index }
{
    match events.get(index) {
        Some(event) => event.point().index,
        None => 0,
    }
}

/// The text of the paragraph that was open when there were `start` events.
fn open_text<'t, M, T, A: Allocator>(
    tokenizer: &'t Tokenizer<'_, M, T, A>,
) -> Result<Vec<u8, &'t A>, AllocError>
    ensures { IfOk result (λ text. text.items ≡ open_text (bytes_of tokenizer.now) (config tokenizer.now)) }
{
    let events = &tokenizer.events;
    let state = &tokenizer.tokenize_state;
    let before = events_between(events, state.space_or_tab_min, state.start);
    paragraph_text(events.allocator(), tokenizer.parse_state.bytes, before)
}

/// Whether something is left of the paragraph that was open when there were `start` events.
pub fn is_paragraph_left<M, T, A: Allocator>(
    tokenizer: &Tokenizer<'_, M, T, A>,
) -> Result<bool, AllocError>
    ensures { IfOk result (λ left. left ≡ is_paragraph_left (bytes_of tokenizer.now) (constructs_of tokenizer.now).definition (config tokenizer.now)) }
{
    if !tokenizer.parse_state.options.constructs.definition {
        return Ok(true);
    }
    let text = open_text(tokenizer)?;
    Ok(is_left(&text))
}

/// Whether the line of a table's head belongs to no definition. It began with the event at `start`
/// and ended at `end`.
pub fn is_head_left<M, T, A: Allocator>(
    tokenizer: &Tokenizer<'_, M, T, A>,
) -> Result<bool, AllocError>
    ensures { IfOk result (λ left. left ≡ is_head_left (bytes_of tokenizer.now) (constructs_of tokenizer.now).definition (config tokenizer.now)) }
{
    if !tokenizer.parse_state.options.constructs.definition {
        return Ok(true);
    }
    let state = &tokenizer.tokenize_state;
    let start = place_at(&tokenizer.events, state.start);
    let mut text = open_text(tokenizer)?;
    push_line(&mut text, tokenizer.parse_state.bytes, start, state.end)?;
    Ok(is_left(&text))
}
