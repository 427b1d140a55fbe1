//! The events of a text by the machines.
ghost use Rattle.std.specs.Prelude.{◌≡◌, ◌↔◌, IfErr, IfOk, IfSome, IsTrue, OnOk, length};
ghost use Rattle.markdown_options.specs.Messages.{IsOutOfMemory};
ghost use Rattle.markdown_engine.specs.Context.{context};
ghost use Rattle.markdown_engine.specs.Machine.{AreCuts};
ghost use Rattle.markdown_engine.specs.Order.{AreInOrder, IsBalanced};
ghost use Rattle.state_parser.specs.Definitions.{with_labels};
ghost use Rattle.state_parser.specs.Refusal.{IsRefusal, IsUnreadable};
ghost use Rattle.state_parser.specs.WholeParts.{ArePlaced};

use crate::blocks::read_blocks;
use crate::events::end_of;
use crate::labels::defined_labels;
use crate::starts::starts;
use crate::texts::read_texts;
use markdown_engine::event::{Event, Name};
use markdown_engine::{Message, ParseState, are_places};
use markdown_options::{ParseOptions, Tables};
use state_resolvers::whole::is_whole;
use std::alloc::{AllocError, Allocator, Global};

/// The message for a text whose events can't be put together.
fn unreadable() -> Message
    ensures { IsUnreadable result }
{
    Message {
        place: None,
        reason: "Events that can't be read",
        rule_id: "events",
        source: "markdown",
    }
}

/// Puts in the labels of the definitions and of the footnote definitions of a document.
fn define<T: Tables, A: Allocator + Clone>(
    parse_state: &mut ParseState<'_, T, A>,
    alloc: &A,
    events: &[Event],
) -> Result<(), AllocError>
    ensures { OnOk result (context parse_state.new ≡ with_labels events.now (context parse_state.old)) }
{
    let bytes = parse_state.bytes;
    parse_state.definitions = defined_labels(alloc, bytes, events, Name::DefinitionLabelString)?;
    let name = Name::GfmFootnoteDefinitionLabelString;
    parse_state.gfm_footnote_definitions = defined_labels(alloc, bytes, events, name)?;
    Ok(())
}

/// Reads what blocks left. Returns whether it could be read.
fn read_rest<T: Tables, A: Allocator + Clone>(
    alloc: &A,
    parse_state: &mut ParseState<'_, T, A>,
    events: &mut Vec<Event, A>,
) -> Result<bool, Message>
    ensures memory { IfErr result IsOutOfMemory }
{
    define(parse_state, alloc, events)?;
    let starts = starts(alloc.clone()?, events)?;
    read_texts(events, parse_state, &starts)
}

/// Whether each event is at a place of the text, and the last at its end.
fn are_placed(bytes: &[u8], events: &[Event]) -> bool
    ensures { IsTrue result ↔ ArePlaced bytes.now events.now }
{
    are_places(bytes, events) && end_of(events).index == bytes.len()
}

/// These events, if they are whole: balanced, in order, each at a place of the text, and the last at
/// its end.
#[tactic(auto, using(crate::specs::WholeParts::whole_balanced, crate::specs::WholeParts::whole_in_order))]
fn whole_events<A: Allocator + Clone>(
    alloc: A,
    bytes: &[u8],
    events: Vec<Event, A>,
) -> Result<Option<Vec<Event, A>>, Message>
    ensures balanced { IfOk result (λ found. IfSome found (λ events. IsBalanced events.items)) }
    ensures order { IfOk result (λ found. IfSome found (λ events. AreInOrder events.items)) }
    ensures placed { IfOk result (λ found. IfSome found (λ events. ArePlaced bytes.now events.items)) }
    ensures memory { IfErr result IsOutOfMemory }
{
    if !are_placed(bytes, &events) {
        return Ok(None);
    }
    if is_whole(alloc, &events, end_of(&events))? {
        Ok(Some(events))
    } else {
        Ok(None)
    }
}

/// The events of a text, read in ranges; none if they can't be put together.
fn read<T: Tables>(
    alloc: Global,
    text: &str,
    options: &ParseOptions,
    tables: &T,
    cuts: &[(usize, usize)],
) -> Result<Option<Vec<Event>>, Message>
    requires { AreCuts (0, 0) cuts.now (length text.now) }
    ensures balanced { IfOk result (λ found. IfSome found (λ events. IsBalanced events.items)) }
    ensures order { IfOk result (λ found. IfSome found (λ events. AreInOrder events.items)) }
    ensures placed { IfOk result (λ found. IfSome found (λ events. ArePlaced text.now events.items)) }
    ensures memory { IfErr result IsOutOfMemory }
{
    let mut parse_state = ParseState::new(alloc, text.as_bytes(), options, tables)?;
    let Some(mut events) = read_blocks(alloc, &parse_state, cuts)? else {
        return Ok(None);
    };
    if !read_rest(&alloc, &mut parse_state, &mut events)? {
        return Ok(None);
    }
    whole_events(alloc, text.as_bytes(), events)
}

/// Returns the events of a text by the machines, as `parse_by_machines`. The machine of documents reads
/// the text in ranges: each ends at one of these places, an index in bytes and a column of a tab there,
/// and the last at the text's end. A range may end within a line, a tab or a line ending.
pub fn parse_in_ranges<T: Tables>(
    alloc: Global,
    text: &str,
    options: &ParseOptions,
    tables: &T,
    cuts: &[(usize, usize)],
) -> Result<Vec<Event>, Message>
    requires { AreCuts (0, 0) cuts.now (length text.now) }
    ensures balanced { IfOk result (λ events. IsBalanced events.items) }
    ensures order { IfOk result (λ events. AreInOrder events.items) }
    ensures placed { IfOk result (λ events. ArePlaced text.now events.items) }
    ensures err { IfErr result IsRefusal }
{
    match read(alloc, text, options, tables, cuts)? {
        Some(events) => Ok(events),
        None => Err(unreadable()),
    }
}

/// Returns the events of a text by the machines: containers and flow line by line, then lists, headings,
/// tables, paragraphs with their definitions, and what is in them.
///
/// Each event ends inside the one it began in, and none is before the one before it. Each is at a
/// place of the text, and the last at its end. What states or resolvers leave is tested as events are
/// put together. If such a test fails, the call returns a message with the rule `events`: that this
/// never happens is only tested.
///
/// The allocator is `Global`, since `FlowReader` has no other.
pub fn parse_by_machines<T: Tables>(
    alloc: Global,
    text: &str,
    options: &ParseOptions,
    tables: &T,
) -> Result<Vec<Event>, Message>
    ensures balanced { IfOk result (λ events. IsBalanced events.items) }
    ensures order { IfOk result (λ events. AreInOrder events.items) }
    ensures placed { IfOk result (λ events. ArePlaced text.now events.items) }
    ensures err { IfErr result IsRefusal }
{
    parse_in_ranges(alloc, text, options, tables, &[])
}
