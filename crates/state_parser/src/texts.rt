//! Texts and strings in the events of blocks.
ghost use Rattle.std.specs.Prelude.{◌↔◌, IfErr, IfOk, IsTrue, Some};
ghost use Rattle.markdown_options.specs.Messages.{IsOutOfMemory};
ghost use Rattle.engine_events.specs.declared.event.Content.TheVariants as contents;
ghost use Rattle.markdown_engine.specs.Chains.{AreReadable};

use markdown_engine::event::{Content, Event};
use markdown_engine::{Message, ParseState, are_apart, are_places, link_all, subtokenize};
use markdown_options::Tables;
use state_inline::inlines::Inlines;
use std::alloc::Allocator;

/// How often what was read is looked through for chunks: texts have strings in them, and these nothing.
const ROUNDS: usize = 8;

/// Whether all chunks of a content can be read.
fn are_readable<A: Allocator + Clone>(
    alloc: &A,
    bytes: &[u8],
    events: &[Event],
    content: Content,
) -> Result<bool, Message>
    ensures readable { IfOk result (λ readable. IsTrue readable ↔ AreReadable bytes.now (Some content) events.now) }
    ensures memory { IfErr result IsOutOfMemory }
{
    Ok(are_places(bytes, events) && are_apart(alloc, events, Some(&content))?)
}

/// Reads all chunks of texts. Returns whether there was none.
fn replace_texts<T: Tables, A: Allocator + Clone>(
    events: &mut Vec<Event, A>,
    parse_state: &ParseState<'_, T, A>,
    machine: Inlines<'_>,
) -> Result<bool, Message>
    requires { AreReadable parse_state.now.bytes.now (Some contents.Text) events.old.items }
    ensures memory { IfErr result IsOutOfMemory }
{
    let found = subtokenize(events, parse_state, machine, Some(&Content::Text))?;
    Ok(found.done)
}

/// Reads all chunks of strings. Returns whether there was none.
fn replace_strings<T: Tables, A: Allocator + Clone>(
    events: &mut Vec<Event, A>,
    parse_state: &ParseState<'_, T, A>,
    machine: Inlines<'_>,
) -> Result<bool, Message>
    requires { AreReadable parse_state.now.bytes.now (Some contents.String) events.old.items }
    ensures memory { IfErr result IsOutOfMemory }
{
    let found = subtokenize(events, parse_state, machine, Some(&Content::String))?;
    Ok(found.done)
}

/// Reads all chunks of texts; none if they can't be read, and else whether there was none.
fn read_text<T: Tables, A: Allocator + Clone>(
    events: &mut Vec<Event, A>,
    parse_state: &ParseState<'_, T, A>,
    machine: Inlines<'_>,
) -> Result<Option<bool>, Message>
    ensures memory { IfErr result IsOutOfMemory }
{
    let alloc = events.allocator().clone()?;
    link_all(events);
    if !are_readable(&alloc, parse_state.bytes, events, Content::Text)? {
        return Ok(None);
    }
    Ok(Some(replace_texts(events, parse_state, machine)?))
}

/// Reads all chunks of strings; none if they can't be read, and else whether there was none.
fn read_string<T: Tables, A: Allocator + Clone>(
    events: &mut Vec<Event, A>,
    parse_state: &ParseState<'_, T, A>,
    machine: Inlines<'_>,
) -> Result<Option<bool>, Message>
    ensures memory { IfErr result IsOutOfMemory }
{
    let alloc = events.allocator().clone()?;
    link_all(events);
    if !are_readable(&alloc, parse_state.bytes, events, Content::String)? {
        return Ok(None);
    }
    Ok(Some(replace_strings(events, parse_state, machine)?))
}

/// Reads texts and strings until none is left. Returns whether they could be read.
pub(crate) fn read_texts<T: Tables, A: Allocator + Clone>(
    events: &mut Vec<Event, A>,
    parse_state: &ParseState<'_, T, A>,
    starts: &[bool],
) -> Result<bool, Message>
    ensures memory { IfErr result IsOutOfMemory }
{
    let machine = Inlines { starts };
    for _ in 0..ROUNDS {
        let Some(no_text) = read_text(events, parse_state, machine)? else {
            return Ok(false);
        };
        let Some(no_string) = read_string(events, parse_state, machine)? else {
            return Ok(false);
        };
        if no_text && no_string {
            return Ok(true);
        }
    }
    Ok(false)
}
