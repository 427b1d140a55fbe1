//! The resolver of content: the lines of each paragraph are read as one text (CommonMark 4.7 and 4.8).
ghost use Rattle.std.specs.Prelude.{◌≡◌, ◌↔◌, IfErr, IfOk, IsTrue, List, MatchBool, OnErr, false, true};
ghost use Rattle.markdown_options.specs.Messages.{IsOutOfMemory};
ghost use Rattle.engine_events.specs.declared.event.Event.{Event as AnyEvent};
ghost use Rattle.markdown_engine.specs.Context.{context};
ghost use Rattle.markdown_engine.specs.Machine.{config, read_with, KeepsParseState};
ghost use Rattle.state_resolvers.specs.Whole.{is_whole};
ghost use Rattle.state_block_resolvers.specs.Content.{AreLinesReadable, ReadsContents, ResolvesContent, with_events};

use markdown_engine::event::{Content, Event};
use markdown_engine::place::Point;
use markdown_engine::tokenizer::Tokenizer;
use markdown_engine::{Message, ParseState, are_apart, are_places, subtokenize};
use markdown_options::Tables;
use state_content::contents::Contents;
use state_edits_blocks::content::join_lines;
use state_resolvers::whole::is_whole;
use std::alloc::Allocator;

/// The same events.
fn same<A: Allocator>(alloc: A, events: &[Event]) -> Result<Vec<Event, A>, Message>
    ensures events { IfOk result (λ all. all.items ≡ events.now) }
    ensures memory { IfErr result IsOutOfMemory }
{
    let mut all = Vec::new(alloc);
    all.extend_from_slice(events)?;
    Ok(all)
}

/// Whether the chains of lines can be read.
fn are_readable<A: Allocator + Clone>(
    alloc: &A,
    bytes: &[u8],
    events: &[Event],
) -> Result<bool, Message>
    ensures readable { IfOk result (λ readable. IsTrue readable ↔ AreLinesReadable bytes.now events.now) }
    ensures memory { IfErr result IsOutOfMemory }
{
    Ok(are_places(bytes, events) && are_apart(alloc, events, Some(&Content::Content))?)
}

/// Reads the lines of each paragraph as one text. Returns false if they can't be read. Then, and
/// after an error, the events may be any.
fn read_contents<T: Tables, A: Allocator + Clone>(
    events: &mut Vec<Event, A>,
    parse_state: &ParseState<'_, T, A>,
) -> Result<bool, Message>
    ensures read { IfOk result (λ done. MatchBool done
        (ReadsContents (context parse_state.now) events.old.items events.new.items)
        ((all : List AnyEvent) → ¬ (ReadsContents (context parse_state.now) events.old.items all))) }
    ensures memory { IfErr result IsOutOfMemory }
{
    let alloc = events.allocator().clone()?;
    if !join_lines(events)? {
        return Ok(false);
    }
    if !are_readable(&alloc, parse_state.bytes, events)? {
        return Ok(false);
    }
    subtokenize(events, parse_state, Contents, Some(&Content::Content))?;
    Ok(true)
}

/// Reads the lines of each paragraph as one text, and returns whether whole events result. If not,
/// and after an error, the events may be any.
fn read_whole<T: Tables, A: Allocator + Clone>(
    events: &mut Vec<Event, A>,
    parse_state: &ParseState<'_, T, A>,
    to: Point,
) -> Result<bool, Message>
    ensures read { IfOk result (λ done. MatchBool done
        (ReadsContents (context parse_state.now) events.old.items events.new.items × (is_whole events.new.items to ≡ true))
        ((all : List AnyEvent) → ReadsContents (context parse_state.now) events.old.items all → is_whole all to ≡ false)) }
    ensures memory { IfErr result IsOutOfMemory }
{
    if !read_contents(events, parse_state)? {
        return Ok(false);
    }
    Ok(is_whole(events.allocator().clone()?, events, to)?)
}

/// Reads the lines of each paragraph as one text by [`Contents`]: definitions, and then a paragraph
/// (CommonMark 4.7 and 4.8). What is read comes in place of the lines.
///
/// Returns false, and leaves the events, if the lines can't be read or the result isn't whole. An
/// error leaves the events, too.
pub fn resolve_content<M, T: Tables, A: Allocator + Clone>(
    tokenizer: &mut Tokenizer<'_, M, T, A>,
) -> Result<bool, Message>
    ensures resolved { IfOk result (λ done. ResolvesContent (read_with tokenizer.old) tokenizer.old.point tokenizer.old.events.items
        tokenizer.new.events.items done) }
    ensures became { config tokenizer.new ≡ with_events tokenizer.new.events.items (config tokenizer.old) }
    ensures err { OnErr result (tokenizer.new.events.items ≡ tokenizer.old.events.items) }
    ensures parse_state { KeepsParseState tokenizer.old tokenizer.new }
    ensures memory { IfErr result IsOutOfMemory }
{
    let mut events = same(tokenizer.events.allocator().clone()?, &tokenizer.events)?;
    let done = read_whole(&mut events, tokenizer.parse_state, tokenizer.point)?;
    if done {
        tokenizer.events = events;
    }
    Ok(done)
}
