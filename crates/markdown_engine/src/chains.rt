//! Chains of chunks, each read as one text by a tokenizer of its own.
//!
//! What stands before a chunk on its line, as the marks of containers, isn't read, if the line starts
//! after the chunk before. The events that are added come in place of the chunks.
ghost use Rattle.std.specs.Prelude.{◌≡◌, ◌≤◌, ◌<◌, OnOk, OnErr, IfOk, IfErr, [], length};
ghost use Rattle.std.specs.Option.{option_copied};
ghost use Rattle.markdown_options.specs.Messages.{IsOutOfMemory};
ghost use Rattle.engine_states.specs.declared.state.State.TheVariants as states;
ghost use Rattle.engine_edits.specs.Edits.{edits_of};
ghost use Rattle.engine_chunks.specs.Chunks.{chunks};
ghost use Rattle.engine_chunks.specs.Parts.{counts, with_division};
ghost use Rattle.markdown_engine.specs.Chains.{AreApart, ArePlaces, AreReadable, DividesIn, IsFresh, IsPlace, MayBegin, ReadsChainIn};
ghost use Rattle.markdown_engine.specs.Chains.{SubtokenizesIn, after_chunk, chain_content, chains, end_of, first_state, is_empty, place_at};
ghost use Rattle.markdown_engine.specs.Chains.{starts_line, with_chunks};
ghost use Rattle.markdown_engine.specs.Context.{context};
ghost use Rattle.markdown_engine.specs.Evaluation.{AreReadingOf};
ghost use Rattle.markdown_engine.specs.Machine.{KeepsAttempts, KeepsParseState, bytes_of, config, fresh_config, read_with, source};
ghost use Rattle.markdown_engine.specs.Resolving.{IsNotDone, found_both, found_in, nothing_found};
ghost use Rattle.markdown_engine.specs.Standing.{LinksLeadIn};
ghost use Rattle.markdown_engine.specs.Together.{StaysBalanced};

use crate::flush::{add_found, nothing_found};
use crate::parse_state::ParseState;
use crate::tokenizer::{Machine, Tokenizer};
use crate::virtual_text::line_start;
use engine_chunks::chunks::chunks;
use engine_chunks::divide_events;
use engine_edits::EditMap;
use engine_events::{Content, Event, Point};
use engine_states::state::{Block, Inline, Name};
use engine_states::{State, Subresult};
use markdown_options::{Message, Tables};
use std::alloc::Allocator;

/// The content of the chain that an event begins, if such chains are requested.
pub(crate) fn chain_content(event: &Event, filter: Option<Content>) -> Option<Content>
    ensures { result ≡ chain_content filter event.now }
{
    let link = event.link()?;
    let asked = match filter {
        None => true,
        Some(content) => content == link.content,
    };
    if link.previous.is_none() && asked {
        Some(link.content)
    } else {
        None
    }
}

/// The state that a content is read by.
fn first_state(content: Content) -> Name
    ensures { result ≡ first_state content }
{
    match content {
        Content::Content => Name::Block(Block::ContentDefinitionBefore),
        Content::String => Name::Inline(Inline::StringStart),
        Content::Flow | Content::Text => Name::Inline(Inline::TextStart),
    }
}

/// Whether a chunk's line starts at or after the end of the chunk before.
fn starts_line(bytes: &[u8], end: Point, start: Point) -> bool
    requires { start.index ≤ length bytes.now }
    ensures { result ≡ starts_line bytes.now end start }
{
    let line = line_start(bytes, start.index);
    end.index < line || (end.index == line && end.vs == 0)
}

/// Where the event at an index is.
fn place_at(events: &[Event], index: usize) -> Point
    requires { index < length events.now }
    ensures { result ≡ place_at events.now index }
{
    events[index].point()
}

/// Skips what stands before a chunk on its line, if the line starts after the chunk before.
fn skip_before<'a, M, T, A: Allocator + Clone>(
    tokenizer: &mut Tokenizer<'a, M, T, A>,
    end: Point,
    start: Point,
) -> Result<(), Message>
    requires { start.index ≤ length (bytes_of tokenizer.old) }
    ensures source { OnOk result (source tokenizer.new ≡ after_chunk end start (source tokenizer.old)) }
    ensures config { config tokenizer.new ≡ config tokenizer.old }
    ensures attempts { KeepsAttempts tokenizer.old tokenizer.new }
    ensures failed { OnOk result (tokenizer.new.failed ≡ tokenizer.old.failed) }
    ensures parse_state { KeepsParseState tokenizer.old tokenizer.new }
    ensures memory { IfErr result IsOutOfMemory }
{
    if starts_line(tokenizer.parse_state.bytes, end, start) {
        tokenizer.define_skip(start)?;
    }
    Ok(())
}

/// Skips what stands before the chunks of a chain, and answers where the last one ends.
fn skip_before_chunks<'a, M, T, A: Allocator + Clone>(
    tokenizer: &mut Tokenizer<'a, M, T, A>,
    events: &[Event],
    chain: &[usize],
) -> Result<Point, Message>
    requires apart { AreApart 0 chain.now (length events.now) }
    requires places { ArePlaces (bytes_of tokenizer.old) events.now }
    requires place { IsPlace (bytes_of tokenizer.old) tokenizer.old.point }
    ensures source { OnOk result (source tokenizer.new ≡ with_chunks events.now tokenizer.old.point chain.now (source tokenizer.old)) }
    ensures end { IfOk result (λ end. end ≡ end_of events.now tokenizer.old.point chain.now) }
    ensures place { IfOk result (λ end. IsPlace (bytes_of tokenizer.old) end) }
    ensures config { config tokenizer.new ≡ config tokenizer.old }
    ensures attempts { tokenizer.new.attempts.items ≡ tokenizer.old.attempts.items }
    ensures failed { OnOk result (tokenizer.new.failed ≡ tokenizer.old.failed) }
    ensures parse_state { tokenizer.new.parse_state.now ≡ tokenizer.old.parse_state.now }
    ensures memory { IfErr result IsOutOfMemory }
{
    let mut end = tokenizer.point;
    for chunk in chain {
        skip_before(tokenizer, end, place_at(events, *chunk))?;
        end = place_at(events, *chunk + 1);
    }
    Ok(end)
}

/// Reads the chain that an event begins by a tokenizer at its start, and answers what resolvers find.
fn read_chunks<M: Machine<T>, T: Tables, A: Allocator + Clone>(
    alloc: &A,
    tokenizer: &mut Tokenizer<'_, M, T, A>,
    events: &[Event],
    first: usize,
    content: Content,
) -> Result<Subresult<A>, Message>
    requires first { first < length events.now }
    requires apart { AreApart 0 (chunks events.now first) (length events.now) }
    requires places { ArePlaces (bytes_of tokenizer.old) events.now }
    requires fresh { IsFresh (place_at events.now first) tokenizer.old }
    requires begins { M.valid (read_with tokenizer.old) (fresh_config (place_at events.now first) (M.seen tokenizer.old.machine)) []
        (states.Next (first_state content)) }
    ensures reads { IfOk result (λ found. ReadsChainIn M.step M.resolved (read_with tokenizer.old) (M.seen tokenizer.old.machine)
        events.now (first, content) tokenizer.new.events.items (found_in found)) }
    ensures memory { IfErr result IsOutOfMemory }
{
    let chain = chunks(alloc.clone()?, events, first)?;
    let end = skip_before_chunks(tokenizer, events, &chain)?;
    let state = State::Next(first_state(content));
    tokenizer.flush_to((end.index, end.vs as usize), state, true)
}

/// The events that are added as a chain is read, and what its resolvers find.
fn read_chain<M: Machine<T> + Copy, T: Tables, A: Allocator + Clone>(
    alloc: &A,
    parse_state: &ParseState<'_, T, A>,
    machine: M,
    events: &[Event],
    first: usize,
    content: Content,
) -> Result<(Vec<Event, A>, Subresult<A>), Message>
    requires first { first < length events.now }
    requires apart { AreApart 0 (chunks events.now first) (length events.now) }
    requires places { ArePlaces parse_state.now.bytes.now events.now }
    requires begins { M.valid (context parse_state.now) (fresh_config (place_at events.now first) (M.seen machine)) [] (states.Next (first_state content)) }
    ensures reads { IfOk result (λ read. ReadsChainIn M.step M.resolved (context parse_state.now) (M.seen machine)
        events.now (first, content) read.0.items (found_in read.1)) }
    ensures memory { IfErr result IsOutOfMemory }
{
    let start = place_at(events, first);
    let mut tokenizer = Tokenizer::new(alloc.clone()?, start, parse_state, machine)?;
    let found = read_chunks(alloc, &mut tokenizer, events, first, content)?;
    Ok((tokenizer.into_events(), found))
}

/// Adds the edits that put the events of a chain in its place, and what was found as it was read.
/// Answers how many events go and come by then.
fn add_chain<A: Allocator + Clone>(
    alloc: &A,
    map: &mut EditMap<A>,
    events: &[Event],
    first: usize,
    read: (Vec<Event, A>, Subresult<A>),
    before: (usize, usize),
    found: &mut Subresult<A>,
) -> Result<(usize, usize), Message>
    ensures edits { OnOk result (edits_of map.new ≡ with_division events.now first read.0.items before (edits_of map.old)) }
    ensures counts { IfOk result (λ after. after ≡ counts events.now (chunks events.now first) read.0.items 0 before.0 before.1) }
    ensures found { OnOk result (found_in found.new ≡ found_both (found_in found.old) (found_in read.1)) }
    ensures done { OnOk result (IsNotDone found.new) }
    ensures memory { IfErr result IsOutOfMemory }
{
    let (children, more) = read;
    let after = divide_events(alloc.clone()?, map, events, first, &children, before)?;
    add_found(found, Some(more))?;
    found.done = false;
    Ok(after)
}

/// Reads the chains that are asked for, and adds the edits that put what was read in their place.
/// Answers what was found, and is done where there was none.
fn divide_chains<M: Machine<T> + Copy, T: Tables, A: Allocator + Clone>(
    alloc: &A,
    map: &mut EditMap<A>,
    events: &[Event],
    parse_state: &ParseState<'_, T, A>,
    machine: M,
    filter: Option<Content>,
) -> Result<Subresult<A>, Message>
    requires readable { AreReadable parse_state.now.bytes.now filter events.now }
    requires begins { MayBegin (M.valid (context parse_state.now)) (M.seen machine) events.now (chains filter events.now) }
    ensures divides { IfOk result (λ found. DividesIn M.step M.resolved (context parse_state.now) (M.seen machine)
        filter events.now (edits_of map.old) (edits_of map.new) (found_in found)) }
    ensures done { IfOk result (λ found. found.done ≡ is_empty (chains filter events.now)) }
    ensures memory { IfErr result IsOutOfMemory }
{
    let mut counts = (0, 0);
    let mut found = nothing_found(alloc.clone()?)?;
    found.done = true;
    for index in 0..events.len() {
        if let Some(content) = chain_content(&events[index], filter) {
            let read = read_chain(alloc, parse_state, machine, events, index, content)?;
            counts = add_chain(alloc, map, events, index, read, counts, &mut found)?;
        }
    }
    Ok(found)
}

/// Reads each chain of chunks as one text, by a machine and a tokenizer of its own, and puts the
/// events that it adds in place of the chunks.
///
/// With a filter only chains of that content are read. Chains run forward and don't lie in one
/// another. The answer has what resolvers found, and is done where there was no chain to read. An
/// error leaves the events.
pub fn subtokenize<M: Machine<T> + Copy, T: Tables, A: Allocator + Clone>(
    events: &mut Vec<Event, A>,
    parse_state: &ParseState<'_, T, A>,
    machine: M,
    filter: Option<&Content>,
) -> Result<Subresult<A>, Message>
    requires readable { AreReadable parse_state.now.bytes.now (option_copied filter) events.old.items }
    requires begins { MayBegin (M.valid (context parse_state.now)) (M.seen machine) events.old.items (chains (option_copied filter) events.old.items) }
    ensures read { IfOk result (λ found. SubtokenizesIn M.step M.resolved (context parse_state.now) (M.seen machine)
        (option_copied filter.entry) events.old.items events.new.items (found_in found)) }
    ensures evaluated { IfOk result (λ found. AreReadingOf M.step M.rank M.resolved (context parse_state.now) (M.seen machine)
        (option_copied filter.entry) events.old.items events.new.items (found_in found)) }
    ensures links { IfOk result (λ found. LinksLeadIn M.step M.resolved (context parse_state.now) (M.seen machine)
        (option_copied filter.entry) events.old.items events.new.items (found_in found)) }
    ensures balanced { IfOk result (λ found. StaysBalanced M.step M.resolved (context parse_state.now) (M.seen machine)
        (option_copied filter.entry) events.old.items events.new.items (found_in found)) }
    ensures done { IfOk result (λ found. found.done ≡ is_empty (chains (option_copied filter.entry) events.old.items)) }
    ensures err { OnErr result (events.new.items ≡ events.old.items) }
    ensures memory { IfErr result IsOutOfMemory }
{
    let mut map = EditMap::new(events.allocator().clone()?);
    let found = divide_chains(
        events.allocator(),
        &mut map,
        events,
        parse_state,
        machine,
        filter.copied(),
    )?;
    map.consume(events)?;
    Ok(found)
}
