//! What flow has read, kept between lines without the text.
ghost use Rattle.std.specs.Prelude.{◌≡◌, ◌≤◌, ◌-◌, [], length, slice_get, IfErr, IfOk, OnOk};
ghost use Rattle.markdown_options.specs.Messages.{IsOutOfMemory};
ghost use Rattle.markdown_engine.specs.Context.{context};
ghost use Rattle.markdown_engine.specs.Machine.{halt_of};
ghost use Rattle.markdown_engine.specs.VirtualText.{IsCut};
ghost use Rattle.state_reader.specs.Flow.{FlowHolds, flow_anew, flow_finished, flow_line, flow_read, flow_seen, fresh_flow};
ghost use Rattle.state_reader.specs.Flow.{is_accepting, is_content, is_line_ending, is_paragraph_last, may_be_head};

use engine_edits::EditMap;
use markdown_engine::attempt::Attempt;
use markdown_engine::event::{Event, Name as EventName};
use markdown_engine::place::Point;
use markdown_engine::state::{Block, Name, State};
use markdown_engine::tokenize_state::TokenizeState;
use markdown_engine::tokenizer::Tokenizer;
use markdown_engine::virtual_text::line_start;
use markdown_engine::{Message, ParseState, resolve};
use markdown_options::Tables;
use state_flow::flows::Flows;
use std::alloc::{AllocError, Allocator};
use std::collections::BTreeMap;

/// The state in which flow begins.
const START: State = State::Next(Name::Block(Block::FlowStart));

/// A tokenizer of flow between two lines: its parts, and the state in which it waits.
#[derive(Drop)]
pub struct Flow<B: Allocator> {
    /// The events up to here.
    pub events: Vec<Event, B>,
    attempts: Vec<Attempt, B>,
    point: Point,
    next: Point,
    line_start: Point,
    previous: Option<u8>,
    current: Option<u8>,
    tokenize_state: TokenizeState<B>,
    map: EditMap<B>,
    /// The resolvers that are to run, in their order.
    pub resolvers: Vec<resolve::Name, B>,
    pub(crate) interrupt: bool,
    pub(crate) lazy: bool,
    pub(crate) concrete: bool,
    pierce: bool,
    machine: Flows,
    skips: BTreeMap<usize, Point, B>,
    end: (usize, usize),
    state: State,
}

/// The parts of a tokenizer that waits in a state, after a range that ended at a place.
fn pause<T, B: Allocator>(
    tokenizer: Tokenizer<'_, Flows, T, B>,
    end: (usize, usize),
    state: State,
) -> Flow<B>
    ensures halt { (flow_seen result).halt ≡ halt_of (λ machine. machine) tokenizer.entry state }
    ensures skips { (flow_seen result).skips ≡ tokenizer.entry.skips.entries }
    ensures end { (flow_seen result).end ≡ end }
{
    let Tokenizer {
        parse_state: _,
        events,
        attempts,
        point,
        next,
        line_start,
        previous,
        current,
        tokenize_state,
        map,
        resolvers,
        interrupt,
        lazy,
        concrete,
        pierce,
        machine,
        skips,
        end: _,
        failed: _,
    } = tokenizer;
    Flow {
        events,
        attempts,
        point,
        next,
        line_start,
        previous,
        current,
        tokenize_state,
        map,
        resolvers,
        interrupt,
        lazy,
        concrete,
        pierce,
        machine,
        skips,
        end,
        state,
    }
}

/// A tokenizer of these parts that reads on, and the state in which it waited.
fn resume<'a, T, B: Allocator>(
    flow: Flow<B>,
    parse_state: &'a ParseState<'a, T, B>,
) -> (Tokenizer<'a, Flows, T, B>, State)
    ensures halt { halt_of (λ machine. machine) result.0 result.1 ≡ (flow_seen flow).halt }
    ensures skips { result.0.skips.entries ≡ (flow_seen flow).skips }
    ensures end { result.0.end ≡ (flow_seen flow).end }
    ensures parse_state { result.0.parse_state.now ≡ parse_state.now }
{
    let Flow {
        events,
        attempts,
        point,
        next,
        line_start,
        previous,
        current,
        tokenize_state,
        map,
        resolvers,
        interrupt,
        lazy,
        concrete,
        pierce,
        machine,
        skips,
        end,
        state,
    } = flow;
    let tokenizer = Tokenizer {
        parse_state,
        events,
        attempts,
        point,
        next,
        line_start,
        previous,
        current,
        tokenize_state,
        map,
        resolvers,
        interrupt,
        lazy,
        concrete,
        pierce,
        machine,
        skips,
        end,
        failed: false,
    };
    (tokenizer, state)
}

/// The resolvers and the attempts of flow of which nothing was read.
fn empty_lists<B: Allocator + Clone>(
    alloc: &B,
) -> Result<(Vec<Attempt, B>, Vec<resolve::Name, B>), AllocError>
    ensures { IfOk result (λ lists. (lists.0.items ≡ []) × (lists.1.items ≡ [])) }
{
    let attempts = Vec::new(alloc.clone()?);
    let resolvers = Vec::new(alloc.clone()?);
    Ok((attempts, resolvers))
}

/// Flow of which nothing was read, from a place on.
pub(crate) fn start_flow<B: Allocator + Clone>(alloc: B, point: Point) -> Result<Flow<B>, Message>
    ensures flow { IfOk result (λ flow. flow_seen flow ≡ fresh_flow point) }
    ensures memory { IfErr result IsOutOfMemory }
{
    let tokenize_state = TokenizeState::new(alloc.clone()?)?;
    let map = EditMap::new(alloc.clone()?);
    let skips = BTreeMap::new(alloc.clone()?);
    let (attempts, resolvers) = empty_lists(&alloc)?;
    Ok(Flow {
        events: Vec::new(alloc),
        attempts,
        point,
        next: point,
        line_start: point,
        previous: None,
        current: None,
        tokenize_state,
        map,
        resolvers,
        interrupt: false,
        lazy: false,
        concrete: false,
        pierce: false,
        machine: Flows,
        skips,
        end: (0, 0),
        state: START,
    })
}

/// Reads a range of the text on. A failure drops the flow.
pub(crate) fn read_on<T: Tables, B: Allocator + Clone>(
    flow: Flow<B>,
    parse_state: &ParseState<'_, T, B>,
    from: (usize, usize),
    to: (usize, usize),
) -> Result<Flow<B>, Message>
    requires holds { FlowHolds parse_state.now.bytes.now (flow_seen flow) }
    requires from { IsCut parse_state.now.bytes.now from }
    requires to { IsCut parse_state.now.bytes.now to }
    ensures read { IfOk result (λ read. flow_seen read ≡ flow_read (context parse_state.now) from to (flow_seen flow)) }
    ensures memory { IfErr result IsOutOfMemory }
{
    let (mut tokenizer, state) = resume(flow, parse_state);
    let next = tokenizer.push(from, to, state);
    if let State::Error(_) = next {
        return Err(Message::out_of_memory());
    }
    Ok(pause(tokenizer, to, next))
}

/// Reads the end of the text where the last range ended. A failure drops the flow.
pub(crate) fn finish<T: Tables, B: Allocator + Clone>(
    flow: Flow<B>,
    parse_state: &ParseState<'_, T, B>,
) -> Result<Flow<B>, Message>
    requires { FlowHolds parse_state.now.bytes.now (flow_seen flow) }
    ensures finished { IfOk result (λ ended. flow_seen ended ≡ flow_finished (context parse_state.now) (flow_seen flow)) }
    ensures memory { IfErr result IsOutOfMemory }
{
    let end = flow.end;
    let (mut tokenizer, state) = resume(flow, parse_state);
    tokenizer.flush(state, false)?;
    Ok(pause(tokenizer, end, State::Ok))
}

/// Begins a line at a place. It is lazy if a container around it doesn't go on.
pub(crate) fn begin_line<T, A: Allocator, B: Allocator + Clone>(
    flow: &mut Flow<B>,
    parse_state: &ParseState<'_, T, A>,
    point: Point,
    lazy: bool,
) -> Result<(), AllocError>
    requires { point.index ≤ length parse_state.now.bytes.now }
    ensures { OnOk result (flow_seen flow.new ≡ flow_line (context parse_state.now) point lazy (flow_seen flow.old)) }
{
    flow.lazy = lazy;
    let start = line_start(parse_state.bytes, point.index);
    flow.skips.insert(start, point)?;
    Ok(())
}

/// Begins the flow of a new container after flow that ended.
pub(crate) fn begin_anew<B: Allocator>(flow: &mut Flow<B>)
    ensures { flow_seen flow.new ≡ flow_anew (flow_seen flow.old) }
{
    flow.tokenize_state.space_or_tab_min = flow.events.len();
    flow.interrupt = false;
    flow.state = START;
}

/// Whether the line before may be the head of a table.
fn may_be_head(state: State) -> bool
    ensures { result ≡ may_be_head state }
{
    match state {
        State::Next(Name::Block(block)) => block == Block::GfmTableHeadDelimiterStart,
        _ => false,
    }
}

/// Whether an event is of a line of a paragraph.
fn is_content(event: Option<Event>) -> bool
    ensures { result ≡ is_content event }
{
    match event {
        Some(event) => event.name == EventName::Content,
        None => false,
    }
}

/// Whether an event is of a line ending.
fn is_line_ending(event: Option<Event>) -> bool
    ensures { result ≡ is_line_ending event }
{
    match event {
        Some(event) => event.name == EventName::LineEnding,
        None => false,
    }
}

/// The event that so many, it among them, are the last of.
fn from_end(events: &[Event], count: usize) -> Option<Event>
    ensures { result ≡ slice_get events.now (length events.now - count) }
{
    events.get(events.len().saturating_sub(count)).copied()
}

/// Whether the last event is a paragraph's, or the last before a line ending is.
fn is_paragraph_last(events: &[Event]) -> bool
    ensures { result ≡ is_paragraph_last events.now }
{
    if is_line_ending(from_end(events, 1)) {
        is_content(from_end(events, 3))
    } else {
        is_content(from_end(events, 1))
    }
}

/// Whether a paragraph is open after a line.
pub(crate) fn is_accepting<B: Allocator>(flow: &Flow<B>) -> bool
    ensures { result ≡ is_accepting (flow_seen flow.now) }
{
    may_be_head(flow.state) || is_paragraph_last(&flow.events)
}
