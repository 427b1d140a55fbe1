//! What reads the flow of a text's lines, and keeps where containers begin and end.
ghost use Rattle.std.specs.Prelude.{◌≡◌, IfErr, IfOk, OnOk};
ghost use Rattle.std.specs.Option.{option_map};
ghost use Rattle.markdown_options.specs.Messages.{IsOutOfMemory};
ghost use Rattle.markdown_engine.specs.Context.{context};
ghost use Rattle.markdown_engine.specs.KeptState.{kept_state};
ghost use Rattle.markdown_engine.specs.VirtualText.{IsCut};
ghost use Rattle.state_reader.specs.Flow.{flow_context, flow_finished, flow_read, flow_seen};
ghost use Rattle.state_reader.specs.Reader.{HoldsFlow, ReaderHolds, ReaderSeen, anew, closed, cut_at, finished, flow_events, fresh_reader, goes_on};
ghost use Rattle.state_reader.specs.Reader.{is_cut, line_read, opened, reader_calls, reader_seen, settled};
ghost use Rattle.state_reader.specs.ReaderLaws.{reader_lawful};

use crate::flow::{Flow, begin_anew, begin_line, finish, is_accepting, read_on, start_flow};
use crate::span::{Span, close_all, kind_of, mark_one};
use markdown_engine::container::Container;
use markdown_engine::event::Event;
use markdown_engine::place::{Point, START};
use markdown_engine::tokenize_state::TokenizeState;
use markdown_engine::{Message, ParseState};
use markdown_options::Tables;
use state_containers::open::is_open;
use state_document::line_reader::LineReader;
use std::alloc::{AllocError, Allocator, Global};

/// Reads the flow of a text's lines. It has no parameter for an allocator: a machine over a type with
/// one can't be given to a tokenizer.
#[derive(Drop)]
pub struct FlowReader {
    /// What flow has read; none once memory was refused.
    pub flow: Option<Flow<Global>>,
    /// Where the flow of the line begins, until it is read.
    begun: Option<Point>,
    /// Whether a paragraph was open at the end of the line before.
    accepting: bool,
    /// Whether one stays open although its containers didn't go on.
    stays: bool,
    /// Whether a container begins on this line.
    pierced: bool,
    /// The index of the document's event at which a container may begin.
    mark: usize,
    /// All containers, in the order in which they begin.
    pub spans: Vec<Span>,
    /// The indices of those that are open, the outermost first.
    nested: Vec<usize>,
}

/// Whether a text may be cut at a place.
fn is_cut(bytes: &[u8], point: Point) -> bool
    ensures { result ≡ is_cut bytes.now point }
{
    point.index < bytes.len() || (point.index == bytes.len() && point.vs == 0)
}

/// A place as an end of a range.
fn cut_at(point: Point) -> (usize, usize)
    ensures { result ≡ cut_at point }
{
    (point.index, point.vs as usize)
}

/// The text as flow reads it, without labels.
fn text_of<'a, T: Tables, A: Allocator>(
    alloc: Global,
    parse_state: &'a ParseState<'a, T, A>,
) -> Result<ParseState<'a, T, Global>, Message>
    ensures text { IfOk result (λ text. context text ≡ flow_context (context parse_state.now)) }
    ensures memory { IfErr result IsOutOfMemory }
{
    ParseState::new(
        alloc,
        parse_state.bytes,
        parse_state.options,
        parse_state.tables,
    )
}

/// Reads a range of the text on. Fails if memory was refused before.
fn read_range<T: Tables, A: Allocator>(
    flow: &mut Option<Flow<Global>>,
    alloc: Global,
    parse_state: &ParseState<'_, T, A>,
    from: (usize, usize),
    to: (usize, usize),
) -> Result<(), Message>
    requires holds { HoldsFlow parse_state.now.bytes.now (option_map flow_seen flow.old) }
    requires from { IsCut parse_state.now.bytes.now from }
    requires to { IsCut parse_state.now.bytes.now to }
    ensures read { OnOk result (option_map flow_seen flow.new ≡ option_map (flow_read (flow_context (context parse_state.now)) from to) (option_map flow_seen flow.old)) }
    ensures memory { IfErr result IsOutOfMemory }
{
    let text = text_of(alloc, parse_state)?;
    let Some(waiting) = flow.take() else {
        return Err(Message::out_of_memory());
    };
    *flow = Some(read_on(waiting, &text, from, to)?);
    Ok(())
}

/// Ends what flow left open. Fails if memory was refused before.
fn end_flow<T: Tables, A: Allocator>(
    flow: &mut Option<Flow<Global>>,
    alloc: Global,
    parse_state: &ParseState<'_, T, A>,
) -> Result<(), Message>
    requires { HoldsFlow parse_state.now.bytes.now (option_map flow_seen flow.old) }
    ensures ended { OnOk result (option_map flow_seen flow.new ≡ option_map (flow_finished (flow_context (context parse_state.now))) (option_map flow_seen flow.old)) }
    ensures memory { IfErr result IsOutOfMemory }
{
    let text = text_of(alloc, parse_state)?;
    let Some(waiting) = flow.take() else {
        return Err(Message::out_of_memory());
    };
    *flow = Some(finish(waiting, &text)?);
    Ok(())
}

impl FlowReader {
    /// A reader that read nothing.
    pub fn new(alloc: Global) -> Result<FlowReader, Message>
        ensures reader { IfOk result (λ reader. reader_seen reader ≡ fresh_reader START) }
        ensures memory { IfErr result IsOutOfMemory }
    {
        let flow = start_flow(alloc, START)?;
        Ok(FlowReader {
            flow: Some(flow),
            begun: None,
            accepting: false,
            stays: false,
            pierced: false,
            mark: 0,
            spans: Vec::new(alloc),
            nested: Vec::new(alloc),
        })
    }

    /// Reads the flow of the line up to a place.
    fn read_line<T: Tables, A: Allocator>(
        &mut self,
        parse_state: &ParseState<'_, T, A>,
        point: Point,
    ) -> Result<(), Message>
        requires { ReaderHolds (context parse_state.now) (reader_seen self.old) }
        ensures read { OnOk result (reader_seen self.new ≡ line_read (context parse_state.now) point (reader_seen self.old) self.old.begun) }
        ensures memory { IfErr result IsOutOfMemory }
    {
        let Some(begun) = self.begun else {
            return Ok(());
        };
        self.begun = None;
        if !is_cut(parse_state.bytes, point) {
            return Ok(());
        }
        read_range(
            &mut self.flow,
            *self.spans.allocator(),
            parse_state,
            cut_at(begun),
            cut_at(point),
        )
    }

    /// Ends what flow left open.
    fn finish<T: Tables, A: Allocator>(
        &mut self,
        parse_state: &ParseState<'_, T, A>,
    ) -> Result<(), Message>
        requires { ReaderHolds (context parse_state.now) (reader_seen self.old) }
        ensures finished { OnOk result (reader_seen self.new ≡ finished (context parse_state.now) (reader_seen self.old)) }
        ensures memory { IfErr result IsOutOfMemory }
    {
        end_flow(&mut self.flow, *self.spans.allocator(), parse_state)
    }

    /// Reads the flow of the last line up to a place, and ends what flow left open.
    fn read_end<T: Tables, A: Allocator>(
        &mut self,
        parse_state: &ParseState<'_, T, A>,
        point: Point,
    ) -> Result<(), Message>
        requires { ReaderHolds (context parse_state.now) (reader_seen self.old) }
        ensures read { OnOk result (reader_seen self.new ≡
            finished (context parse_state.now) (line_read (context parse_state.now) point (reader_seen self.old) self.old.begun)) }
        ensures memory { IfErr result IsOutOfMemory }
    {
        self.read_line(parse_state, point)?;
        self.finish(parse_state)
    }

    /// The events of flow.
    pub fn events(&self) -> &[Event]
        ensures { result.now ≡ flow_events (reader_seen self.now).flow }
    {
        match &self.flow {
            Some(flow) => &flow.events,
            None => &[],
        }
    }

    /// Whether all containers went on, and none began.
    fn goes_on<A: Allocator>(&self, kept: &TokenizeState<A>) -> bool
        ensures { result ≡ goes_on (kept_state kept.now) (reader_seen self.now) }
    {
        kept.space_or_tab_max == kept.document_container_stack.len() && !self.pierced
    }

    /// Closes the containers after so many, at a line.
    fn close(&mut self, count: usize, line: usize)
        ensures { reader_seen self.new ≡ closed count line (reader_seen self.old) }
    {
        let first = count.min(self.nested.len());
        close_all(&mut self.spans, &self.nested[first..], line);
        self.nested.truncate(count);
    }

    /// Opens a container that begins on a line.
    fn open_span(&mut self, kind: Container, line: usize) -> Result<(), AllocError>
        ensures { OnOk result (reader_seen self.new ≡ opened kind line (reader_seen self.old)) }
    {
        let index = self.spans.len();
        let parent = self.nested.last().copied();
        self.spans.push(Span {
            kind,
            start: self.mark,
            marker: line,
            close: line,
            parent,
        })?;
        self.nested.push(index)?;
        Ok(())
    }

    /// Begins the flow of a new container.
    fn begin_anew(&mut self)
        ensures { reader_seen self.new ≡ anew (reader_seen self.old) }
    {
        if let Some(flow) = &mut self.flow {
            begin_anew(flow);
        }
    }

    /// Keeps which containers stay open after a line, the flow of which began at a place.
    fn settle<A: Allocator>(&mut self, kept: &TokenizeState<A>, begun: Option<Point>)
        ensures { reader_seen self.new ≡ settled (kept_state kept.now) begun (reader_seen self.old) }
    {
        let Some(begun) = begun else {
            return;
        };
        let Some(flow) = &self.flow else {
            return;
        };
        let accepting = is_accepting(flow);
        self.stays = flow.lazy && !self.pierced && self.accepting && accepting;
        self.accepting = accepting;
        self.pierced = false;
        if !self.stays {
            self.close(kept.space_or_tab_max, begun.line);
        }
    }
}

impl<T: Tables> LineReader<T> for FlowReader {
    ghost Seen = { ReaderSeen };

    ghost seen = { reader_seen };

    ghost calls = { reader_calls };

    ghost holds = { ReaderHolds };

    fn go_on<A: Allocator>(&mut self, kept: &TokenizeState<A>, point: Point) {
        if is_open(kept, Container::BlockQuote) {
            if let Some(index) = self.nested.get(kept.space_or_tab_max).copied() {
                mark_one(&mut self.spans, index, point.line);
            }
        }
    }

    fn mark(&mut self, events: usize) {
        self.mark = events;
    }

    fn begin<A: Allocator>(
        &mut self,
        parse_state: &ParseState<'_, T, A>,
        kept: &TokenizeState<A>,
        point: Point,
    ) -> Result<(), Message> {
        self.close(kept.space_or_tab_max, point.line);
        self.finish(parse_state)?;
        self.begin_anew();
        self.open_span(kind_of(kept.marker_b), point.line)?;
        self.pierced = true;
        Ok(())
    }

    fn begin_flow<A: Allocator>(
        &mut self,
        parse_state: &ParseState<'_, T, A>,
        kept: &TokenizeState<A>,
        point: Point,
    ) -> Result<(), Message> {
        if !is_cut(parse_state.bytes, point) {
            return Ok(());
        }
        let lazy = !self.goes_on(kept);
        let Some(flow) = &mut self.flow else {
            return Err(Message::out_of_memory());
        };
        begin_line(flow, parse_state, point, lazy)?;
        self.begun = Some(point);
        Ok(())
    }

    fn read_flow<A: Allocator>(
        &mut self,
        parse_state: &ParseState<'_, T, A>,
        kept: &TokenizeState<A>,
        point: Point,
    ) -> Result<(), Message> {
        let begun = self.begun;
        self.read_line(parse_state, point)?;
        self.settle(kept, begun);
        Ok(())
    }

    fn end<A: Allocator>(
        &mut self,
        parse_state: &ParseState<'_, T, A>,
        kept: &TokenizeState<A>,
        point: Point,
    ) -> Result<(), Message> {
        let begun = self.begun;
        self.read_end(parse_state, point)?;
        self.settle(kept, begun);
        self.close(0, point.line.saturating_add(1));
        Ok(())
    }

    fn is_interrupting<A: Allocator>(&self, kept: &TokenizeState<A>) -> bool {
        match &self.flow {
            Some(flow) => flow.interrupt && self.goes_on(kept),
            None => false,
        }
    }

    fn is_concrete<A: Allocator>(&self, kept: &TokenizeState<A>) -> bool {
        match &self.flow {
            Some(flow) => flow.concrete && self.goes_on(kept),
            None => false,
        }
    }

    fn stays_open(&self) -> bool {
        self.stays
    }

    ghost lawful = { reader_lawful };
}
