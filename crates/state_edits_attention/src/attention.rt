//! Emphasis, strong emphasis, strikethrough and marked text in place of the runs that go together
//! (CommonMark 6.2, GFM 6.5).
//!
//! ```text
//! emphasis ::= emphasis_sequence emphasis_text emphasis_sequence
//! emphasis_sequence ::= '*' | '_'
//! strong ::= strong_sequence strong_text strong_sequence
//! strong_sequence ::= 2'*' | 2'_'
//! gfm_strikethrough ::= gfm_strikethrough_sequence gfm_strikethrough_text gfm_strikethrough_sequence
//! gfm_strikethrough_sequence ::= '~' | 2'~'
//! mark ::= mark_sequence mark_text mark_sequence
//! mark_sequence ::= 2'='
//! ```
//!
//! The text of a label is a container of its own, and so is all that stands in none. The runs of a
//! container go together by `inline_runs`, once its end is found.
ghost use Rattle.std.specs.Prelude.{◌≡◌, ◌<◌, [], OnOk, IfOk, IfErr, length, drop, slice_get, unwrap_or};
ghost use Rattle.std.specs.List.{fold};
ghost use Rattle.markdown_options.specs.Messages.{IsOutOfMemory};
ghost use Rattle.definition_inline.specs.Spans.{span_of};
ghost use Rattle.inline_runs.specs.Paired.{IsPaired};
ghost use Rattle.inline_runs.specs.View.{pair_view, pairs_view, run_view, runs_view, span_view};
ghost use Rattle.engine_edits.specs.Edits.{edits_of};
ghost use Rattle.markdown_engine.specs.Context.{context};
ghost use Rattle.state_edits_attention.specs.Attention.{attention_edits, run_of_enter, place_later, names_of, run_edit};
ghost use Rattle.state_edits_attention.specs.Attention.{empty_search, run_edits, run_from, replace_run, tell_after};
ghost use Rattle.state_edits_attention.specs.Attention.{with_held_data, with_end_of, with_run, with_start_of};
ghost use Rattle.state_edits_attention.specs.Attention.{with_index, with_text_end, with_text_start};
ghost use Rattle.state_edits_attention.specs.Views.{search_view, run_events_view};

use engine_edits::EditMap;
use engine_text::bytes::{code_after, code_before};
use engine_text::char::classify_opt;
use inline_runs::{Pair, Pairing, Run, RunSpans, Span, bytes_by, pair_runs, run_between};
use markdown_engine::event::{Event, Kind, Name};
use markdown_engine::place::Point;
use markdown_engine::{Message, ParseState};
use markdown_options::Tables;
use state_edits_data::each::{enter_event, exit_event, is_event, later, place_at};
use std::alloc::{AllocError, Allocator};

/// A byte of a text, or 0 past its end.
fn byte_at(bytes: &[u8], index: usize) -> u8
    ensures { result ≡ unwrap_or (slice_get bytes.now index) 0 }
{
    match bytes.get(index) {
        None => 0,
        Some(byte) => *byte,
    }
}

/// The run from an index of a text up to another.
fn run_from<T: Tables, A: Allocator>(
    parse_state: &ParseState<'_, T, A>,
    from: usize,
    to: usize,
) -> Run
    ensures { run_view result
        ≡ run_from parse_state.now.options.now (T.punctuation_of parse_state.now.tables.now) parse_state.now.bytes.now from to }
{
    let before = classify_opt(code_before(parse_state.bytes, from), parse_state.tables);
    let after = classify_opt(code_after(parse_state.bytes, to), parse_state.tables);
    let marker = byte_at(parse_state.bytes, from);
    run_between(
        parse_state.options,
        marker,
        to.saturating_sub(from),
        before,
        after,
    )
}

/// The run that is entered at an index of a list of events.
fn run_of_enter<T: Tables, A: Allocator>(
    parse_state: &ParseState<'_, T, A>,
    events: &[Event],
    index: usize,
) -> Run
    ensures { run_view result ≡ run_of_enter (T.punctuation_of parse_state.now.tables.now) (context parse_state.now) events.now index }
{
    let from = place_at(events, index).index;
    let to = place_at(events, later(1, index)).index;
    run_from(parse_state, from, to)
}

/// The names of the events of a span.
#[derive(Clone, Copy)]
pub struct SpanNames {
    /// All of it.
    pub group: Name,
    /// The bytes that begin or end it.
    pub sequence: Name,
    /// What stands between these.
    pub text: Name,
}

/// The names of the events of a span.
fn names_of_span(span: Span) -> SpanNames
    ensures { result ≡ names_of (span_view span) }
{
    match span {
        Span::Emphasis => SpanNames {
            group: Name::Emphasis,
            sequence: Name::EmphasisSequence,
            text: Name::EmphasisText,
        },
        Span::Strong => SpanNames {
            group: Name::Strong,
            sequence: Name::StrongSequence,
            text: Name::StrongText,
        },
        Span::Strikethrough => SpanNames {
            group: Name::GfmStrikethrough,
            sequence: Name::GfmStrikethroughSequence,
            text: Name::GfmStrikethroughText,
        },
        Span::Mark => SpanNames {
            group: Name::Mark,
            sequence: Name::MarkSequence,
            text: Name::MarkText,
        },
    }
}

/// The names of the events of the span that a pair of runs of this byte stands for.
fn names_of(marker: u8, pair: &Pair) -> SpanNames
    ensures { result ≡ names_of (span_of marker (pair_view pair.now)) }
{
    names_of_span(pair.span(marker))
}

/// The place so many bytes later in a line, none of them a tab.
fn place_later(size: usize, point: Point) -> Point
    ensures { result ≡ place_later size point }
{
    Point {
        line: point.line,
        column: later(size, point.column),
        index: later(size, point.index),
        vs: point.vs,
    }
}

/// Events in place of a run, and where they end.
#[derive(Drop)]
pub struct Writing<A: Allocator> {
    events: Vec<Event, A>,
    point: Point,
}

impl<A: Allocator> Writing<A> {
    ghost use Rattle.std.specs.Prelude.{◌≡◌, OnOk, IfErr};

    /// The span of a pair of runs of this byte ends.
    fn end(&mut self, marker: u8, pair: &Pair) -> Result<(), Message>
        ensures written { OnOk result (run_events_view self.new ≡ with_end_of marker (run_events_view self.old) (pair_view pair.now)) }
        ensures memory { IfErr result IsOutOfMemory }
    {
        let names = names_of(marker, pair);
        let from = self.point;
        let to = place_later(bytes_by(pair.double), from);
        self.events.extend_from_slice(&[
            exit_event(names.text, from),
            enter_event(names.sequence, from),
            exit_event(names.sequence, to),
            exit_event(names.group, to),
        ])?;
        self.point = to;
        Ok(())
    }

    /// The span of a pair of runs of this byte begins.
    fn start(&mut self, marker: u8, pair: &Pair) -> Result<(), Message>
        ensures written { OnOk result (run_events_view self.new ≡ with_start_of marker (run_events_view self.old) (pair_view pair.now)) }
        ensures memory { IfErr result IsOutOfMemory }
    {
        let names = names_of(marker, pair);
        let from = self.point;
        let to = place_later(bytes_by(pair.double), from);
        self.events.extend_from_slice(&[
            enter_event(names.group, from),
            enter_event(names.sequence, from),
            exit_event(names.sequence, to),
            enter_event(names.text, to),
        ])?;
        self.point = to;
        Ok(())
    }

    /// The spans of pairs of runs of this byte end.
    fn end_all(&mut self, marker: u8, closed: &[Pair]) -> Result<(), Message>
        ensures written { OnOk result (run_events_view self.new ≡ fold (with_end_of marker) (run_events_view self.old) (pairs_view closed.now)) }
        ensures memory { IfErr result IsOutOfMemory }
    {
        for index in 0..closed.len() {
            self.end(marker, &closed[index])?;
        }
        Ok(())
    }

    /// The spans of pairs of runs of this byte begin.
    fn start_all(&mut self, marker: u8, opened: &[Pair]) -> Result<(), Message>
        ensures written { OnOk result (run_events_view self.new ≡ fold (with_start_of marker) (run_events_view self.old) (pairs_view opened.now)) }
        ensures memory { IfErr result IsOutOfMemory }
    {
        for index in 0..opened.len() {
            self.start(marker, &opened[index])?;
        }
        Ok(())
    }

    /// So many bytes are data.
    fn hold(&mut self, size: usize) -> Result<(), Message>
        ensures written { OnOk result (run_events_view self.new ≡ with_held_data size (run_events_view self.old)) }
        ensures memory { IfErr result IsOutOfMemory }
    {
        if size == 0 {
            return Ok(());
        }
        let from = self.point;
        let to = place_later(size, from);
        self.events.extend_from_slice(&[
            enter_event(Name::Data, from),
            exit_event(Name::Data, to),
        ])?;
        self.point = to;
        Ok(())
    }
}

/// The events in place of a run of this byte, which stands at a place.
fn replace_run<A: Allocator>(
    alloc: A,
    marker: u8,
    spans: RunSpans<'_>,
    point: Point,
) -> Result<Vec<Event, A>, Message>
    ensures events { IfOk result (λ all. all.items
        ≡ (replace_run marker (pairs_view spans.entry.closed.now) spans.entry.text (pairs_view spans.entry.opened.now) point).events) }
    ensures memory { IfErr result IsOutOfMemory }
{
    let mut writing = Writing {
        events: Vec::new(alloc),
        point,
    };
    writing.end_all(marker, spans.closed)?;
    writing.hold(spans.text)?;
    writing.start_all(marker, spans.opened)?;
    Ok(writing.events)
}

/// The index at a place of a list, or 0 past its end.
fn entry_at(entries: &[usize], place: usize) -> usize
    ensures { result ≡ unwrap_or (slice_get entries.now place) 0 }
{
    match entries.get(place) {
        None => 0,
        Some(entry) => *entry,
    }
}

/// Adds the edit of one of the runs of a container, which are entered at these indices.
fn add_run<A: Allocator + Clone>(
    edits: &mut EditMap<A>,
    alloc: &A,
    events: &[Event],
    entries: &[usize],
    runs: &[Run],
    pairing: &Pairing<A>,
    place: usize,
) -> Result<(), Message>
    requires paired { IsPaired pairing.now (runs_view runs.now) }
    requires place { place < length runs.now }
    ensures edits { OnOk result (edits_of edits.new ≡ run_edit events.now entries.now (runs_view runs.now) place (edits_of edits.old)) }
    ensures memory { IfErr result IsOutOfMemory }
{
    let entry = entry_at(entries, place);
    let point = place_at(events, entry);
    let all = replace_run(
        alloc.clone()?,
        runs[place].marker,
        pairing.spans(place),
        point,
    )?;
    edits.add(entry, 2, all)?;
    Ok(())
}

/// Adds the edits of the runs of a container, which are entered at these indices.
#[tactic(auto, using(crate::proofs::Steps::runs_start, crate::proofs::Steps::runs_more))]
fn add_runs<A: Allocator + Clone>(
    edits: &mut EditMap<A>,
    alloc: &A,
    events: &[Event],
    entries: &[usize],
    runs: &[Run],
    pairing: &mut Pairing<A>,
) -> Result<(), Message>
    ensures edits { OnOk result (edits_of edits.new
        ≡ run_edits events.now entries.now (runs_view runs.now) (length runs.now) (edits_of edits.old)) }
    ensures memory { IfErr result IsOutOfMemory }
{
    pair_runs(runs, pairing)?;
    for place in 0..runs.len() {
        add_run(edits, alloc, events, entries, runs, pairing, place)?;
    }
    Ok(())
}

/// What comes after so many of a list.
fn after<X>(all: &[X], count: usize) -> &[X]
    ensures { result.now ≡ drop count all.now }
{
    if all.len() <= count {
        return &[];
    }
    &all[count..]
}

/// The runs that are in no container whose end was found.
#[derive(Drop)]
pub struct Search<A: Allocator> {
    /// Where each is entered among the events.
    entries: Vec<usize, A>,
    runs: Vec<Run, A>,
    /// How many were found before each label's text that is open.
    starts: Vec<usize, A>,
    /// The edits of the containers whose ends were found.
    edits: EditMap<A>,
    pairing: Pairing<A>,
}

impl<A: Allocator + Clone> Search<A> {
    /// Nothing is found.
    fn new(alloc: &A) -> Result<Search<A>, Message>
        ensures sought { IfOk result (λ search. search_view search ≡ empty_search) }
        ensures memory { IfErr result IsOutOfMemory }
    {
        Ok(Search {
            entries: Vec::new(alloc.clone()?),
            runs: Vec::new(alloc.clone()?),
            starts: Vec::new(alloc.clone()?),
            edits: EditMap::new(alloc.clone()?),
            pairing: Pairing::new(alloc.clone()?)?,
        })
    }

    /// The runs after so many are those of a container.
    fn tell_after(&mut self, alloc: &A, events: &[Event], count: usize) -> Result<(), Message>
        ensures sought { OnOk result (search_view self.new ≡ tell_after events.now count (search_view self.old)) }
        ensures memory { IfErr result IsOutOfMemory }
    {
        add_runs(
            &mut self.edits,
            alloc,
            events,
            after(&self.entries, count),
            after(&self.runs, count),
            &mut self.pairing,
        )?;
        self.entries.truncate(count);
        self.runs.truncate(count);
        Ok(())
    }

    /// A run is found.
    fn add(&mut self, entry: usize, run: Run) -> Result<(), AllocError>
        ensures { OnOk result (search_view self.new ≡ with_run entry (run_view run) (search_view self.old)) }
    {
        self.entries.push(entry)?;
        self.runs.push(run)?;
        Ok(())
    }

    /// A label's text begins.
    fn start_text(&mut self) -> Result<(), AllocError>
        ensures { OnOk result (search_view self.new ≡ with_text_start (search_view self.old)) }
    {
        self.starts.push(self.runs.len())?;
        Ok(())
    }

    /// A label's text ends.
    fn end_text(&mut self, alloc: &A, events: &[Event]) -> Result<(), Message>
        ensures sought { OnOk result (search_view self.new ≡ with_text_end events.now (search_view self.old)) }
        ensures memory { IfErr result IsOutOfMemory }
    {
        let innermost = self.starts.len().saturating_sub(1);
        let start = entry_at(&self.starts, innermost);
        self.starts.truncate(innermost);
        self.tell_after(alloc, events, start)
    }

    /// Goes over an event.
    fn step<T: Tables>(
        &mut self,
        alloc: &A,
        parse_state: &ParseState<'_, T, A>,
        events: &[Event],
        index: usize,
    ) -> Result<(), Message>
        requires { index < length events.now }
        ensures sought { OnOk result (search_view self.new
            ≡ with_index (T.punctuation_of parse_state.now.tables.now) (context parse_state.now)
            events.now index (slice_get events.now index) (search_view self.old)) }
        ensures memory { IfErr result IsOutOfMemory }
    {
        let event = &events[index];
        if is_event(Kind::Enter, Name::AttentionSequence, event) {
            self.add(index, run_of_enter(parse_state, events, index))?;
            return Ok(());
        }
        if is_event(Kind::Enter, Name::LabelText, event) {
            self.start_text()?;
            return Ok(());
        }
        if is_event(Kind::Exit, Name::LabelText, event) {
            return self.end_text(alloc, events);
        }
        Ok(())
    }
}

/// The edits that put spans in place of the runs that go together, and data in place of the others.
#[tactic(auto, using(crate::proofs::Steps::sought_more, crate::proofs::Steps::sought_start))]
pub fn attention_edits<T: Tables, A: Allocator + Clone>(
    alloc: &A,
    parse_state: &ParseState<'_, T, A>,
    events: &[Event],
) -> Result<EditMap<A>, Message>
    ensures edits { IfOk result (λ edits. edits_of edits
        ≡ attention_edits (T.punctuation_of parse_state.now.tables.now) (context parse_state.now) events.now) }
    ensures memory { IfErr result IsOutOfMemory }
{
    let mut search = Search::new(alloc)?;
    for index in 0..events.len() {
        search.step(alloc, parse_state, events, index)?;
    }
    search.tell_after(alloc, events, 0)?;
    Ok(search.edits)
}
