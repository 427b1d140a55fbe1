//! Memory that runs out.
use crate::compare::assert_same;
use crate::machines::{QUOTED, chunks_in_quote};
use linked_list_allocator::LocalHeap;
use markdown_engine::event::Name as EventName;
use markdown_engine::place::START;
use markdown_engine::state::{Inline, Name, State};
use markdown_engine::tokenizer::Tokenizer;
use markdown_engine::{Message, ParseOptions, ParseState};
use std::alloc::Global;
use tests_engine::brackets::{Brackets, read_whole};
use tests_engine::letters::{Letters, read_letters};
use tests_engine::tables::Ascii;

/// The state that letters begin with.
const FIRST: State = State::Next(Name::Inline(Inline::DataInside));

/// How many events a text of brackets has, read in a heap of 8,192 bytes.
fn count_in_heap(alloc: Global, bytes: &[u8]) -> Result<usize, Message> {
    let heap = LocalHeap::new(alloc, 8192)?;
    let options = ParseOptions::default();
    let text = ParseState::new(&heap, bytes, &options, &Ascii)?;
    Ok(read_whole(&heap, &text, Brackets)?.len())
}

/// The same for a text of 1,000 brackets.
fn count_of_deep_text(alloc: Global) -> Result<usize, Message> {
    let deep = "(".repeat(alloc, 1000)?;
    count_in_heap(alloc, deep.as_bytes())
}

#[test]
fn brackets_in_a_small_heap(rt: HostRuntime) {
    assert_same(&rt, "room", &count_in_heap(rt.alloc(), b"(a(b)c)"), &Ok(4));
    let refused = Err(Message::out_of_memory());
    assert_same(&rt, "no room", &count_of_deep_text(rt.alloc()), &refused);
}

/// What a tokenizer answers that is refused memory as it reads, and whether it has failed then.
fn refused_as_it_reads(alloc: Global) -> Result<(State, bool), Message> {
    let heap = LocalHeap::new(alloc, 4096)?;
    let options = ParseOptions::default();
    let long = "a".repeat(alloc, 1000)?;
    let text = ParseState::new(&heap, long.as_bytes(), &options, &Ascii)?;
    let mut tokenizer = Tokenizer::new(&heap, START, &text, Letters)?;
    let pushed = tokenizer.push((0, 0), (1000, 0), FIRST);
    Ok((pushed, tokenizer.failed))
}

/// What a tokenizer answers after an event was refused that a caller adds: whether it has failed, to
/// a range, and whether it answers an error at the end. None where the event was added.
fn refused_from_outside(alloc: Global) -> Result<Option<(bool, State, bool)>, Message> {
    let heap = LocalHeap::new(alloc, 64)?;
    let options = ParseOptions::default();
    let text = ParseState::new(&heap, b"a", &options, &Ascii)?;
    let mut tokenizer = Tokenizer::new(&heap, START, &text, Letters)?;
    if tokenizer.enter(EventName::Data).is_ok() {
        return Ok(None);
    }
    let failed = tokenizer.failed;
    let pushed = tokenizer.push((0, 0), (1, 0), FIRST);
    let is_refused = tokenizer.flush(FIRST, true).is_err();
    Ok(Some((failed, pushed, is_refused)))
}

#[test]
fn a_tokenizer_that_was_refused_memory_has_failed(rt: HostRuntime) {
    let refused = State::out_of_memory();
    let reading = refused_as_it_reads(rt.alloc());
    assert_same(&rt, "as it reads", &reading, &Ok((refused, true)));
    let outside = refused_from_outside(rt.alloc());
    assert_same(
        &rt,
        "from outside",
        &outside,
        &Ok(Some((true, refused, true))),
    );
}

/// Whether a heap of a size has no room for the letters of chunks, and the chunks stay.
fn are_kept(alloc: Global, size: usize) -> Result<bool, Message> {
    let heap = LocalHeap::new(alloc, size)?;
    let options = ParseOptions::default();
    let text = ParseState::new(&heap, QUOTED, &options, &Ascii)?;
    let chunks = chunks_in_quote();
    let mut events = chunks.to_vec(&heap)?;
    let is_refused = read_letters(&mut events, &text, Letters, None).is_err();
    Ok(is_refused && events.as_slice() == chunks.as_slice())
}

#[test]
fn refused_chains_leave_the_events(rt: HostRuntime) {
    for size in [1024, 1500, 2000] {
        assert_same(&rt, "events", &are_kept(rt.alloc(), size), &Ok(true));
    }
}
