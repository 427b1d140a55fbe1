use crate::compare::{assert_events, assert_same};
use markdown_engine::attempt::Attempt;
use markdown_engine::event::{Content, Event, Kind, Link, Name as EventName};
use markdown_engine::place::{Point, START};
use markdown_engine::state::{Inline, Name, State};
use markdown_engine::tokenizer::Tokenizer;
use markdown_engine::{Message, ParseOptions, ParseState, resolve};
use std::alloc::Global;
use std::process::Abort;
use tests_engine::brackets::{Brackets, read_both_ways, read_groups, read_whole};
use tests_engine::count::Count;
use tests_engine::letters::{Letters, read_letters};
use tests_engine::tables::Ascii;

const DATA: State = State::Next(Name::Inline(Inline::DataInside));

const COUNT: Count = Count { calls: 0 };

/// A text that is read at once: how often the machine is called, whether nothing is left, how often
/// it is called by the end, and the column there.
fn count_columns(alloc: Global, bytes: &[u8]) -> Result<(usize, bool, usize, usize), Message> {
    let options = ParseOptions::default();
    let text = ParseState::new(alloc, bytes, &options, &Ascii)?;
    let mut tokenizer = Tokenizer::new(alloc, START, &text, COUNT)?;
    let state = tokenizer.push((0, 0), (bytes.len(), 0), DATA);
    let calls = tokenizer.machine.calls;
    let done = tokenizer.flush(state, true)?.done;
    Ok((calls, done, tokenizer.machine.calls, tokenizer.point.column))
}

/// A line that is read after its skip: the last state, how often the machine is called, the column
/// at the end, and where the line starts.
fn count_after_skip(alloc: Global) -> Result<(State, usize, usize, usize), Message> {
    let options = ParseOptions::default();
    let text = ParseState::new(alloc, b"a\n> b", &options, &Ascii)?;
    let mut tokenizer = Tokenizer::new(alloc, START, &text, COUNT)?;
    let second = Point {
        line: 2,
        column: 3,
        index: 4,
        vs: 0,
    };
    let state = tokenizer.read_in_lines(2, second, DATA);
    let calls = tokenizer.machine.calls;
    Ok((
        state,
        calls,
        tokenizer.point.column,
        tokenizer.line_start.index,
    ))
}

/// How often the machine is called by two ranges with a gap between them.
fn count_beside_gap(alloc: Global) -> Result<usize, Message> {
    let options = ParseOptions::default();
    let text = ParseState::new(alloc, b"ab\tcd", &options, &Ascii)?;
    let mut tokenizer = Tokenizer::new(alloc, START, &text, COUNT)?;
    let first = tokenizer.push((0, 0), (1, 0), DATA);
    let state = tokenizer.push((2, 1), (5, 0), first);
    tokenizer.flush(state, false)?;
    Ok(tokenizer.machine.calls)
}

#[test]
fn bytes_that_are_read(rt: HostRuntime) {
    let tab = count_columns(rt.alloc(), b"a\tb");
    assert_same(
        &rt,
        "a tab is read column by column",
        &tab,
        &Ok((5, false, 5, 6)),
    );
    let mark = count_columns(rt.alloc(), b"\xEF\xBB\xBF\ta");
    assert_same(
        &rt,
        "a tab after a byte order mark has four columns",
        &mark,
        &Ok((8, false, 8, 6)),
    );
    let line = count_after_skip(rt.alloc());
    assert_same(
        &rt,
        "a line is read after its skip",
        &line,
        &Ok((State::Ok, 3, 4, 2)),
    );
    let gap = count_beside_gap(rt.alloc());
    assert_same(&rt, "a gap in a line isn't read", &gap, &Ok(4));
}

/// Three resolvers, and two of them again; and whether each is to run first.
const REGISTERED: &[(resolve::Name, bool)] = &[
    (resolve::Name::Text, false),
    (resolve::Name::Data, false),
    (resolve::Name::Label, true),
    (resolve::Name::Text, false),
    (resolve::Name::Data, true),
];

/// Registers them.
fn register(tokenizer: &mut Tokenizer<'_, Count, Ascii, Global>) -> Result<(), Message> {
    for (name, is_first) in REGISTERED {
        if *is_first {
            tokenizer.register_resolver_before(*name)?;
        } else {
            tokenizer.register_resolver(*name)?;
        }
    }
    Ok(())
}

/// A link with no neighbours.
const LINK: Link = Link {
    previous: None,
    next: None,
    content: Content::Text,
};

/// Whether events enter a chunk with the link and leave it.
fn are_one_chunk(events: &[Event]) -> bool {
    events.len() == 2 && events[0].link() == Some(LINK) && events[1].kind == Kind::Exit
}

/// Whether just one attempt waits, which looks ahead.
fn is_one_check(attempts: &[Attempt]) -> bool {
    attempts.len() == 1 && attempts[0].check && attempts[0].nok == State::Nok
}

/// What calls of a tokenizer leave: whether its events are one chunk, whether its attempts are one
/// check, and whether its resolvers are registered once.
fn call_each(alloc: Global) -> Result<(bool, bool, bool), Message> {
    let options = ParseOptions::default();
    let text = ParseState::new(alloc, b"a", &options, &Ascii)?;
    let mut tokenizer = Tokenizer::new(alloc, START, &text, COUNT)?;
    tokenizer.enter_link(EventName::Data, LINK)?;
    tokenizer.exit(EventName::Data)?;
    tokenizer.check(State::Ok, State::Nok)?;
    register(&mut tokenizer)?;
    let names = [
        resolve::Name::Label,
        resolve::Name::Text,
        resolve::Name::Data,
    ];
    let are_registered = tokenizer.resolvers.as_slice() == names.as_slice();
    Ok((
        are_one_chunk(&tokenizer.events),
        is_one_check(&tokenizer.attempts),
        are_registered,
    ))
}

#[test]
fn calls_of_a_tokenizer(rt: HostRuntime) {
    let left = call_each(rt.alloc());
    assert_same(
        &rt,
        "a chunk, a check and resolvers",
        &left,
        &Ok((true, true, true)),
    );
}

/// An event on a line of a text, whose columns are bytes.
fn at(kind: Kind, name: EventName, line: usize, column: usize, index: usize) -> Event {
    let point = Point {
        line,
        column,
        index,
        vs: 0,
    };
    Event::new(kind, name, point, None)
}

/// The event with a link to its neighbours.
fn with_link(event: Event, previous: Option<usize>, next: Option<usize>) -> Event {
    let mut event = event;
    event.set_link(Some(Link {
        previous,
        next,
        content: Content::Text,
    }));
    event
}

pub const QUOTED: &[u8] = b"> ab\n> cd";

/// The events of `> ab` and `> cd`: a chunk, the mark of a container, and another chunk.
pub fn chunks_in_quote() -> [Event; 6] {
    [
        with_link(at(Kind::Enter, EventName::Data, 1, 3, 2), None, Some(4)),
        at(Kind::Exit, EventName::Data, 2, 1, 5),
        at(Kind::Enter, EventName::BlockQuotePrefix, 2, 1, 5),
        at(Kind::Exit, EventName::BlockQuotePrefix, 2, 3, 7),
        with_link(at(Kind::Enter, EventName::Data, 2, 3, 7), Some(0), None),
        at(Kind::Exit, EventName::Data, 2, 5, 9),
    ]
}

/// The events of the quote with the letters of chunks in their place, and whether nothing is left to
/// be read; none where the chunks can't be read.
fn letters(
    alloc: Global,
    chunks: &[Event],
    filter: Option<&Content>,
) -> Result<Option<(Vec<Event>, bool)>, Message> {
    let options = ParseOptions::default();
    let text = ParseState::new(alloc, QUOTED, &options, &Ascii)?;
    let mut events = chunks.to_vec(alloc)?;
    match read_letters(&mut events, &text, Letters, filter)? {
        Some(found) => Ok(Some((events, found.done))),
        None => Ok(None),
    }
}

/// Stops where the letters of the chunks in the quote aren't these events, or where something is left
/// to be read that shouldn't be.
fn assert_letters(
    rt: &(impl AllocGlobal + Abort),
    what: &str,
    filter: Option<&Content>,
    done: bool,
    wanted: &str,
) {
    match letters(rt.alloc(), &chunks_in_quote(), filter) {
        Ok(Some((events, found))) => {
            assert!(rt; found == done, "{what}");
            assert_events(rt, what, Ok(events), wanted);
        }
        _ => panic!(rt; "{what}"),
    }
}

#[test]
fn letters_of_a_chain(rt: HostRuntime) {
    let wanted = "+Data2 -Data3 +Data3 -Data4 +Data4 -Data5 +BlockQuotePrefix5 -BlockQuotePrefix7 \
         +Data7 -Data8 +Data8 -Data9 ";
    assert_letters(&rt, "a chain is read without marks", None, false, wanted);
    let wanted = "+Data2 -Data5 +BlockQuotePrefix5 -BlockQuotePrefix7 +Data7 -Data9 ";
    let string = Some(&Content::String);
    assert_letters(&rt, "chains of other contents stay", string, true, wanted);
    let mut chunks = chunks_in_quote();
    chunks[4] = with_link(chunks[4], Some(0), Some(0));
    let is_refused = match letters(rt.alloc(), &chunks, None) {
        Ok(found) => found.is_none(),
        Err(_) => false,
    };
    assert!(rt; is_refused, "chunks that lie in one another are refused");
}

/// The groups of a text of brackets.
fn groups(alloc: Global, bytes: &[u8]) -> Result<Vec<Event>, Message> {
    let options = ParseOptions::default();
    let text = ParseState::new(alloc, bytes, &options, &Ascii)?;
    read_whole(alloc, &text, Brackets)
}

/// Whether a text with four events has the same ones read at once and in ranges.
fn are_same_both_ways(alloc: Global) -> Result<bool, Message> {
    let options = ParseOptions::default();
    let text = ParseState::new(alloc, b"(a\t(b)\r\n)(\t", &options, &Ascii)?;
    let cuts = [(2, 0), (2, 1), (2, 2), (4, 0), (7, 0), (7, 0), (9, 0)];
    let (whole, parts) = read_both_ways(alloc, &text, Brackets, &cuts)?;
    Ok(whole.len() == 4 && whole == parts)
}

#[test]
fn groups_of_brackets(rt: HostRuntime) {
    let nested = "+Label0 +Label2 -Label5 -Label7 +Label8 -Label10 ";
    assert_events(
        &rt,
        "groups in groups",
        groups(rt.alloc(), b"(a(b)c)d()"),
        nested,
    );
    assert_events(&rt, "no end", groups(rt.alloc(), b"(a(b)c"), "");
    let first = "+Label0 -Label2 ";
    assert_events(
        &rt,
        "one with an end",
        groups(rt.alloc(), b"()(a(b)c"),
        first,
    );
    assert_events(&rt, "an end alone", groups(rt.alloc(), b")()"), "");
    assert_same(&rt, "both ways", &are_same_both_ways(rt.alloc()), &Ok(true));
}

/// The events of `> (a` and `> b)(`, with the lines' texts as chunks of one chain.
fn group_in_quote() -> [Event; 6] {
    [
        with_link(at(Kind::Enter, EventName::Data, 1, 3, 2), None, Some(4)),
        at(Kind::Exit, EventName::Data, 2, 1, 5),
        at(Kind::Enter, EventName::BlockQuotePrefix, 2, 1, 5),
        at(Kind::Exit, EventName::BlockQuotePrefix, 2, 3, 7),
        with_link(at(Kind::Enter, EventName::Data, 2, 3, 7), Some(0), None),
        at(Kind::Exit, EventName::Data, 2, 6, 10),
    ]
}

/// The events of that quote with its groups in place of the chunks, unless something is wrong.
fn quoted_groups(alloc: Global) -> Result<Option<Vec<Event>>, Message> {
    let options = ParseOptions::default();
    let text = ParseState::new(alloc, b"> (a\n> b)(", &options, &Ascii)?;
    let mut events = group_in_quote().to_vec(alloc)?;
    match read_groups(&mut events, &text, Brackets, None)? {
        Some(found) if !found.done => Ok(Some(events)),
        _ => Ok(None),
    }
}

#[test]
fn a_group_spans_the_lines_of_a_quote(rt: HostRuntime) {
    let expected = [
        at(Kind::Enter, EventName::Label, 1, 3, 2),
        at(Kind::Enter, EventName::BlockQuotePrefix, 2, 1, 5),
        at(Kind::Exit, EventName::BlockQuotePrefix, 2, 3, 7),
        at(Kind::Exit, EventName::Label, 2, 5, 9),
    ];
    let is_right = match quoted_groups(rt.alloc()) {
        Ok(Some(events)) => events.as_slice() == expected.as_slice(),
        _ => false,
    };
    assert!(rt; is_right, "a group spans the lines of a quote");
}
