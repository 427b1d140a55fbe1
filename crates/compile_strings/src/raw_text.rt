//! Code spans and math: text between two sequences (CommonMark 6.1).
//!
//!     CodeText ::= CodeTextSequence (CodeTextData | LineEnding)* CodeTextSequence
//!     MathText ::= MathTextSequence (MathTextData | LineEnding)* MathTextSequence
//!
//! A line ending is a space, and so is each column of a tab that a place cuts.
ghost use Rattle.std.specs.Prelude.{◌≡◌, ◌++◌, false, OnOk, string_bytes};
ghost use Rattle.std.specs.Option.{option_map};
ghost use Rattle.compile_strings.specs.Columns.{AreCounted};
ghost use Rattle.compile_strings.specs.RawTexts.{sequence_of, is_chunk, is_exit, begins, piece_by, whole_by, exit_spot, chunk_first, raw_part_first, raw_after};
ghost use Rattle.compile_written.specs.Strings.{valid};

use crate::columns::Columns;
use crate::texts::text_of;
use compile_written::child::text_first;
use engine_events::event::{Event, Kind, Name};
use event_grammar::Spot;
use event_grammar::spot::{bytes_between, spot_of};
use std::alloc::{AllocError, Allocator};
use text_pieces::push_columns;

/// The name of the sequences around raw text, if this is the name of raw text.
pub fn sequence_of(name: Name) -> Option<Name>
    ensures { result ≡ sequence_of name }
{
    if name == Name::CodeText {
        Some(Name::CodeTextSequence)
    } else if name == Name::MathText {
        Some(Name::MathTextSequence)
    } else {
        None
    }
}

/// The text between the sequences, if it is one piece of the bytes. The events are those after the
/// enter of the raw text.
pub fn whole_piece<'a>(bytes: &'a [u8], sequence: Name, events: &[Event]) -> Option<&'a [u8]>
    ensures { option_map (λ piece. piece.now) result ≡ whole_by bytes.now sequence events.now }
{
    match events {
        [before, end, enter, exit, after, ..] => {
            if begins(before, sequence)
                && is_exit(end.kind)
                && is_chunk(enter.name)
                && begins(after, sequence)
            {
                piece_between(bytes, enter, exit)
            } else {
                None
            }
        }
        _ => None,
    }
}

/// Whether an event enters something of this name.
pub fn begins(event: &Event, name: Name) -> bool
    ensures { result ≡ begins name event.now }
{
    !is_exit(event.kind) && event.name == name
}

/// Whether an event is the exit of another.
pub fn is_exit(kind: Kind) -> bool
    ensures { result ≡ is_exit kind }
{
    match kind {
        Kind::Enter => false,
        Kind::Exit => true,
    }
}

/// The bytes from an enter to the exit after it, if neither is in a tab.
fn piece_between<'a>(bytes: &'a [u8], enter: &Event, exit: &Event) -> Option<&'a [u8]>
    ensures { option_map (λ piece. piece.now) result ≡ piece_by bytes.now enter.now exit.now }
{
    let from = spot_of(enter);
    let to = spot_of(exit);
    if !is_exit(enter.kind) && is_exit(exit.kind) && from.vs == 0 && to.vs == 0 {
        Some(bytes_between(bytes, from, to))
    } else {
        None
    }
}

fn is_chunk(name: Name) -> bool
    ensures { result ≡ is_chunk name }
{
    name == Name::CodeTextData || name == Name::MathTextData
}

/// Where a walk over the events in raw text is.
#[derive(Clone, Copy)]
pub struct RawPlace {
    /// Whether the first sequence was entered.
    begun: bool,
    /// How many events are open.
    depth: usize,
}

impl RawPlace {
    ghost use Rattle.std.specs.Prelude.{◌≡◌, ◌<◌, ◌≤◌, ◌+◌, ◌^◌, ℕ, Bool, List, IfSome};
    ghost use Rattle.compile_strings.specs.RawTexts.{is_raw_part, past_sequence, raw_next, raw_walked};

    /// Whether an event is a part of the text.
    fn is_part(self, kind: Kind, is_sequence: bool) -> bool
        ensures { result ≡ is_raw_part kind is_sequence self.begun self.depth }
    {
        !is_exit(kind) && !is_sequence && self.begun && self.depth == 0
    }

    /// The place after an event, or none if the text ends.
    fn past(self, kind: Kind, is_sequence: bool) -> Option<RawPlace>
        requires { self.depth + 1 < 2 ^ 64 }
        ensures next { (here : List ℕ) (others : Bool → ℕ → List ℕ) → raw_next kind is_sequence self.begun self.depth here others
            ≡ raw_walked (is_raw_part kind is_sequence self.begun self.depth) result here others }
        ensures depth { IfSome result (λ next. next.depth ≤ self.depth + 1) }
    {
        match kind {
            Kind::Enter => {
                if self.depth == 0 && is_sequence {
                    return self.past_sequence();
                }
                Some(RawPlace {
                    begun: self.begun,
                    depth: self.depth + 1,
                })
            }
            Kind::Exit => {
                if self.depth == 0 {
                    return None;
                }
                Some(RawPlace {
                    begun: self.begun,
                    depth: self.depth - 1,
                })
            }
        }
    }

    /// The place after a sequence is entered, or none if it is the second.
    fn past_sequence(self) -> Option<RawPlace>
        ensures { result ≡ past_sequence self.begun }
    {
        if self.begun {
            return None;
        }
        Some(RawPlace {
            begun: true,
            depth: 1,
        })
    }
}

/// Appends the text between the sequences. The events are those after the enter of the raw text.
pub(crate) fn push_raw_text<A: Allocator>(
    out: &mut String<A>,
    columns: &mut Columns,
    bytes: &[u8],
    sequence: Name,
    events: &[Event],
) -> Result<(), AllocError>
    requires { AreCounted bytes.now columns.old }
    ensures text { OnOk result (string_bytes out.new ≡ string_bytes out.old ++ raw_after bytes.now sequence false 0 events.now) }
    ensures counted { AreCounted bytes.now columns.new }
{
    let mut place = RawPlace {
        begun: false,
        depth: 0,
    };
    for (index, event) in events.iter().enumerate() {
        let is_sequence = event.name == sequence;
        let Some(next) = place.past(event.kind, is_sequence) else {
            return Ok(());
        };
        if place.is_part(event.kind, is_sequence) {
            push_raw_part(out, columns, bytes, event.name, &events[index..])?;
        }
        place = next;
    }
    Ok(())
}

/// Appends the part of raw text that the events begin with.
fn push_raw_part<A: Allocator>(
    out: &mut String<A>,
    columns: &mut Columns,
    bytes: &[u8],
    name: Name,
    events: &[Event],
) -> Result<(), AllocError>
    requires { AreCounted bytes.now columns.old }
    ensures text { OnOk result (string_bytes out.new ≡ string_bytes out.old ++ raw_part_first bytes.now name events.now) }
    ensures counted { AreCounted bytes.now columns.new }
{
    if name == Name::LineEnding {
        out.push_str(" ")
    } else if is_chunk(name) {
        push_chunk(out, columns, bytes, events)
    } else {
        Ok(())
    }
}

/// Appends the chunk that the events begin with.
fn push_chunk<A: Allocator>(
    out: &mut String<A>,
    columns: &mut Columns,
    bytes: &[u8],
    events: &[Event],
) -> Result<(), AllocError>
    requires { AreCounted bytes.now columns.old }
    ensures text { OnOk result (string_bytes out.new ≡ string_bytes out.old ++ chunk_first bytes.now events.now) }
    ensures counted { AreCounted bytes.now columns.new }
{
    let [enter, inside @ ..] = events else {
        return Ok(());
    };
    let from = spot_of(enter);
    let to = exit_spot(inside);
    if from.vs != 0 && from.index == to.index {
        return push_columns(out, to.vs.saturating_sub(from.vs));
    }
    push_columns(out, columns.after(bytes, from))?;
    push_bytes(out, text_first(bytes, events))?;
    push_columns(out, to.vs.saturating_sub(1))
}

/// The place of the exit of the event that these events are in, and more events may follow. Without
/// an exit it is the text's start.
fn exit_spot(events: &[Event]) -> Spot
    ensures { result ≡ exit_spot 0 events.now }
{
    let mut depth: usize = 0;
    for event in events {
        match event.kind {
            Kind::Enter => depth += 1,
            Kind::Exit => {
                if depth == 0 {
                    return spot_of(event);
                }
                depth -= 1;
            }
        }
    }
    Spot { index: 0, vs: 0 }
}

/// Appends bytes, if they are UTF-8.
fn push_bytes<A: Allocator>(out: &mut String<A>, bytes: &[u8]) -> Result<(), AllocError>
    ensures { OnOk result (string_bytes out.new ≡ string_bytes out.old ++ valid bytes.now) }
{
    out.push_str(text_of(bytes))
}
