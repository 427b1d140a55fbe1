//! Runs within code and math that are of another size than the first are text (CommonMark 6.1).
ghost use Rattle.std.specs.Prelude.{◌≡◌, ◌<◌, ◌^◌, OnOk, IfOk, IfErr, length};
ghost use Rattle.markdown_options.specs.Messages.{IsOutOfMemory};
ghost use Rattle.engine_edits.specs.Edits.{edits_of};
ghost use Rattle.state_edits_data.specs.RawText.{inner_edit, is_inner, span_edit, span_edits};

use crate::each::{is_bound_at, place_at, push_around};
use engine_edits::EditMap;
use markdown_engine::Message;
use markdown_engine::event::{Event, Kind, Name};
use std::alloc::Allocator;

/// A sort of spans: its name, and those of its runs and of its text.
#[derive(Clone, Copy)]
struct Span {
    name: Name,
    sequence: Name,
    content: Name,
}

const CODE: Span = Span {
    name: Name::CodeText,
    sequence: Name::CodeTextSequence,
    content: Name::CodeTextData,
};

const MATH: Span = Span {
    name: Name::MathText,
    sequence: Name::MathTextSequence,
    content: Name::MathTextData,
};

/// Whether a run stands at an index that is neither the first nor the last of its span.
fn is_inner(events: &[Event], span: Span, index: usize) -> bool
    requires { index < 2 ^ 63 }
    ensures { result ≡ is_inner events.now span.name span.sequence index }
{
    if !is_bound_at(Kind::Enter, span.sequence, events, index) {
        return false;
    }
    if !is_bound_at(Kind::Exit, span.sequence, events, index + 1) {
        return false;
    }
    if is_bound_at(Kind::Enter, span.name, events, index.saturating_sub(1)) {
        return false;
    }
    !is_bound_at(Kind::Exit, span.name, events, index + 2)
}

/// Adds the edit of an index, for a sort of spans.
fn add_inner<A: Allocator + Clone>(
    edits: &mut EditMap<A>,
    alloc: &A,
    events: &[Event],
    span: Span,
    index: usize,
) -> Result<(), Message>
    requires { index < 2 ^ 63 }
    ensures edits { OnOk result (edits_of edits.new ≡ inner_edit events.now span.name span.sequence span.content index (edits_of edits.old)) }
    ensures memory { IfErr result IsOutOfMemory }
{
    if !is_inner(events, span, index) {
        return Ok(());
    }
    let end = place_at(events, index + 1);
    let mut text = Vec::new(alloc.clone()?);
    push_around(&mut text, span.content, place_at(events, index), end)?;
    edits.add(index, 2, text)?;
    Ok(())
}

/// Adds the edit of an index.
fn add_span<A: Allocator + Clone>(
    edits: &mut EditMap<A>,
    alloc: &A,
    events: &[Event],
    index: usize,
) -> Result<(), Message>
    requires { index < 2 ^ 63 }
    ensures edits { OnOk result (edits_of edits.new ≡ span_edit events.now index (edits_of edits.old)) }
    ensures memory { IfErr result IsOutOfMemory }
{
    add_inner(edits, alloc, events, CODE, index)?;
    add_inner(edits, alloc, events, MATH, index)
}

/// The edits that name the runs within spans as their text.
#[tactic(auto, using(crate::proofs::Steps::spans_more, crate::proofs::Steps::spans_start))]
pub fn span_edits<A: Allocator + Clone>(alloc: &A, events: &[Event]) -> Result<EditMap<A>, Message>
    ensures edits { IfOk result (λ edits. edits_of edits ≡ span_edits events.now (length events.now)) }
    ensures memory { IfErr result IsOutOfMemory }
{
    let mut edits = EditMap::new(alloc.clone()?);
    for index in 0..events.len() {
        add_span(&mut edits, alloc, events, index)?;
    }
    Ok(edits)
}
