//! Whether the text of a label is defined.
ghost use Rattle.std.specs.Prelude.{◌≡◌, ◌<◌, ◌-◌, ◌++◌, ◌^◌, OnOk, IfOk, IfErr, Some, map, string_bytes};
ghost use Rattle.std.specs.List.{list_any};
ghost use Rattle.std.specs.Str.{bytes_eq};
ghost use Rattle.markdown_options.specs.Messages.{IsOutOfMemory};
ghost use Rattle.markdown_engine.specs.Machine.{config, bytes_of, definitions_of, footnotes_of};
ghost use Rattle.state_label_ends.specs.LabelEnd.{is_reference_defined, is_start_defined};
ghost use Rattle.state_label_ends.specs.Definitions.{ends_line, is_among, is_defined, label_part, label_text, part_between, text_start};

use inline_labels::normalize_label;
use inline_links::label::is_label;
use markdown_engine::Message;
use markdown_engine::event::{Event, Kind, Name};
use markdown_engine::label::{LabelKind, LabelStart};
use markdown_engine::tokenizer::Tokenizer;
use std::alloc::{AllocError, Allocator};

/// Whether an event is the end of a line ending.
fn ends_line(event: &Event) -> bool
    ensures { result ≡ ends_line event.now }
{
    event.kind == Kind::Exit && event.name == Name::LineEnding
}

/// Adds the bytes from an event to the next.
fn push_part<A: Allocator>(
    text: &mut Vec<u8, A>,
    bytes: &[u8],
    events: &[Event],
    index: usize,
) -> Result<(), AllocError>
    requires { index < 2 ^ 64 - 1 }
    ensures { OnOk result (text.new.items ≡ text.old.items ++ label_part bytes.now events.now index) }
{
    let Some(event) = events.get(index) else {
        return Ok(());
    };
    let Some(after) = events.get(index + 1) else {
        return Ok(());
    };
    push_between(text, bytes, event, after)
}

/// Adds the bytes from an event to another, but for what a line begins with that isn't read.
fn push_between<A: Allocator>(
    text: &mut Vec<u8, A>,
    bytes: &[u8],
    event: &Event,
    after: &Event,
) -> Result<(), AllocError>
    ensures { OnOk result (text.new.items ≡ text.old.items ++ part_between bytes.now (Some event.now) (Some after.now)) }
{
    let (start, end) = (event.point().index, after.point().index);
    if ends_line(event) || end < start || bytes.len() < end {
        return Ok(());
    }
    text.extend_from_slice(&bytes[start..end])
}

/// The bytes of a text over which events stand, from one to another.
#[tactic(auto, using(crate::proofs::LabelText::label_text_more, crate::proofs::LabelText::label_text_start))]
fn label_text<A: Allocator>(
    alloc: A,
    bytes: &[u8],
    events: &[Event],
    from: usize,
    to: usize,
) -> Result<Vec<u8, A>, AllocError>
    ensures { IfOk result (λ text. text.items ≡ label_text bytes.now events.now from to) }
{
    let mut text = Vec::new(alloc);
    if to <= from {
        return Ok(text);
    }
    for index in from..to {
        push_part(&mut text, bytes, events, index)?;
    }
    Ok(text)
}

/// Whether two labels are the same.
fn is_same(other: &str, label: &str) -> bool
    ensures { result ≡ bytes_eq label.now other.now }
{
    label.as_bytes() == other.as_bytes()
}

/// Whether a label is one of these.
fn contains<A: Allocator>(labels: &[String<A>], label: &str) -> bool
    ensures { result ≡ list_any (λ other. bytes_eq label.now (string_bytes other)) labels.now }
{
    labels.iter().any(|other| is_same(other, label))
}

/// Whether a text is a label, and one of these (CommonMark 6.3).
#[tactic(auto, using(crate::proofs::LabelText::any_mapped), unfolding(crate::specs::Definitions::is_among))]
fn is_among<A: Allocator>(labels: &Vec<String<A>, A>, text: &[u8]) -> Result<bool, AllocError>
    ensures { IfOk result (λ known. known ≡ is_among (map string_bytes labels.now.items) text.now) }
{
    if !is_label(text) {
        return Ok(false);
    }
    let mut normal = String::new(labels.allocator());
    normalize_label(&mut normal, text)?;
    Ok(contains(labels, &normal))
}

/// From which event on the text of a label goes: a footnote's start that is no call belongs to it,
/// but for the bracket.
fn text_start(start: &LabelStart) -> usize
    ensures { result ≡ text_start start.now }
{
    if start.kind == LabelKind::GfmUndefinedFootnote {
        start.start.0.saturating_add(3)
    } else {
        start.start.1
    }
}

/// Whether the text after the last label start is a label, and one of these.
#[tactic(auto, unfolding(crate::specs::Definitions::is_defined))]
fn is_defined<M, T, A: Allocator>(
    tokenizer: &Tokenizer<'_, M, T, A>,
    labels: &Vec<String<A>, A>,
) -> Result<bool, Message>
    ensures known { IfOk result (λ known. known ≡ is_start_defined (bytes_of tokenizer.now) (map string_bytes labels.now.items) (config tokenizer.now)) }
    ensures memory { IfErr result IsOutOfMemory }
{
    let Some(start) = tokenizer.tokenize_state.label_starts.last() else {
        return Ok(false);
    };
    let text = label_text(
        labels.allocator(),
        tokenizer.parse_state.bytes,
        &tokenizer.events,
        text_start(start),
        tokenizer.tokenize_state.end,
    )?;
    Ok(is_among(labels, &text)?)
}

/// Whether the text after the last label start is a label, and defined.
pub(crate) fn is_link_defined<M, T, A: Allocator>(
    tokenizer: &Tokenizer<'_, M, T, A>,
) -> Result<bool, Message>
    ensures known { IfOk result (λ known. known ≡ is_start_defined (bytes_of tokenizer.now) (definitions_of tokenizer.now) (config tokenizer.now)) }
    ensures memory { IfErr result IsOutOfMemory }
{
    is_defined(tokenizer, &tokenizer.parse_state.definitions)
}

/// Whether the text after the last label start is a label, and that of a footnote.
pub(crate) fn is_call_defined<M, T, A: Allocator>(
    tokenizer: &Tokenizer<'_, M, T, A>,
) -> Result<bool, Message>
    ensures known { IfOk result (λ known. known ≡ is_start_defined (bytes_of tokenizer.now) (footnotes_of tokenizer.now) (config tokenizer.now)) }
    ensures memory { IfErr result IsOutOfMemory }
{
    is_defined(tokenizer, &tokenizer.parse_state.gfm_footnote_definitions)
}

/// Whether the label of a full reference, which was just read, is defined.
pub(crate) fn is_reference_defined<M, T, A: Allocator>(
    tokenizer: &Tokenizer<'_, M, T, A>,
) -> Result<bool, Message>
    ensures known { IfOk result (λ known. known ≡ is_reference_defined (bytes_of tokenizer.now) (definitions_of tokenizer.now) (config tokenizer.now)) }
    ensures memory { IfErr result IsOutOfMemory }
{
    let labels = &tokenizer.parse_state.definitions;
    let text = label_text(
        labels.allocator(),
        tokenizer.parse_state.bytes,
        &tokenizer.events,
        tokenizer.tokenize_state.end.saturating_add(7),
        tokenizer.events.len().saturating_sub(4),
    )?;
    Ok(is_among(labels, &text)?)
}
