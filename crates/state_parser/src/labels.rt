//! The labels of definitions, as they are compared (CommonMark 6.3).
ghost use Rattle.std.specs.Prelude.{◌≡◌, ◌++◌, ◌∷◌, [], IfOk, OnOk, map, string_bytes};
ghost use Rattle.state_parser.specs.Labels.{between, defined_labels, is_part, label_bytes, label_of, part_bytes};

use crate::events::is_bound;
use inline_labels::normalize_label;
use markdown_engine::event::{Event, Kind, Name};
use std::alloc::{AllocError, Allocator};

/// Whether an event has bytes of a label. What containers put before its lines isn't its.
fn is_part(event: &Event) -> bool
    ensures { result ≡ is_part event.now }
{
    event.kind == Kind::Enter
        && matches!(event.name, Name::Data | Name::LineEnding | Name::SpaceOrTab)
}

/// The bytes between two places, if they are in the text.
fn between(bytes: &[u8], from: usize, to: usize) -> &[u8]
    ensures { result.now ≡ between bytes.now from to }
{
    if from <= to && to <= bytes.len() {
        return &bytes[from..to];
    }
    &[]
}

/// Adds the bytes of an event up to the next, if they are of a label.
fn push_part<A: Allocator>(
    text: &mut Vec<u8, A>,
    bytes: &[u8],
    event: &Event,
    after: &[Event],
) -> Result<(), AllocError>
    ensures { OnOk result (text.new.items ≡ text.old.items ++ part_bytes bytes.now event.now after.now) }
{
    let Some(next) = after.first() else {
        return Ok(());
    };
    if is_part(event) {
        text.extend_from_slice(between(bytes, event.point().index, next.point().index))?;
    }
    Ok(())
}

/// The bytes of a label, whose events follow its start, up to its end.
fn label_bytes<A: Allocator>(
    alloc: A,
    bytes: &[u8],
    name: Name,
    events: &[Event],
) -> Result<Vec<u8, A>, AllocError>
    ensures { IfOk result (λ text. text.items ≡ label_bytes bytes.now name events.now) }
{
    let mut text = Vec::new(alloc);
    for (index, event) in events.iter().enumerate() {
        if is_bound(Kind::Exit, name, event) {
            return Ok(text);
        }
        push_part(&mut text, bytes, event, &events[index + 1..])?;
    }
    Ok(text)
}

/// Adds the label whose events these are, up to its end.
fn push_label<A: Allocator + Clone>(
    labels: &mut Vec<String<A>, A>,
    bytes: &[u8],
    name: Name,
    events: &[Event],
) -> Result<(), AllocError>
    ensures { OnOk result (map string_bytes labels.new.items ≡ map string_bytes labels.old.items ++ label_of bytes.now name events.now ∷ []) }
{
    let text = label_bytes(labels.allocator().clone()?, bytes, name, events)?;
    let mut label = String::new(labels.allocator().clone()?);
    normalize_label(&mut label, &text)?;
    labels.push(label)?;
    Ok(())
}

/// The labels that events of a name hold, in their order.
pub(crate) fn defined_labels<A: Allocator + Clone>(
    alloc: &A,
    bytes: &[u8],
    events: &[Event],
    name: Name,
) -> Result<Vec<String<A>, A>, AllocError>
    ensures { IfOk result (λ labels. map string_bytes labels.items ≡ defined_labels bytes.now name events.now) }
{
    let mut labels = Vec::new(alloc.clone()?);
    for (index, event) in events.iter().enumerate() {
        if is_bound(Kind::Enter, name, event) {
            push_label(&mut labels, bytes, name, &events[index + 1..])?;
        }
    }
    Ok(labels)
}
