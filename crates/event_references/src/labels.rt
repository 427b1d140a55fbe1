//! The labels of definitions among events.
ghost use Rattle.std.specs.Prelude.{◌≡◌, ◌<◌, List, ℕ, IfOk, length, map, is_some, true};
ghost use Rattle.std.specs.Option.{option_map};
ghost use Rattle.definition_text.specs.Content.{content_codes};
ghost use Rattle.inline_labels.specs.Table.{HasLabels};
ghost use Rattle.event_grammar.specs.Marked.{defines_label, marked_from};
ghost use Rattle.event_grammar.specs.References.{is_defined};
ghost use Rattle.event_references.specs.Texts.{is_enter, texts_of};
ghost use Rattle.event_references.specs.Views.{text_at, AreLabels};

use crate::label::{push_text, push_text_at};
use engine_events::event::{Event, Kind, Name};
use event_grammar::spot::spot_of;
use inline_labels::LabelTable;
use std::alloc::{AllocError, Allocator};

/// Returns the texts of all events of a name, as a table of labels. The only error is out of
/// memory.
pub fn label_table<A: Allocator + Clone>(
    alloc: A,
    events: &[Event],
    bytes: &[u8],
    name: Name,
) -> Result<LabelTable<A>, AllocError>
    ensures { IfOk result (λ table. HasLabels table (map content_codes (texts_of bytes.now name events.now))) }
{
    let mut table = LabelTable::new(alloc.clone()?)?;
    let mut text = Vec::new(alloc);
    let mut count = 0;
    for (index, event) in events.iter().enumerate() {
        if is_enter(event.kind) && event.name == name {
            text.clear();
            push_text(&mut text, bytes, spot_of(event), &events[index + 1..])?;
            table.insert(&text, count)?;
            count += 1;
        }
    }
    Ok(table)
}

/// The same, by the indices of all events that decide which labels need a definition, in order.
fn marked_table<A: Allocator + Clone>(
    alloc: A,
    events: &[Event],
    bytes: &[u8],
    name: Name,
    marked: &[usize],
) -> Result<LabelTable<A>, AllocError>
    requires name { defines_label name ≡ true }
    requires marked { marked.now ≡ marked_from 0 events.now }
    ensures { IfOk result (λ table. HasLabels table (map content_codes (texts_of bytes.now name events.now))) }
{
    let mut table = LabelTable::new(alloc.clone()?)?;
    let mut text = Vec::new(alloc);
    let mut count: usize = 0;
    let mut left = marked;
    while let Some((mark, others)) = left.split_first() {
        let index = *mark;
        let event = &events[index];
        if is_enter(event.kind) && event.name == name {
            text.clear();
            push_text(&mut text, bytes, spot_of(event), &events[index + 1..])?;
            table.insert(&text, count)?;
            count += 1;
        }
        left = others;
    }
    Ok(table)
}

fn is_enter(kind: Kind) -> bool
    ensures { result ≡ is_enter kind }
{
    match kind {
        Kind::Enter => true,
        Kind::Exit => false,
    }
}

/// Returns whether the text of the event at an index is a label of the table. Without an index it
/// is true. `text` is overwritten.
pub fn is_defined<A: Allocator + Clone>(
    table: &LabelTable<A>,
    text: &mut Vec<u8, A>,
    events: &[Event],
    bytes: &[u8],
    label: Option<usize>,
) -> Result<bool, AllocError>
    ensures { (labels : List (List ℕ)) → HasLabels table.now (map content_codes labels) →
        IfOk result (λ found. found ≡ is_defined labels (option_map (text_at bytes.now events.now) label)) }
{
    let Some(index) = label else {
        return Ok(true);
    };
    text.clear();
    push_text_at(text, bytes, events, index)?;
    Ok(table.find(text)?.is_some())
}

/// Returns whether the text of the event at an index is the text of an event of a name, which is that
/// of labels of definitions. Without an index it is true. The table of such texts is made where it is
/// first asked for, by the indices of all events that decide which labels need a definition. `text` is
/// overwritten.
pub(crate) fn is_label<A: Allocator + Clone>(
    table: &mut Option<LabelTable<A>>,
    alloc: &A,
    text: &mut Vec<u8, A>,
    events: &[Event],
    bytes: &[u8],
    name: Name,
    marked: &[usize],
    label: Option<usize>,
) -> Result<bool, AllocError>
    requires name { defines_label name ≡ true }
    requires marked { marked.now ≡ marked_from 0 events.now }
    requires table { AreLabels bytes.now events.now name table.old }
    ensures found { IfOk result (λ found. found ≡ is_defined (texts_of bytes.now name events.now) (option_map (text_at bytes.now events.now) label)) }
    ensures kept { AreLabels bytes.now events.now name table.new }
{
    if label.is_none() {
        return Ok(true);
    }
    let known = match table.take() {
        Some(known) => known,
        None => marked_table(alloc.clone()?, events, bytes, name, marked)?,
    };
    let found = is_defined(&known, text, events, bytes, label)?;
    *table = Some(known);
    Ok(found)
}
