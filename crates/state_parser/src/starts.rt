//! Where texts begin that may have a check (GFM 5.3).
ghost use Rattle.std.specs.Prelude.{◌≡◌, [], IfOk, OnOk};
ghost use Rattle.std.specs.List.{fold};
ghost use Rattle.std.specs.Option.{option_to_list};
ghost use Rattle.state_parser.specs.Starts.{AreMarked, first_paragraph, is_between, marked, start_indices};

use crate::events::is_bound;
use markdown_engine::event::{Event, Kind, Name};
use std::alloc::{AllocError, Allocator};

/// Whether an event may be between the prefix of an item and its first block.
fn is_between(event: &Event) -> bool
    ensures { result ≡ is_between event.now }
{
    matches!(
        event.name,
        Name::SpaceOrTab
            | Name::LineEnding
            | Name::BlankLineEnding
            | Name::BlockQuotePrefix
            | Name::BlockQuoteMarker
    )
}

/// The index at which the first block of these events begins, if it is a paragraph.
fn first_paragraph(events: &[Event]) -> Option<usize>
    ensures { result ≡ first_paragraph events.now }
{
    for event in events {
        if !is_between(event) {
            return if is_bound(Kind::Enter, Name::Paragraph, event) {
                Some(event.point().index)
            } else {
                None
            };
        }
    }
    None
}

/// Marks an index.
fn mark<A: Allocator>(marks: &mut Vec<bool, A>, index: usize) -> Result<(), AllocError>
    ensures { OnOk result (marks.new.items ≡ marked marks.old.items index) }
{
    if index < marks.len() {
        marks[index] = true;
        return Ok(());
    }
    marks.resize(index, false)?;
    marks.push(true)?;
    Ok(())
}

/// Marks the index at which the first block of these events begins, if it is a paragraph.
fn mark_first<A: Allocator>(marks: &mut Vec<bool, A>, events: &[Event]) -> Result<(), AllocError>
    ensures { OnOk result (marks.new.items ≡ fold marked marks.old.items (option_to_list (first_paragraph events.now))) }
{
    if let Some(index) = first_paragraph(events) {
        mark(marks, index)?;
    }
    Ok(())
}

/// At which indices paragraphs begin that are the first block of their item.
pub(crate) fn starts<A: Allocator>(alloc: A, events: &[Event]) -> Result<Vec<bool, A>, AllocError>
    ensures list { IfOk result (λ marks. marks.items ≡ fold marked [] (start_indices events.now)) }
    ensures starts { IfOk result (λ marks. AreMarked (start_indices events.now) marks.items) }
{
    let mut marks = Vec::new(alloc);
    for (index, event) in events.iter().enumerate() {
        if is_bound(Kind::Exit, Name::ListItemPrefix, event) {
            mark_first(&mut marks, &events[index + 1..])?;
        }
    }
    Ok(marks)
}
