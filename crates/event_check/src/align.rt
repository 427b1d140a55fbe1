//! Alignments of the columns of a table (GFM 4.10).
ghost use Rattle.std.specs.Prelude.{◌≡◌, false, IfErr, IfOk};
ghost use Rattle.markdown_options.specs.Messages.{IsOutOfMemory};
ghost use Rattle.event_grammar.specs.Trees.{Node};
ghost use Rattle.event_check.specs.Align.{marks, mark, align_of, marks_after, aligns_after, table_align};
ghost use Rattle.event_check.specs.Loose.{IsAt, kids_of};

use crate::checked::Checked;
use crate::loose::events_after;
use engine_events::event::{Event, Kind, Name};
use markdown_options::{AlignKind, Message};
use std::alloc::{AllocError, Allocator};

/// Returns the alignments of a table's columns, by the markers of its delimiter row (GFM 4.10). The
/// index is that of the table's enter. The only error is out of memory.
pub fn gfm_table_align<T, A: Allocator>(
    alloc: A,
    checked: &Checked<'_, T>,
    index: usize,
) -> Result<Vec<AlignKind, A>, Message>
    ensures columns { (node : Node) → IsAt checked.now.events.now index node →
        IfOk result (λ aligns. aligns.items ≡ table_align (kids_of node)) }
    ensures memory { IfErr result IsOutOfMemory }
{
    let aligns = table_aligns(alloc, checked.events(), index)?;
    Ok(aligns)
}

/// Returns the alignments of the columns of a table, whose enter is at an index of a list.
pub fn table_aligns<A: Allocator>(
    alloc: A,
    events: &[Event],
    index: usize,
) -> Result<Vec<AlignKind, A>, AllocError>
    ensures { (node : Node) → IsAt events.now index node → IfOk result (λ aligns. aligns.items ≡ table_align (kids_of node)) }
{
    let aligns = aligns_in(alloc, events_after(events, index))?;
    Ok(aligns)
}

/// Which markers a delimiter cell has.
#[derive(Clone, Copy)]
pub struct Marks {
    /// A marker before the dashes.
    before: bool,
    /// The dashes.
    filled: bool,
    /// A marker after the dashes.
    after: bool,
}

/// The alignments, among the events after a table's enter.
fn aligns_in<A: Allocator>(alloc: A, events: &[Event]) -> Result<Vec<AlignKind, A>, AllocError>
    ensures { IfOk result (λ aligns. aligns.items ≡ aligns_after 0 events.now) }
{
    let mut aligns = Vec::new(alloc);
    let mut depth: usize = 0;
    for (index, event) in events.iter().enumerate() {
        match event.kind {
            Kind::Enter => {
                if event.name == Name::GfmTableDelimiterCellValue {
                    aligns.push(align_of(marks_in(&events[index + 1..])))?;
                }
                depth += 1;
            }
            Kind::Exit => {
                if depth == 0 {
                    return Ok(aligns);
                }
                depth -= 1;
            }
        }
    }
    Ok(aligns)
}

/// The markers among the events after the enter of a cell's value.
fn marks_in(events: &[Event]) -> Marks
    ensures { result ≡ marks_after 0 (marks false false false) events.now }
{
    let mut found = Marks {
        before: false,
        filled: false,
        after: false,
    };
    let mut depth: usize = 0;
    for event in events {
        match event.kind {
            Kind::Enter => {
                found = found.mark(event.name);
                depth += 1;
            }
            Kind::Exit => {
                if depth == 0 {
                    return found;
                }
                depth -= 1;
            }
        }
    }
    found
}

impl Marks {
    /// After an event of this name.
    fn mark(self, name: Name) -> Marks
        ensures { result ≡ mark name self }
    {
        if name == Name::GfmTableDelimiterFiller {
            Marks {
                filled: true,
                ..self
            }
        } else if name == Name::GfmTableDelimiterMarker {
            if self.filled {
                Marks {
                    after: true,
                    ..self
                }
            } else {
                Marks {
                    before: true,
                    ..self
                }
            }
        } else {
            self
        }
    }
}

/// The alignment of a column by its markers.
fn align_of(marks: Marks) -> AlignKind
    ensures { result ≡ align_of marks }
{
    if marks.before {
        if marks.after {
            AlignKind::Center
        } else {
            AlignKind::Left
        }
    } else if marks.after {
        AlignKind::Right
    } else {
        AlignKind::None
    }
}
