//! What comes before a line of a block, and what is left of the open paragraph.
#![tactic(auto)]

ghost use Rattle.std.specs.Prelude.{◌≡◌};
ghost use Rattle.state_left.specs.Before.{is_after_content, is_after_rows, line_before};

pub mod paragraph;

use markdown_engine::event::{Event, Name};
pub use paragraph::{is_head_left, is_paragraph_left};

/// The last event before the line ending that this line follows. White space may have been read of
/// this line.
fn line_before(events: &[Event]) -> Option<Event>
    ensures { result ≡ line_before events.now }
{
    let count = match events.last() {
        Some(event) => { if event.name == Name::SpaceOrTab { 5 } else { 3 } },
        None => 3,
    };
    events.get(events.len().saturating_sub(count)).copied()
}

/// Whether the line before is one of a table: its row of delimiters, or a row of its body.
pub fn is_after_rows(events: &[Event]) -> bool
    ensures { result ≡ is_after_rows events.now }
{
    match line_before(events) {
        Some(event) => event.name == Name::GfmTableHead || event.name == Name::GfmTableRow,
        None => false,
    }
}

/// Whether the line before is one of a paragraph.
pub fn is_after_content(events: &[Event]) -> bool
    ensures { result ≡ is_after_content events.now }
{
    match line_before(events) {
        Some(event) => event.name == Name::Content,
        None => false,
    }
}
