//! list-marker (MD004): a list on the line after a list with another marker.
//!
//! Another marker begins another list (CommonMark 5.3), so what looks like one list is two: a browser puts
//! space between them, and an ordered one counts anew. After a blank line two lists are meant, which need
//! two markers. In an item of another list there may be no blank line, so lists there aren't looked at.
//!
//! Example: `- a` and on the next line `* b`.
use engine_events::event::{Kind, Name};
use lint_document::document::Step;
use lint_document::{Report, Rule, Span};
use std::alloc::{AllocError, Global};

/// A list that is open.
#[derive(Clone, Copy)]
struct List {
    start: usize,
    /// The marker of the list right before it, if there is one.
    before: Option<u8>,
    /// Its own marker, once that was read.
    marker: Option<u8>,
}

/// Reads the events of a text, and compares the markers of its lists.
#[derive(Drop)]
pub(crate) struct ListMarkers {
    /// The lists that are open.
    open: Vec<List>,
    /// The marker of the list that was the last thing to end.
    last: Option<u8>,
    /// Whether the last line was blank.
    is_blank: bool,
}

impl ListMarkers {
    /// No event was read.
    pub(crate) fn new(alloc: Global) -> ListMarkers {
        ListMarkers {
            open: Vec::new(alloc),
            last: None,
            is_blank: false,
        }
    }

    /// Whether a list was the last thing to end, so that each event is asked for.
    pub(crate) fn is_after_list(&self) -> bool {
        self.last.is_some()
    }

    /// Reads the next event. Reports the list whose first marker ends there, if it comes on the line after a
    /// list with another marker.
    pub(crate) fn read(&mut self, step: &Step<'_>, report: &mut Report) -> Result<(), AllocError> {
        match (step.kind, step.name) {
            (Kind::Enter, Name::ListOrdered | Name::ListUnordered) => {
                let before = self.last.take();
                let is_apart = self.is_blank || !self.open.is_empty();
                self.open.push(List {
                    start: step.index,
                    before: if is_apart { None } else { before },
                    marker: None,
                })?;
            }
            (Kind::Exit, Name::ListOrdered | Name::ListUnordered) => {
                self.last = marker_of(self.open.pop());
            }
            (Kind::Exit, Name::ListItemMarker) => {
                return check_marker(self.open.last_mut(), step, report);
            }
            (_, Name::LineEnding) => self.is_blank = false,
            (_, Name::BlankLineEnding) => self.is_blank = true,
            _ if is_between(step.name) => {}
            _ => self.last = None,
        }
        Ok(())
    }
}

fn marker_of(list: Option<List>) -> Option<u8> {
    list?.marker
}

/// Notes the marker of a list, and reports the list if the one before it has another.
fn check_marker(
    list: Option<&mut List>,
    step: &Step<'_>,
    report: &mut Report,
) -> Result<(), AllocError> {
    let Some(list) = list else {
        return Ok(());
    };
    if list.marker.is_some() {
        return Ok(());
    }
    list.marker = step.bytes.first().copied();
    match (list.before, list.marker) {
        (Some(before), Some(marker)) if before != marker => {
            let before = char::from(before);
            let marker = char::from(marker);
            let span = Span {
                start: list.start,
                end: step.index,
            };
            let what = format!(in report.alloc(); "list with {marker} after a list with {before}")?;
            report.add_made(Rule::ListMarker, span, what)
        }
        _ => Ok(()),
    }
}

/// Whether events of this name may be between lists side by side.
fn is_between(name: Name) -> bool {
    matches!(
        name,
        Name::SpaceOrTab | Name::BlockQuotePrefix | Name::BlockQuoteMarker
    )
}
