//! All rules on lists and tables.
use crate::item::{Item, Items};
use crate::list_marker::ListMarkers;
use crate::table_cells::TableCells;
use crate::{list_indent, list_numbers, nested_list_indent};
use engine_events::event::Name;
use lint_document::Report;
use lint_document::document::Step;
use std::alloc::{AllocError, Global};

/// The rules on lists and tables, with what they know of the text so far.
#[derive(Drop)]
pub struct ListRules {
    markers: ListMarkers,
    items: Items,
    cells: TableCells,
    /// The columns that a list of bullets is indented by for each level.
    level_indent: usize,
}

impl ListRules {
    /// No event was read. Lists of bullets should be indented by so many columns a level.
    pub fn new(alloc: Global, level_indent: usize) -> ListRules {
        ListRules {
            markers: ListMarkers::new(alloc),
            items: Items::new(alloc),
            cells: TableCells::default(),
            level_indent,
        }
    }

    /// Whether the rules ask for the next event, if it has this name.
    pub fn asks_for(&self, name: Name) -> bool {
        self.markers.is_after_list() || is_asked_for(name)
    }

    /// Reads the next event that the rules ask for.
    pub fn read(&mut self, step: &Step<'_>, report: &mut Report) -> Result<(), AllocError> {
        self.markers.read(step, report)?;
        self.cells.read(step, report)?;
        match self.items.read(step)? {
            Some(item) => check_item(&item, self.level_indent, report),
            None => Ok(()),
        }
    }
}

/// Whether a rule asks for events of this name, beside those right after a list.
fn is_asked_for(name: Name) -> bool {
    matches!(
        name,
        Name::BlankLineEnding
            | Name::BlockQuote
            | Name::BlockQuotePrefix
            | Name::GfmFootnoteDefinition
            | Name::GfmTable
            | Name::GfmTableCell
            | Name::GfmTableRow
            | Name::LineEnding
            | Name::ListItemMarker
            | Name::ListItemPrefix
            | Name::ListItemValue
            | Name::ListOrdered
            | Name::ListUnordered
    )
}

/// Reports what is wrong with an item, where lists of bullets are indented by so many columns a level.
fn check_item(item: &Item, level_indent: usize, report: &mut Report) -> Result<(), AllocError> {
    list_indent::check(item, report)?;
    nested_list_indent::check(item, level_indent, report)?;
    list_numbers::check(item, report)
}
