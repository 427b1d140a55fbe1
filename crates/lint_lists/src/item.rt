//! The items of a text, with what is known of their lists.
use engine_events::event::{Kind, Name};
use lint_document::Span;
use lint_document::document::Step;
use std::alloc::{AllocError, Global};

/// The marker of an item, with its number.
#[derive(Clone, Copy)]
pub(crate) struct Marker {
    pub(crate) span: Span,
    /// The columns before it, after those of quotes.
    pub(crate) indent: usize,
    /// The columns before its end, after those of quotes.
    pub(crate) end: usize,
    /// Its number, if its list has numbers.
    pub(crate) number: Option<usize>,
}

/// An item, and other items of its list.
#[derive(Clone, Copy)]
pub(crate) struct Item {
    pub(crate) marker: Marker,
    /// How many lists are around its own, up to a quote or a footnote. None if one of them has numbers.
    pub(crate) level: Option<usize>,
    /// The first item of its list, if that is another.
    pub(crate) first: Option<Marker>,
    /// Whether the second item of its list has the number of the first, if both are before.
    pub(crate) is_same: Option<bool>,
    /// The number of the item before it in its list.
    pub(crate) last: Option<usize>,
    /// How many items of its list are before it.
    pub(crate) position: usize,
}

/// A list, a quote or a footnote that is open.
#[derive(Clone, Copy)]
struct Container {
    /// The level of its items, if it is a list.
    level: Option<usize>,
    /// The level of a list in it.
    inside: Option<usize>,
    /// Its first item.
    first: Option<Marker>,
    /// Whether its second item has the number of the first.
    is_same: Option<bool>,
    /// The number of its last item so far.
    last: Option<usize>,
    /// How many items it has so far.
    count: usize,
}

/// Reads the events of a text, and finds its items.
#[derive(Drop)]
pub(crate) struct Items {
    /// The containers that are open.
    containers: Vec<Container>,
    /// The columns of quotes at the start of this line.
    quotes: usize,
    /// The start and the columns before the marker that is open.
    start: usize,
    indent: usize,
    /// The number of that marker.
    number: Option<usize>,
}

impl Items {
    /// No event was read.
    pub(crate) fn new(alloc: Global) -> Items {
        Items {
            containers: Vec::new(alloc),
            quotes: 0,
            start: 0,
            indent: 0,
            number: None,
        }
    }

    /// Reads the next event. Returns the item whose marker ends there.
    pub(crate) fn read(&mut self, step: &Step<'_>) -> Result<Option<Item>, AllocError> {
        match step.kind {
            Kind::Enter => {
                self.enter(step)?;
                Ok(None)
            }
            Kind::Exit => Ok(self.exit(step)),
        }
    }

    /// Reads the enter of an event.
    fn enter(&mut self, step: &Step<'_>) -> Result<(), AllocError> {
        if step.name == Name::ListItemPrefix {
            self.start = step.index;
            self.indent = self.columns(step);
            self.number = None;
        } else if let Some(container) = self.container(step.name) {
            self.containers.push(container)?;
        }
        Ok(())
    }

    /// The container that begins with an event of this name, if one does.
    fn container(&self, name: Name) -> Option<Container> {
        match name {
            Name::BlockQuote | Name::GfmFootnoteDefinition => Some(Container::new(None, Some(0))),
            Name::ListOrdered => Some(Container::new(self.level(), None)),
            Name::ListUnordered => Some(Container::new(self.level(), above(self.level()))),
            _ => None,
        }
    }

    /// Reads the exit of an event. Returns the item whose marker ends here.
    fn exit(&mut self, step: &Step<'_>) -> Option<Item> {
        match step.name {
            Name::LineEnding | Name::BlankLineEnding => self.quotes = 0,
            Name::BlockQuotePrefix => self.quotes = step.column.saturating_sub(1),
            Name::BlockQuote
            | Name::GfmFootnoteDefinition
            | Name::ListOrdered
            | Name::ListUnordered => {
                self.containers.pop();
            }
            Name::ListItemValue => self.number = Some(number_of(step.bytes)),
            Name::ListItemMarker => return self.item(step),
            _ => {}
        }
        None
    }

    /// The level of a list that begins here.
    fn level(&self) -> Option<usize> {
        match self.containers.last() {
            Some(container) => container.inside,
            None => Some(0),
        }
    }

    /// The columns before an event, after those of quotes.
    fn columns(&self, step: &Step<'_>) -> usize {
        step.column.saturating_sub(1).saturating_sub(self.quotes)
    }

    /// The item whose marker ends here.
    fn item(&mut self, step: &Step<'_>) -> Option<Item> {
        let marker = Marker {
            span: Span {
                start: self.start,
                end: step.index,
            },
            indent: self.indent,
            end: self.columns(step),
            number: self.number,
        };
        let list = self.containers.last_mut()?;
        Some(list.add(marker))
    }
}

impl Container {
    fn new(level: Option<usize>, inside: Option<usize>) -> Container {
        Container {
            level,
            inside,
            first: None,
            is_same: None,
            last: None,
            count: 0,
        }
    }

    /// Adds an item to a list.
    fn add(&mut self, marker: Marker) -> Item {
        let item = Item {
            marker,
            level: self.level,
            first: self.first,
            is_same: self.is_same,
            last: self.last,
            position: self.count,
        };
        match self.first {
            None => self.first = Some(marker),
            Some(first) if self.is_same.is_none() => {
                self.is_same = Some(marker.number == first.number);
            }
            Some(_) => {}
        }
        self.last = marker.number;
        self.count = self.count.saturating_add(1);
        item
    }
}

/// The level in a list of bullets of a level.
fn above(level: Option<usize>) -> Option<usize> {
    Some(level?.saturating_add(1))
}

/// The number that digits are.
fn number_of(digits: &[u8]) -> usize {
    let mut number: usize = 0;
    for digit in digits {
        let digit = usize::from(digit.saturating_sub(b'0'));
        number = number.saturating_mul(10).saturating_add(digit);
    }
    number
}
