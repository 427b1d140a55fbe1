//! What is open in a document (CommonMark 5).
ghost use Rattle.std.specs.Prelude.{◌≡◌, true};
ghost use Rattle.parse_open.specs.Levels.{list_name};
ghost use Rattle.parse_events.specs.Opened.{is_list, opened_name};

use engine_events::event::Name;

/// A container or a list that is open.
#[derive(Clone, Copy)]
pub(crate) enum Opened {
    Quote,
    Item,
    Footnote,
    OrderedList,
    UnorderedList,
}

impl Opened {
    /// A list whose items have a number, or none (CommonMark 5.3).
    pub(crate) fn list(number: Option<u32>) -> Opened
        ensures list { is_list result ≡ true }
        ensures name { opened_name result ≡ list_name number }
    {
        match number {
            Some(_) => Opened::OrderedList,
            None => Opened::UnorderedList,
        }
    }

    /// The name of its events.
    pub(crate) fn name(self) -> Name
        ensures { result ≡ opened_name self }
    {
        match self {
            Opened::Quote => Name::BlockQuote,
            Opened::Item => Name::ListItem,
            Opened::Footnote => Name::GfmFootnoteDefinition,
            Opened::OrderedList => Name::ListOrdered,
            Opened::UnorderedList => Name::ListUnordered,
        }
    }

    /// Whether it is a list.
    pub(crate) fn is_list(self) -> bool
        ensures { result ≡ is_list self }
    {
        matches!(self, Opened::OrderedList | Opened::UnorderedList)
    }
}
