//! What holds blocks (CommonMark 5).
ghost use Rattle.std.specs.Prelude.{◌≡◌};
ghost use Rattle.compile_levels.specs.Levels.{new_level, is_document, begins, begun_at, passed, start_of};

use crate::kind::BlockKind;
use engine_events::event::Name;

/// What holds blocks: the document, or the innermost container or list that is open.
#[derive(Clone, Copy, PartialEq, Eq)]
pub enum Holder {
    /// The document itself.
    Document,
    /// A block quote.
    Quote,
    /// A list, with the number of its first item.
    List { number: Option<u32> },
    /// An item.
    Item,
    /// A footnote definition.
    Footnote,
}

impl Holder {
    /// Whether it is the document itself.
    pub fn is_document(self) -> bool
        ensures { result ≡ is_document self }
    {
        matches!(self, Holder::Document)
    }

    /// The name of the child with which the content begins.
    fn start(self) -> Name
        ensures { result ≡ start_of self }
    {
        match self {
            Holder::Quote => Name::BlockQuotePrefix,
            Holder::Item => Name::ListItemPrefix,
            Holder::Footnote => Name::GfmFootnoteDefinitionPrefix,
            Holder::Document | Holder::List { .. } => Name::ListItem,
        }
    }
}

/// What holds blocks, and what was printed in it.
#[derive(Clone, Copy)]
pub struct Level {
    pub holder: Holder,
    /// Whether paragraphs in it are printed as their text alone (CommonMark 5.3).
    pub tight: bool,
    /// Whether its last block that prints anything, if it has any, is such a paragraph.
    pub plain: bool,
    /// Whether the sibling right before silences an ending.
    pub silent: bool,
    /// Whether its content has begun: its first prefix, or the first item of a list.
    pub begun: bool,
}

impl Level {
    /// Nothing was printed yet.
    pub fn new(holder: Holder, tight: bool) -> Level
        ensures { result ≡ new_level holder tight }
    {
        Level {
            holder,
            tight,
            plain: true,
            silent: false,
            begun: holder.is_document(),
        }
    }

    /// Goes on to a child of this name. Returns whether it belongs to the content.
    pub fn begin(&mut self, name: Name) -> bool
        ensures level { self.new ≡ begun_at self.old name }
        ensures begins { result ≡ begins self.old name }
    {
        if !self.begun {
            self.begun = name == self.holder.start();
        }
        self.begun
    }

    /// Goes on after a child. An ending right after a tight paragraph or a definition prints nothing.
    pub fn pass(&mut self, kind: BlockKind)
        ensures { self.new ≡ passed self.old kind }
    {
        match kind {
            BlockKind::Other => {}
            BlockKind::Ending | BlockKind::Blank => self.silent = false,
            BlockKind::Definition | BlockKind::Footnote => self.silent = true,
            BlockKind::Paragraph => {
                self.plain = self.tight;
                self.silent = self.tight;
            }
            BlockKind::HeadingAtx
            | BlockKind::HeadingSetext
            | BlockKind::ThematicBreak
            | BlockKind::CodeIndented
            | BlockKind::CodeFenced
            | BlockKind::MathFlow
            | BlockKind::HtmlFlow
            | BlockKind::Table
            | BlockKind::Quote
            | BlockKind::UnorderedList
            | BlockKind::OrderedList
            | BlockKind::Item => {
                self.plain = false;
                self.silent = false;
            }
        }
    }
}
