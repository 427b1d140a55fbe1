//! What holds a row (CommonMark 5).
ghost use Rattle.std.specs.Prelude.{◌≡◌, List};
ghost use Rattle.definition_text.specs.BlockLines.{BlockLine};
ghost use Rattle.block_rows.specs.Rows.{row_value};
ghost use Rattle.html_looseness.specs.Levels.{is_document, is_list, level_after, new_level};

use block_rows::Row;

/// What holds a row: the document, or the innermost container or list that is open.
#[derive(Clone, Copy)]
pub enum Holder {
    /// The document itself.
    Document,
    /// A block quote.
    Quote,
    /// A list, with the number of its first item.
    List { number: Option<u32> },
    /// An item, which may be the last of its list.
    Item { last: bool },
    /// A footnote definition.
    Footnote,
}

/// What holds a row, and what was printed in it so far.
#[derive(Clone, Copy)]
pub struct Level {
    /// What holds the row.
    pub holder: Holder,
    /// Whether paragraphs in it are printed as their text alone (CommonMark 5.3).
    pub tight: bool,
    /// Whether its last block that prints anything, if it has any, is such a paragraph.
    pub plain: bool,
    /// Whether the last row silences an ending right after it.
    pub silent: bool,
    /// Whether it is an item, and no block stands in it yet (GFM 5.3).
    pub first: bool,
}

impl Level {
    /// Nothing was printed yet.
    pub fn new(holder: Holder, tight: bool) -> Level
        ensures { result ≡ new_level holder tight }
    {
        Level {
            holder,
            tight,
            plain: true,
            silent: false,
            first: matches!(holder, Holder::Item { .. }),
        }
    }

    /// Goes on after one more row in it. An ending right after a tight paragraph or a definition prints
    /// nothing, nor does one after fenced code at the top that isn't closed.
    pub fn pass(&mut self, row: Row)
        ensures { (ls : List BlockLine) → self.new ≡ level_after self.old (row_value row ls) }
    {
        let (plain, silent, first) = match row {
            Row::Paragraph(_) | Row::WholeParagraph => (self.tight, self.tight, false),
            Row::Definition(_) | Row::EnterFootnote => (self.plain, true, false),
            Row::UnclosedCode(_) => (false, self.is_document(), false),
            Row::Ending(None) | Row::Blank(None) => (self.plain, self.silent, self.first),
            Row::Ending(_) | Row::Blank(_) => (self.plain, false, self.first),
            _ => (false, false, false),
        };
        self.plain = plain;
        self.silent = silent;
        self.first = first;
    }

    /// Whether the document itself holds the row.
    pub fn is_document(self) -> bool
        ensures { result ≡ is_document self.holder }
    {
        matches!(self.holder, Holder::Document)
    }

    /// Whether a list does.
    pub fn is_list(self) -> bool
        ensures { result ≡ is_list self.holder }
    {
        matches!(self.holder, Holder::List { .. })
    }
}
