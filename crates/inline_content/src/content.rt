//! A content, and what stands before its lines in the text (CommonMark 6.2).
ghost use Rattle.std.specs.Prelude.{◌≡◌, nat_lt};
ghost use Rattle.std.specs.List.Sorted.{IsNonDecreasingBy};
ghost use Rattle.inline_content.specs.Marks.{kind_at, mark_place};

use crate::mark::Mark;
use markdown_options::Kind;

/// A content: its bytes, and what stands before its lines in the text.
#[derive(Clone, Copy)]
pub struct Content<'a> {
    pub(crate) text: &'a str,
    // The lines before which something else than white space stands, in order.
    pub(crate) marks: &'a [Mark],
    // What stands after the content in the text.
    pub(crate) after: Kind,
    pub ghost ordered: { IsNonDecreasingBy mark_place marks.now },
}

impl<'a> Content<'a> {
    /// The bytes.
    pub fn text(self) -> &'a str
        ensures { result ≡ self.entry.text }
    {
        self.text
    }

    /// What stands in the text before the line that starts at a place.
    pub(crate) fn kind_at(self, place: usize) -> Kind
        ensures { result ≡ kind_at self.entry.marks.now place }
    {
        let found = self.marks.partition_point(
            |mark: &Mark| -> bool
                ensures { result ≡ nat_lt mark.now.place place }
            { mark.place < place },
        );
        if found < self.marks.len() && self.marks[found].place == place {
            return self.marks[found].kind;
        }
        Kind::Whitespace
    }
}
