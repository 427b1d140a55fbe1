//! The content of one line (CommonMark 4.8).
ghost use Rattle.std.specs.Prelude.{◌≡◌, ◌<◌, ℕ, Bool, IfSome, is_some, slice_index};
ghost use Rattle.definition_text.specs.BlockLines.{own_lines};
ghost use Rattle.definition_text.specs.InlineCode.{inline_content};
ghost use Rattle.text_pieces.specs.Pieces.{piece_lines};
ghost use Rattle.std.specs.List.Sorted.{IsNonDecreasingBy};
ghost use Rattle.inline_content.specs.Lines.{AreContentLines, is_one_line, mark_of};
ghost use Rattle.inline_content.specs.Marks.{mark_place};
ghost use Rattle.inline_content.specs.View.{content_view, codes_with_marks};

use crate::content::Content;
use crate::mark::Mark;
use markdown_options::Kind;
use text_pieces::Piece;

/// The mark of a first line after punctuation.
const AFTER_PUNCTUATION: Mark = Mark {
    place: 0,
    kind: Kind::Punctuation,
};

/// The mark of a first line after a character that is neither white space nor punctuation.
const AFTER_OTHER: Mark = Mark {
    place: 0,
    kind: Kind::Other,
};

/// The content of one line alone, before a character of a kind: the line itself, where no column of
/// it is left of a tab.
pub fn line_content<'a>(lines: &[Piece<'a>], after: Kind) -> Option<Content<'a>>
    ensures alone { is_some result ≡ is_one_line lines.now }
    ensures content { (is_punctuation : ℕ → Bool) → AreContentLines (piece_lines lines.now) →
        IfSome result (λ content. content_view is_punctuation content ≡ inline_content is_punctuation after (own_lines (piece_lines lines.now))) }
{
    if lines.len() != 1 {
        return None;
    }
    let line = lines[0];
    if line.owed > 0 {
        return None;
    }
    Some(text_content(line.before, line.text, after))
}

/// The content of a text between characters of two kinds.
fn text_content(before: Kind, text: &str, after: Kind) -> Content<'_>
    ensures view { (is_punctuation : ℕ → Bool) → content_view is_punctuation result ≡ codes_with_marks is_punctuation after (mark_of 0 before) text.now }
    ensures bytes { (k : ℕ) → slice_index text.now k < 256 }
{
    Content {
        text,
        marks: first_mark(before),
        after,
    }
}

/// The mark of the first line of a content, if something else than white space stands before it.
fn first_mark(before: Kind) -> &'static [Mark]
    ensures marks { result.now ≡ mark_of 0 before }
    ensures ordered { IsNonDecreasingBy mark_place result.now }
{
    match before {
        Kind::Whitespace => &[],
        Kind::Punctuation => &[AFTER_PUNCTUATION],
        Kind::Other => &[AFTER_OTHER],
    }
}
