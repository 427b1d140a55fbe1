//! What is open where a row is printed.
ghost use Rattle.std.specs.Prelude.{◌≡◌, ℕ, List, map, reverse};
ghost use Rattle.definition_inline.specs.Inline as inline;
ghost use Rattle.definition_page.specs.InlinePieces.{Meaning};
ghost use Rattle.inline_rows.specs.declared.row.InlineRow.{InlineRow};
ghost use Rattle.html_inline.specs.Opens.{is_silent, opened_view};
ghost use Rattle.html_inline.specs.Printed.{is_described};

use inline_runs::Span;

/// What is open.
#[derive(Clone, Copy)]
pub(crate) enum OpenPart {
    /// A span (CommonMark 6.2).
    Span(Span),
    /// A link (CommonMark 6.3).
    Link,
    /// An image by the place of the row that starts it (CommonMark 6.4).
    Image(usize),
    /// What stands in the description of an image.
    Silent,
}

/// Whether only descriptions are printed.
pub(crate) fn is_described(stack: &[OpenPart]) -> bool
    ensures { (meaning : Meaning) (at : ℕ → inline.LinkTexts) (rows : List InlineRow) →
        result ≡ is_described (map (opened_view meaning at rows) (reverse stack.now)) }
{
    match stack.last() {
        None => false,
        Some(last) => is_silent(*last),
    }
}

fn is_silent(part: OpenPart) -> bool
    ensures { result ≡ is_silent part }
{
    matches!(part, OpenPart::Image(_) | OpenPart::Silent)
}
