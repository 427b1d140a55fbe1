//! Whether an address may be found in rows, or a literal in a link made text: not where no `@` stands in
//! their text, and no literal after the start of a link.
ghost use Rattle.std.specs.Prelude.{◌≡◌, ◌==◌, [], ℕ, false};
ghost use Rattle.std.specs.List.{list_any};
ghost use Rattle.std.specs.Option.{option_map};
ghost use Rattle.definition_text.specs.Ascii.{at_sign};
ghost use Rattle.definition_inline.specs.GfmAutolinkLiteral.{with_literals};
ghost use Rattle.definition_inline.specs.Inline.{Target, LinkTexts, Inlines};
ghost use Rattle.inline_rows.specs.InlineRows.{inline_rows};
ghost use Rattle.inline_rows.specs.View.{rows_view};
ghost use Rattle.inline_addresses.specs.Addresses.{begins_link, has_at_sign, row_may_link, row_text, rows_may_link};

use crate::walk::{literal_of, text_of};
use inline_rows::InlineRow;
use text_search::{BytePair, next_of};

/// `@`, which is told without tables.
const AT_SIGN: BytePair = BytePair {
    first: b'@',
    second: b'@',
};

/// Whether an `@` stands in the text of rows, or a literal among those from a link on: only then an
/// address may be found in them, or a literal made text (GFM 6.9).
pub fn may_link(rows: &[InlineRow<'_>]) -> bool
    ensures same { result ≡ rows_may_link rows.now }
    ensures none { (leads : Target → LinkTexts) (at : ℕ → LinkTexts) (kids : Inlines) → result ≡ false → rows_view at rows.now ≡ inline_rows leads kids →
        rows_view at rows.now ≡ inline_rows leads (with_literals [] kids) }
{
    for (place, row) in rows.iter().enumerate() {
        if row_has_at_sign(*row) {
            return true;
        }
        if begins_link(*row) {
            return any_may_link(&rows[place..]);
        }
    }
    false
}

/// Whether some row is a literal, or text with an `@`.
fn any_may_link(rows: &[InlineRow<'_>]) -> bool
    ensures { result ≡ list_any row_may_link rows.now }
{
    rows.iter().any(|row| row_may_link(*row))
}

/// Whether a link starts.
fn begins_link(row: InlineRow<'_>) -> bool
    ensures { result ≡ begins_link row.entry }
{
    matches!(row, InlineRow::EnterLink(_))
}

/// Whether a row is a literal, or text with an `@`.
fn row_may_link(row: InlineRow<'_>) -> bool
    ensures { result ≡ row_may_link row.entry }
{
    match literal_of(row) {
        Some(_) => true,
        None => row_has_at_sign(row),
    }
}

/// Whether an `@` stands in the text of a row. Verbatim text is mostly known to have none.
fn row_has_at_sign(row: InlineRow<'_>) -> bool
    ensures { result ≡ has_at_sign (row_text row.entry) }
{
    match row {
        InlineRow::Verbatim(verbatim) if verbatim.has_no_at_sign => false,
        _ => has_at_sign(text_of(row)),
    }
}

/// Whether an `@` stands in a text, if there is one.
fn has_at_sign(text: Option<&str>) -> bool
    ensures { result ≡ has_at_sign (option_map (λ text. text.now) text.entry) }
{
    match text {
        Some(text) => holds_at_sign(text.as_bytes()),
        None => false,
    }
}

/// Whether an `@` is among bytes.
fn holds_at_sign(bytes: &[u8]) -> bool
    ensures { result ≡ list_any (λ b. b == at_sign) bytes.now }
{
    next_of(bytes, AT_SIGN) < bytes.len()
}
