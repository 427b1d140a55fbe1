//! The byte order mark.
ghost use Rattle.std.specs.Prelude.{◌≡◌};
ghost use Rattle.definition_text.specs.Lines.{kind_before_text, without_mark};

use markdown_options::Kind;

/// Removes a byte order mark at the start of a text. Also returns the kind of the character before
/// the first line: other for a mark, whitespace without one.
pub fn without_mark(value: &str) -> (Kind, &str)
    ensures kind { result.0 ≡ kind_before_text value.now }
    ensures text { result.1.now ≡ without_mark value.now }
{
    match value.strip_prefix('\u{FEFF}') {
        Some(rest) => (Kind::Other, rest),
        None => (Kind::Whitespace, value),
    }
}
