//! The text between brackets, where it is the label itself (CommonMark 6.3).
//!
//!     text ::= ('\' ('[' | ']' | '\') | code without brackets)*
ghost use Rattle.std.specs.Prelude.{◌≡◌};
ghost use Rattle.definition_text.specs.Content.{content_codes};
ghost use Rattle.definition_inline.specs.LabelEnd.{is_label_text};

use inline_links::label::{has_no_bracket, is_label};

/// Whether a text between brackets may be a label itself (CommonMark 6.3).
pub(crate) fn is_label_text(text: &str) -> bool
    ensures { result ≡ is_label_text (content_codes text.now) }
{
    has_no_bracket(text.as_bytes()) && is_label(text.as_bytes())
}
