//! Which label start or end a content begins with (CommonMark 6.3 and 6.4).
//!
//!     start ::= '[' | '!' '['
//!     end   ::= ']'
ghost use Rattle.std.specs.Prelude.{◌≡◌, ◌<◌, ◌==◌, ◌&&◌, IfSome, length, slice_index, true};
ghost use Rattle.std.specs.Option.{option_map};
ghost use Rattle.definition_text.specs.Ascii.{right_bracket};
ghost use Rattle.definition_text.specs.Bytes.{begins_with};
ghost use Rattle.definition_text.specs.Content.{content_codes};
ghost use Rattle.definition_inline.specs.GfmLabelStartFootnote.{starts_call, starts_marked_call};
ghost use Rattle.definition_inline.specs.Scan.{label_start_at, starts_image, starts_link};
ghost use Rattle.inline_reading.specs.LabelStarts.{has_no_return, StartsLabel};
ghost use Rattle.inline_reading.specs.Shows.{start_view};

use crate::label::LabelStart;
use markdown_options::Constructs;

/// Whether a `]` comes first that may end a label (CommonMark 6.3).
pub fn is_label_end(on: &Constructs, rest: &str) -> bool
    requires { 0 < length rest.now }
    ensures { result ≡ (on.now.label_end && (slice_index rest.now 0 == right_bracket)) }
{
    on.label_end && rest.as_bytes()[0] == b']'
}

/// The label start that a content begins with (CommonMark 6.3 and 6.4).
pub fn label_start_at(on: &Constructs, rest: &str) -> Option<LabelStart>
    ensures read { option_map start_view result ≡ label_start_at on.now (content_codes rest.now) }
    ensures front { IfSome result (λ start. StartsLabel rest.now start) }
{
    if starts_image(on, rest) {
        return Some(LabelStart::Image);
    }
    if starts_link(on, rest) {
        return Some(LabelStart::Link);
    }
    None
}

/// Whether an image starts (CommonMark 6.4): by `![`, unless `!` stands before a call.
fn starts_image(on: &Constructs, rest: &str) -> bool
    ensures { result ≡ starts_image on.now (content_codes rest.now) }
{
    on.label_start_image && begins(rest, "![") && !starts_marked_call(on, rest)
}

/// Whether a link starts, by `[` (CommonMark 6.3), or a call.
fn starts_link(on: &Constructs, rest: &str) -> bool
    ensures { result ≡ starts_link on.now (content_codes rest.now) }
{
    (on.label_start_link && begins(rest, "[")) || starts_call(on, rest)
}

/// Whether a call of a footnote starts.
fn starts_call(on: &Constructs, rest: &str) -> bool
    ensures { result ≡ starts_call on.now (content_codes rest.now) }
{
    on.gfm_label_start_footnote && begins(rest, "[^")
}

/// Whether a call of a footnote starts after `!`.
fn starts_marked_call(on: &Constructs, rest: &str) -> bool
    ensures { result ≡ starts_marked_call on.now (content_codes rest.now) }
{
    on.gfm_label_start_footnote && begins(rest, "![^")
}

/// Whether a content begins with this text, in which there is no CR.
fn begins(rest: &str, front: &str) -> bool
    requires { has_no_return front.now ≡ true }
    ensures { result ≡ begins_with front.now (content_codes rest.now) }
{
    rest.starts_with(front)
}
