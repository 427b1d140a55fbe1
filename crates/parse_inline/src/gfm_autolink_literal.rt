//! Links with no brackets (GFM 6.9).
ghost use Rattle.std.specs.Prelude.{◌≡◌, true};
ghost use Rattle.std.specs.Str.{IsUtf8};
ghost use Rattle.engine_events.specs.Names.{is_listed};
ghost use Rattle.event_grammar.specs.Grammar.{text_names};
ghost use Rattle.event_tokens.specs.Tokens.{is_token};
ghost use Rattle.inline_leaves.specs.Leaves.{kind_view};
ghost use Rattle.parse_inline.specs.Leaves.{literal_names};
ghost use Rattle.parse_written.specs.Written.{is_literal};

use engine_events::event::Name;
use inline_leaves::LiteralKind;
use parse_lines::cut::first;

/// The name of a literal of a kind, which begins with these bytes.
pub(crate) fn literal_name(kind: LiteralKind, bytes: &[u8]) -> Name
    ensures listed { is_listed text_names result ≡ true }
    ensures kind { is_listed (literal_names kind) result ≡ true }
    ensures may { is_literal (kind_view kind) bytes.now ≡ true → IsUtf8 bytes.now → is_token result bytes.now ≡ true }
{
    match kind {
        LiteralKind::Www => Name::GfmAutolinkLiteralWww,
        LiteralKind::Email => Name::GfmAutolinkLiteralEmail,
        LiteralKind::Protocol => match first(bytes) {
            b'm' | b'M' => Name::GfmAutolinkLiteralMailto,
            b'x' | b'X' => Name::GfmAutolinkLiteralXmpp,
            _ => Name::GfmAutolinkLiteralProtocol,
        },
    }
}
