//! The names of the events of emphasis, strong emphasis, strikethrough and marked text.
//!
//!     event ::= sequence text sequence
ghost use Rattle.std.specs.Prelude.{◌≡◌};
ghost use Rattle.std.specs.Option.{option_map};
ghost use Rattle.inline_runs.specs.View.{span_view};
ghost use Rattle.event_grammar.specs.Spans.{span_names, span_of};

use engine_events::event::Name;
use inline_runs::Span;

/// The names of the events of a span.
#[derive(Clone, Copy)]
pub struct SpanNames {
    /// All of the span.
    pub event: Name,
    /// The bytes that begin or end it.
    pub sequence: Name,
    /// What stands between these.
    pub text: Name,
}

/// The names of the events of a span: the table of all spans.
#[inline]
pub fn span_names(span: Span) -> SpanNames
    ensures { result ≡ span_names (span_view span) }
{
    match span {
        Span::Emphasis => SpanNames {
            event: Name::Emphasis,
            sequence: Name::EmphasisSequence,
            text: Name::EmphasisText,
        },
        Span::Strong => SpanNames {
            event: Name::Strong,
            sequence: Name::StrongSequence,
            text: Name::StrongText,
        },
        Span::Strikethrough => SpanNames {
            event: Name::GfmStrikethrough,
            sequence: Name::GfmStrikethroughSequence,
            text: Name::GfmStrikethroughText,
        },
        Span::Mark => SpanNames {
            event: Name::Mark,
            sequence: Name::MarkSequence,
            text: Name::MarkText,
        },
    }
}

/// The span whose event has a name, if there is one.
#[inline]
pub fn span_of(name: Name) -> Option<Span>
    ensures { option_map span_view result ≡ span_of name }
{
    if name == Name::Emphasis {
        Some(Span::Emphasis)
    } else if name == Name::Strong {
        Some(Span::Strong)
    } else if name == Name::GfmStrikethrough {
        Some(Span::Strikethrough)
    } else if name == Name::Mark {
        Some(Span::Mark)
    } else {
        None
    }
}
