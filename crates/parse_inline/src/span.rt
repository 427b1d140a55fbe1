//! Emphasis, strong emphasis (CommonMark 6.2), strikethrough (GFM 6.5) and marked text.
ghost use Rattle.std.specs.Prelude.{[], ◌∷◌, ◌≡◌, ◌++◌, List, OnOk, drop, false, length, true, ℕ};
ghost use Rattle.std.specs.List.{list_any};
ghost use Rattle.definition_text.specs.Lines.{ends_line};
ghost use Rattle.event_tokens.specs.Tokens.{is_token};
ghost use Rattle.parse_output.specs.Children.{may_enter};
ghost use Rattle.parse_output.specs.Open.{closed};
ghost use Rattle.parse_lines.specs.InContent.{IsWhole, StandsInContent, Stop};
ghost use Rattle.parse_lines.specs.Open.{still_open};
ghost use Rattle.parse_inline.specs.declared.opened.Open.TheVariants as held;
ghost use Rattle.parse_inline.specs.Leaving.{AreHeld, open_around, sequence_name, span_name, text_name};
ghost use Rattle.parse_inline.specs.Rows.{EntersSpan, LeavesSpan};
ghost use Rattle.parse_written.specs.Marks.{sequence_size};

use crate::opened::Open;
use crate::reading::Reading;
use event_grammar::spans::span_names;
use inline_runs::Span;
use parse_lines::Walk;
use parse_lines::cut::bytes_from;
use std::alloc::{AllocError, Allocator};
use text_bytes::run;

/// The start of a span.
#[tactic(auto, using(crate::proofs::Rules::in_span))]
pub(crate) fn enter_span<T, A: Allocator>(
    walk: &mut Walk<'_, A>,
    reading: &Reading<'_, T>,
    open: &mut Vec<Open, A>,
    span: Span,
) -> Result<(), AllocError>
    requires child { may_enter (still_open walk.old) (span_name span) ≡ true }
    requires held { AreHeld open.old.items (still_open walk.old) }
    ensures open { OnOk result (open_around open.new.items walk.new ≡ open_around open.old.items walk.old) }
    ensures held { OnOk result (AreHeld open.new.items (still_open walk.new)) }
    ensures written { OnOk result ((text front content : List ℕ) (stop : Stop) → front ++ content ≡ drop walk.old.place reading.now.content.now
        → length front ≡ sequence_size span (front ++ content) → list_any ends_line front ≡ false → is_token (sequence_name span) front ≡ true
        → StandsInContent text (front ++ content) stop walk.old → IsWhole walk.old
        → EntersSpan text span front content stop walk.old walk.new × (open.new.items ≡ open.old.items ++ held.Span span (length front) ∷ [])) }
{
    let bytes = bytes_from(reading.content.as_bytes(), walk.place());
    let size = sequence_size(span, bytes);
    let names = span_names(span);
    open.push(Open::Span { span, size })?;
    walk.enter(names.event)?;
    walk.text(names.sequence, size)?;
    walk.enter(names.text)?;
    Ok(())
}

/// How many bytes the sequence of a span has that bytes begin with: of tildes all that come first.
fn sequence_size(span: Span, bytes: &[u8]) -> usize
    ensures { result ≡ sequence_size span bytes.now }
{
    match span {
        Span::Emphasis => 1,
        Span::Strong | Span::Mark => 2,
        Span::Strikethrough => run(b'~', bytes),
    }
}

/// The end of a span with sequences of a size.
pub(crate) fn leave_span<A: Allocator>(
    walk: &mut Walk<'_, A>,
    span: Span,
    size: usize,
) -> Result<(), AllocError>
    requires sequence { may_enter (closed (text_name span) (still_open walk.old)) (sequence_name span) ≡ true }
    ensures open { OnOk result (still_open walk.new ≡ closed (span_name span) (closed (text_name span) (still_open walk.old))) }
    ensures written { OnOk result ((text front content : List ℕ) (stop : Stop) → size ≡ length front → list_any ends_line front ≡ false
        → is_token (sequence_name span) front ≡ true → StandsInContent text (front ++ content) stop walk.old → IsWhole walk.old
        → LeavesSpan text span front content stop walk.old walk.new) }
{
    let names = span_names(span);
    walk.exit(names.text)?;
    walk.text(names.sequence, size)?;
    walk.exit(names.event)
}
