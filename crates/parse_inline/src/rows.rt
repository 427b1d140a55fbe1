//! Rows, one after another (CommonMark 6).
ghost use Rattle.std.specs.Prelude.{[], ◌≡◌, List, OnOk, true, ℕ};
ghost use Rattle.definition_inline.specs.Inline.{LinkTexts, Target};
ghost use Rattle.definition_inline.specs.Scan.{InlineContext, inlines_from};
ghost use Rattle.definition_text.specs.InlineCode.{InlineCode};
ghost use Rattle.inline_rows.specs.InlineRows.{inline_rows};
ghost use Rattle.inline_rows.specs.View.{rows_view};
ghost use Rattle.parse_alike.specs.Strings.{HaveTextsOfBytes};
ghost use Rattle.parse_output.specs.Children.{holds_text};
ghost use Rattle.parse_lines.specs.InContent.{Stop};
ghost use Rattle.parse_lines.specs.Open.{still_open};
ghost use Rattle.parse_inline.specs.Leaving.{AreHeld, entered_open, leave_open, open_around};
ghost use Rattle.parse_inline.specs.Rows.{PassesExit, PassesRow};
ghost use Rattle.parse_inline.specs.Texts.{StandsInText, WritesText};
ghost use Rattle.inline_rows.specs.declared.row.InlineRow.TheVariants.{Exit};

use crate::gfm_footnote_call::push_call;
use crate::label::{enter_image, enter_link, leave_label};
use crate::leaf::{push_leaf, push_spelled};
use crate::opened::Open;
use crate::reading::Reading;
use crate::span::{enter_span, leave_span};
use crate::verbatim::push_verbatim;
use engine_events::event::Name;
use inline_rows::InlineRow;
use markdown_options::Tables;
use parse_lines::Walk;
use std::alloc::{AllocError, Allocator};

/// The events of the rows of a content, and of what is left of it: spaces and tabs at its end. What is
/// open is kept in a list, whose memory is used again. What the rows don't end ends after them.
#[tactic(auto, using(crate::proofs::Rules::at_ends))]
pub fn push_rows<T: Tables, A: Allocator>(
    walk: &mut Walk<'_, A>,
    reading: &Reading<'_, T>,
    open: &mut Vec<Open, A>,
    rows: &[InlineRow<'_>],
) -> Result<(), AllocError>
    requires text { holds_text (still_open walk.old) ≡ true }
    ensures open { OnOk result (still_open walk.new ≡ still_open walk.old) }
    ensures written { OnOk result ((context : InlineContext) (leads : Target → LinkTexts) (at : ℕ → LinkTexts) (text bytes : List ℕ) (from : List InlineCode)
        (stop : Stop) → context.options.constructs ≡ reading.now.on.now → context.names ≡ T.reference_of reading.now.tables.now → HaveTextsOfBytes context.names
        → rows_view at rows.now ≡ inline_rows leads (inlines_from context from) → StandsInText text reading.now.content.now bytes from stop walk.old
        → WritesText context.options.constructs context.names text bytes (inlines_from context from) [] stop walk.old walk.new) }
{
    open.clear();
    for row in rows {
        push_row(walk, reading, open, *row)?;
    }
    while let Some(held) = open.pop() {
        leave(walk, reading, held)?;
    }
    let left = reading.content.len().saturating_sub(walk.place());
    walk.text(Name::SpaceOrTab, left)
}

/// The events of a row, which may begin something or end the innermost that is open.
#[tactic(auto, using(crate::proofs::Held::held_text, parse_output::proofs::Classes::text_may))]
fn push_row<T: Tables, A: Allocator>(
    walk: &mut Walk<'_, A>,
    reading: &Reading<'_, T>,
    open: &mut Vec<Open, A>,
    row: InlineRow<'_>,
) -> Result<(), AllocError>
    requires held { AreHeld open.old.items (still_open walk.old) }
    ensures open { OnOk result (open_around open.new.items walk.new ≡ open_around open.old.items walk.old) }
    ensures held { OnOk result (AreHeld open.new.items (still_open walk.new)) }
    ensures written { OnOk result (PassesRow reading.now.on.now (T.reference_of reading.now.tables.now) reading.now.content.now row.entry open.old.items
        open.new.items walk.old walk.new) }
{
    match row {
        InlineRow::Text(text) => walk.data(text.as_bytes().len()),
        InlineRow::Verbatim(verbatim) => push_verbatim(walk, reading, verbatim.text),
        InlineRow::Leaf(part) => push_leaf(walk, reading, part),
        InlineRow::Spelled(leaf) => push_spelled(walk, reading, leaf),
        InlineRow::EnterSpan(span) => enter_span(walk, reading, open, span),
        InlineRow::EnterLink(_) => enter_link(walk, open),
        InlineRow::EnterImage(_) => enter_image(walk, open),
        InlineRow::Call(label) => push_call(walk, reading, label),
        InlineRow::Exit => leave_innermost(walk, reading, open),
    }
}

/// The end of the innermost that is open.
#[tactic(auto, using(crate::proofs::LeavingAll::leave_last, crate::proofs::Held::held_last, crate::proofs::Held::held_less))]
fn leave_innermost<T: Tables, A: Allocator>(
    walk: &mut Walk<'_, A>,
    reading: &Reading<'_, T>,
    open: &mut Vec<Open, A>,
) -> Result<(), AllocError>
    requires held { AreHeld open.old.items (still_open walk.old) }
    ensures open { OnOk result (open_around open.new.items walk.new ≡ open_around open.old.items walk.old) }
    ensures held { OnOk result (AreHeld open.new.items (still_open walk.new)) }
    ensures written { OnOk result (PassesRow reading.now.on.now (T.reference_of reading.now.tables.now) reading.now.content.now Exit open.old.items
        open.new.items walk.old walk.new) }
{
    match open.pop() {
        Some(held) => leave(walk, reading, held),
        None => Ok(()),
    }
}

/// The end of what is open.
#[tactic(auto, using(crate::proofs::Rules::at_end), unfolding(parse_output::specs::Children::may_hold))]
fn leave<T: Tables, A: Allocator>(
    walk: &mut Walk<'_, A>,
    reading: &Reading<'_, T>,
    held: Open,
) -> Result<(), AllocError>
    requires held { still_open walk.old ≡ entered_open held (leave_open held (still_open walk.old)) }
    ensures open { OnOk result (still_open walk.new ≡ leave_open held (still_open walk.old)) }
    ensures written { OnOk result (PassesExit reading.now.on.now (T.reference_of reading.now.tables.now) reading.now.content.now held walk.old walk.new) }
{
    match held {
        Open::Span { span, size } => leave_span(walk, span, size),
        Open::Link => leave_label(walk, reading, Name::Link),
        Open::Image => leave_label(walk, reading, Name::Image),
    }
}
