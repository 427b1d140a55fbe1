//! Links and images (CommonMark 6.3 and 6.4).
ghost use Rattle.std.specs.Prelude.{[], ◌∷◌, ◌≡◌, ◌++◌, List, OnOk, true, ℕ};
ghost use Rattle.definition_inline.specs.Inline.{Target};
ghost use Rattle.definition_inline.specs.Scan.{InlineContext};
ghost use Rattle.definition_text.specs.Ascii.{exclamation_mark, left_bracket, right_bracket};
ghost use Rattle.definition_text.specs.Columns.{Code};
ghost use Rattle.definition_text.specs.Content.{text_before};
ghost use Rattle.definition_text.specs.InlineCode.{InlineCode, codes_of};
ghost use Rattle.engine_events.specs.declared.event.Name.TheVariants.{Image, LabelEnd, LabelImage, LabelLink, LabelText, Link, Reference, Resource};
ghost use Rattle.parse_output.specs.Children.{may_enter};
ghost use Rattle.parse_output.specs.Open.{closed};
ghost use Rattle.parse_lines.specs.InContent.{IsWhole, StandsInContent, Stop};
ghost use Rattle.parse_lines.specs.Open.{still_open};
ghost use Rattle.parse_inline.specs.declared.opened.Open.TheVariants as held;
ghost use Rattle.parse_inline.specs.Leaving.{AreHeld, leave_label, open_around};
ghost use Rattle.parse_inline.specs.Rows.{EndsLabel, EntersLabel, LeavesLinked, WritesBehind, WritesMark};
ghost use Rattle.parse_inline.specs.Texts.{StandsInText};
ghost use Rattle.parse_written.specs.Bytes.{AreBytesAt};
ghost use Rattle.parse_written.specs.Tails.{HasTail};
ghost use Rattle.parse_written.specs.Written.{EndsLinked};

use crate::opened::Open;
use crate::reading::Reading;
use engine_events::event::Name;
use inline_links::resource::resource;
use markdown_options::Tables;
use parse_lines::Walk;
use parse_links::{push_link_reference, push_resource};
use std::alloc::{AllocError, Allocator};

/// The start of a link.
#[tactic(auto, using(parse_output::proofs::Classes::enters_in), unfolding(parse_output::specs::Children::may_hold))]
pub(crate) fn enter_link<A: Allocator>(
    walk: &mut Walk<'_, A>,
    open: &mut Vec<Open, A>,
) -> Result<(), AllocError>
    requires child { may_enter (still_open walk.old) Link ≡ true }
    requires held { AreHeld open.old.items (still_open walk.old) }
    ensures open { OnOk result (open_around open.new.items walk.new ≡ open_around open.old.items walk.old) }
    ensures held { OnOk result (AreHeld open.new.items (still_open walk.new)) }
    ensures opened { OnOk result (open.new.items ≡ open.old.items ++ held.Link ∷ []) }
    ensures written { OnOk result ((text content : List ℕ) (stop : Stop) → StandsInContent text (left_bracket ∷ content) stop walk.old → IsWhole walk.old
        → EntersLabel text Link LabelLink (left_bracket ∷ []) content stop walk.old walk.new) }
{
    open.push(Open::Link)?;
    walk.enter(Name::Link)?;
    walk.enter(Name::Label)?;
    link_start(walk)?;
    walk.enter(Name::LabelText)?;
    Ok(())
}

/// The start of an image.
#[tactic(auto, using(parse_output::proofs::Classes::enters_in), unfolding(parse_output::specs::Children::may_hold))]
pub(crate) fn enter_image<A: Allocator>(
    walk: &mut Walk<'_, A>,
    open: &mut Vec<Open, A>,
) -> Result<(), AllocError>
    requires child { may_enter (still_open walk.old) Image ≡ true }
    requires held { AreHeld open.old.items (still_open walk.old) }
    ensures open { OnOk result (open_around open.new.items walk.new ≡ open_around open.old.items walk.old) }
    ensures held { OnOk result (AreHeld open.new.items (still_open walk.new)) }
    ensures opened { OnOk result (open.new.items ≡ open.old.items ++ held.Image ∷ []) }
    ensures written { OnOk result ((text content : List ℕ) (stop : Stop) → StandsInContent text (exclamation_mark ∷ left_bracket ∷ content) stop walk.old
        → IsWhole walk.old → EntersLabel text Image LabelImage (exclamation_mark ∷ left_bracket ∷ []) content stop walk.old walk.new) }
{
    open.push(Open::Image)?;
    walk.enter(Name::Image)?;
    walk.enter(Name::Label)?;
    image_start(walk)?;
    walk.enter(Name::LabelText)?;
    Ok(())
}

/// What begins the label of a link.
#[tactic(auto, using(parse_output::proofs::Classes::enters_in), unfolding(parse_output::specs::Children::may_hold))]
fn link_start<A: Allocator>(walk: &mut Walk<'_, A>) -> Result<(), AllocError>
    requires child { may_enter (still_open walk.old) LabelLink ≡ true }
    ensures open { OnOk result (still_open walk.new ≡ still_open walk.old) }
    ensures written { OnOk result ((text content : List ℕ) (stop : Stop) → StandsInContent text (left_bracket ∷ content) stop walk.old → IsWhole walk.old
        → WritesMark text LabelLink (left_bracket ∷ []) content stop walk.old walk.new) }
{
    walk.enter(Name::LabelLink)?;
    walk.text(Name::LabelMarker, 1)?;
    walk.exit(Name::LabelLink)
}

/// What begins the label of an image.
#[tactic(auto, using(parse_output::proofs::Classes::enters_in), unfolding(parse_output::specs::Children::may_hold))]
fn image_start<A: Allocator>(walk: &mut Walk<'_, A>) -> Result<(), AllocError>
    requires child { may_enter (still_open walk.old) LabelImage ≡ true }
    ensures open { OnOk result (still_open walk.new ≡ still_open walk.old) }
    ensures written { OnOk result ((text content : List ℕ) (stop : Stop) → StandsInContent text (exclamation_mark ∷ left_bracket ∷ content) stop walk.old
        → IsWhole walk.old → WritesMark text LabelImage (exclamation_mark ∷ left_bracket ∷ []) content stop walk.old walk.new) }
{
    walk.enter(Name::LabelImage)?;
    walk.text(Name::LabelImageMarker, 1)?;
    walk.text(Name::LabelMarker, 1)?;
    walk.exit(Name::LabelImage)
}

/// The end of a link or an image, with what follows its label: a resource, where one is written, and
/// otherwise a reference or nothing.
pub(crate) fn leave_label<T: Tables, A: Allocator>(
    walk: &mut Walk<'_, A>,
    reading: &Reading<'_, T>,
    name: Name,
) -> Result<(), AllocError>
    requires label { may_enter (closed LabelText (still_open walk.old)) LabelEnd ≡ true }
    requires resource { may_enter (leave_label (still_open walk.old)) Resource ≡ true }
    requires reference { may_enter (leave_label (still_open walk.old)) Reference ≡ true }
    ensures open { OnOk result (still_open walk.new ≡ closed name (leave_label (still_open walk.old))) }
    ensures written { OnOk result ((context : InlineContext) (target : Target) (text content : List ℕ) (inside from to : List InlineCode) (stop : Stop)
        → context.options.constructs ≡ reading.now.on.now → context.names ≡ T.reference_of reading.now.tables.now
        → EndsLinked context target inside from to → StandsInText text reading.now.content.now content from stop walk.old
        → LeavesLinked context text name target (text_before (codes_of inside) (codes_of from)) content to stop walk.old walk.new) }
{
    label_end(walk)?;
    let rest = reading.rest(walk.place());
    push_behind(walk, reading, rest)?;
    walk.exit(name)
}

/// What is behind a label: a resource, where one is written, and otherwise a reference or nothing.
fn push_behind<T: Tables, A: Allocator>(
    walk: &mut Walk<'_, A>,
    reading: &Reading<'_, T>,
    rest: &str,
) -> Result<(), AllocError>
    requires resource { may_enter (still_open walk.old) Resource ≡ true }
    requires reference { may_enter (still_open walk.old) Reference ≡ true }
    ensures open { OnOk result (still_open walk.new ≡ still_open walk.old) }
    ensures written { OnOk result ((context : InlineContext) (target : Target) (text : List ℕ) (own_text : List Code) (from to : List InlineCode) (stop : Stop)
        → context.options.constructs ≡ reading.now.on.now → context.names ≡ T.reference_of reading.now.tables.now
        → HasTail own_text target from to → AreBytesAt rest.now from → StandsInContent text rest.now stop walk.old → IsWhole walk.old
        → WritesBehind context text target own_text rest.now to stop walk.old walk.new) }
{
    match resource(rest.as_bytes()) {
        Some(found) => push_resource(walk, reading.on, reading.tables, rest, &found),
        None => push_link_reference(walk, reading.on, reading.tables, rest),
    }
}

/// What ends the label.
#[tactic(auto, using(parse_output::proofs::Classes::enters_in), unfolding(parse_output::specs::Children::may_hold))]
pub(crate) fn label_end<A: Allocator>(walk: &mut Walk<'_, A>) -> Result<(), AllocError>
    requires label { may_enter (closed LabelText (still_open walk.old)) LabelEnd ≡ true }
    ensures open { OnOk result (still_open walk.new ≡ leave_label (still_open walk.old)) }
    ensures written { OnOk result ((text content : List ℕ) (stop : Stop) → StandsInContent text (right_bracket ∷ content) stop walk.old → IsWhole walk.old
        → EndsLabel text content stop walk.old walk.new) }
{
    walk.exit(Name::LabelText)?;
    end_mark(walk)?;
    walk.exit(Name::Label)
}

/// The `]`.
#[tactic(auto, using(parse_output::proofs::Classes::enters_in), unfolding(parse_output::specs::Children::may_hold))]
fn end_mark<A: Allocator>(walk: &mut Walk<'_, A>) -> Result<(), AllocError>
    requires child { may_enter (still_open walk.old) LabelEnd ≡ true }
    ensures open { OnOk result (still_open walk.new ≡ still_open walk.old) }
    ensures written { OnOk result ((text content : List ℕ) (stop : Stop) → StandsInContent text (right_bracket ∷ content) stop walk.old → IsWhole walk.old
        → WritesMark text LabelEnd (right_bracket ∷ []) content stop walk.old walk.new) }
{
    walk.enter(Name::LabelEnd)?;
    walk.text(Name::LabelMarker, 1)?;
    walk.exit(Name::LabelEnd)
}
