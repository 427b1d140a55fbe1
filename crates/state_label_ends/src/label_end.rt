//! Ends of links, images and footnote calls (CommonMark 6.3 and 6.4, GFM).
//!
//! ```text
//! label_end ::= ']' [resource | reference_full | reference_collapsed]
//! resource ::= '(' [white] [destination [white title]] [white] ')'
//! reference_full ::= label
//! reference_collapsed ::= '[' ']'
//! white ::= 1*space_or_tab | [space_or_tab] line_ending [space_or_tab]
//! ```
//!
//! The nearest start that is left is taken, and used up. A link or a call that is formed makes all earlier
//! starts of links and footnotes inactive: `start` is where the last one began. A resource goes first, then
//! a full or a collapsed reference, whose label is defined, then a shortcut, which isn't followed by a
//! label or by `[]`.
ghost use Rattle.std.specs.Prelude.{[], ◌∷◌};
ghost use Rattle.engine_events.specs.declared.event.Name.TheVariants as names;
ghost use Rattle.markdown_engine.specs.Machine.{config, constructs_of, bytes_of, definitions_of, read_with};
ghost use Rattle.engine_programs.specs.Bodies.{FixedName};
ghost use Rattle.engine_programs.specs.Stacks.{Does, IsOpen};
ghost use Rattle.state_label_ends.specs.LabelEnd.{label_end_start, label_end_read, label_end_reference_not_full, label_end_ok};
ghost use Rattle.state_label_ends.specs.LabelEnd.{label_end_nok, label_end_resource_start, label_end_resource_before};
ghost use Rattle.state_label_ends.specs.LabelEnd.{label_end_resource_open, label_end_resource_destination_after};
ghost use Rattle.state_label_ends.specs.LabelEnd.{label_end_resource_destination_missing, label_end_resource_between};
ghost use Rattle.state_label_ends.specs.LabelEnd.{label_end_resource_title_after, label_end_resource_end, label_end_reference_full};
ghost use Rattle.state_label_ends.specs.LabelEnd.{label_end_reference_full_after, label_end_reference_full_missing};
ghost use Rattle.state_label_ends.specs.LabelEnd.{label_end_reference_collapsed, label_end_reference_collapsed_open};
ghost use Rattle.std.specs.Prelude.{◌≡◌, ◌++◌, Some, OnOk};
ghost use Rattle.engine_states.specs.declared.label.LabelKind.TheVariants as kinds;
ghost use Rattle.state_label_ends.specs.Definitions.{has_kind, last_start};
ghost use Rattle.state_label_ends.specs.LabelEnd.{end_after_link, end_follow, end_form, end_loosen, end_undefine, formed_start};
ghost use Rattle.state_label_ends.specs.LabelEnd.{has_start, is_inactive, is_reference_defined, undefined_start};
ghost use Rattle.state_label_ends.specs.LabelEnd.{without_last};

use crate::definitions::{is_call_defined, is_link_defined, is_reference_defined};
use engine_programs::around::{around, begin};
use engine_programs::steps::{around_to, attempt_to, exit_to};
use markdown_engine::event::Name as EventName;
use markdown_engine::label::{Label, LabelKind, LabelStart};
use markdown_engine::resolve;
use markdown_engine::state::{Inline, State};
use markdown_engine::tokenizer::Tokenizer;
use markdown_options::constants::RESOURCE_DESTINATION_BALANCE_MAX;
use state_table::{next, retry};
use std::alloc::{AllocError, Allocator};

/// The last label start that is left.
fn last_start<M, T, A: Allocator>(tokenizer: &Tokenizer<'_, M, T, A>) -> Option<LabelStart>
    ensures { result ≡ last_start tokenizer.now.tokenize_state.label_starts.items }
{
    tokenizer.tokenize_state.label_starts.last().copied()
}

/// Whether a label start is left.
fn has_start<M, T, A: Allocator>(tokenizer: &Tokenizer<'_, M, T, A>) -> bool
    ensures { result ≡ has_start (config tokenizer.now) }
{
    last_start(tokenizer).is_some()
}

/// Whether the last start begins no link, since one was formed after it.
fn is_inactive<M, T, A: Allocator>(tokenizer: &Tokenizer<'_, M, T, A>) -> bool
    ensures { result ≡ is_inactive tokenizer.now.tokenize_state.start (last_start tokenizer.now.tokenize_state.label_starts.items) }
{
    match last_start(tokenizer) {
        Some(start) => {
            start.kind != LabelKind::Image && start.start.0 < tokenizer.tokenize_state.start
        }
        None => false,
    }
}

/// Whether the last start is a footnote's.
fn is_footnote<M, T, A: Allocator>(tokenizer: &Tokenizer<'_, M, T, A>) -> bool
    ensures { result ≡ has_kind kinds.GfmFootnote (last_start tokenizer.now.tokenize_state.label_starts.items) }
{
    match last_start(tokenizer) {
        Some(start) => start.kind == LabelKind::GfmFootnote,
        None => false,
    }
}

/// Drops the last start.
fn drop_start<A: Allocator>(starts: &mut Vec<LabelStart, A>)
    ensures { starts.new.items ≡ without_last starts.old.items }
{
    starts.truncate(starts.len().saturating_sub(1));
}

/// Keeps that the last start is a footnote's, and no call.
fn undefine<A: Allocator>(starts: &mut Vec<LabelStart, A>) -> Result<(), AllocError>
    ensures { OnOk result (starts.new.items ≡ without_last starts.old.items ++ undefined_start (last_start starts.old.items)) }
{
    let Some(start) = starts.last().copied() else {
        return Ok(());
    };
    drop_start(starts);
    starts.push(LabelStart {
        kind: LabelKind::GfmUndefinedFootnote,
        start: start.start,
        inactive: start.inactive,
    })?;
    Ok(())
}

/// At what follows a text: another state than a label's end where there is none.
fn follow<M, T, A: Allocator>(tokenizer: &mut Tokenizer<'_, M, T, A>, other: Inline) -> State
    ensures { Does (end_follow other) tokenizer.old tokenizer.new result }
{
    match tokenizer.current {
        Some(b'(') => attempt_to(
            tokenizer,
            next(Inline::LabelEndOk),
            next(other),
            retry(Inline::LabelEndResourceStart),
        ),
        Some(b'[') => attempt_to(
            tokenizer,
            next(Inline::LabelEndOk),
            next(Inline::LabelEndReferenceNotFull),
            retry(Inline::LabelEndReferenceFull),
        ),
        _ => retry(other),
    }
}

/// At what follows the text of a link or an image.
fn after_link<M, T, A: Allocator>(tokenizer: &mut Tokenizer<'_, M, T, A>) -> State
    ensures { Does (end_after_link (bytes_of tokenizer.old) (definitions_of tokenizer.old)) tokenizer.old tokenizer.new result }
{
    match is_link_defined(tokenizer) {
        Ok(true) => follow(tokenizer, Inline::LabelEndOk),
        Ok(false) => follow(tokenizer, Inline::LabelEndNok),
        Err(_) => State::out_of_memory(),
    }
}

/// At what follows the text of a footnote's start that is no call.
fn after_no_call<M, T, A: Allocator>(tokenizer: &mut Tokenizer<'_, M, T, A>) -> State
    ensures { Does (end_undefine (end_after_link (bytes_of tokenizer.old) (definitions_of tokenizer.old))) tokenizer.old tokenizer.new result }
{
    if undefine(&mut tokenizer.tokenize_state.label_starts).is_err() {
        return State::out_of_memory();
    }
    after_link(tokenizer)
}

/// Keeps the label that is formed.
fn form<M, T, A: Allocator>(tokenizer: &mut Tokenizer<'_, M, T, A>) -> State
    ensures { Does end_form tokenizer.old tokenizer.new result }
{
    let Some(start) = last_start(tokenizer) else {
        return State::Nok;
    };
    let label = Label {
        kind: start.kind,
        start: start.start,
        end: (
            tokenizer.tokenize_state.end,
            tokenizer.events.len().saturating_sub(1),
        ),
    };
    if tokenizer.tokenize_state.labels.push(label).is_err() {
        return State::out_of_memory();
    }
    drop_start(&mut tokenizer.tokenize_state.label_starts);
    tokenizer.tokenize_state.start = formed_start(tokenizer.tokenize_state.start, &start);
    tokenizer.tokenize_state.end = 0;
    match tokenizer.register_resolver_before(resolve::Name::Label) {
        Ok(()) => State::Ok,
        Err(_) => State::out_of_memory(),
    }
}

/// Where the last link or call that was formed began.
fn formed_start(formed: usize, start: &LabelStart) -> usize
    ensures { result ≡ formed_start formed (Some start.now) }
{
    if start.kind == LabelKind::Image {
        formed
    } else {
        start.start.0
    }
}

/// Keeps that the last start found no end.
fn loosen<M, T, A: Allocator>(tokenizer: &mut Tokenizer<'_, M, T, A>) -> State
    ensures { Does end_loosen tokenizer.old tokenizer.new result }
{
    if let Some(start) = last_start(tokenizer) {
        if tokenizer
            .tokenize_state
            .label_starts_loose
            .push(start)
            .is_err()
        {
            return State::out_of_memory();
        }
    }
    drop_start(&mut tokenizer.tokenize_state.label_starts);
    tokenizer.tokenize_state.end = 0;
    State::Nok
}

/// At a `]`.
pub fn start<M, T, A: Allocator>(tokenizer: &mut Tokenizer<'_, M, T, A>) -> State
    ensures { Does (label_end_start (constructs_of tokenizer.old).label_end) tokenizer.old tokenizer.new result }
{
    if tokenizer.current != Some(b']') {
        return State::Nok;
    }
    if tokenizer.parse_state.options.constructs.label_end {
        if has_start(tokenizer) {
            tokenizer.tokenize_state.end = tokenizer.events.len();
            if is_inactive(tokenizer) {
                return retry(Inline::LabelEndNok);
            }
            if begin(tokenizer, EventName::LabelEnd).is_err() {
                return State::out_of_memory();
            }
            if around(tokenizer, EventName::LabelMarker).is_err() {
                return State::out_of_memory();
            }
            return exit_to(tokenizer, EventName::LabelEnd, next(Inline::LabelEndAfter));
        }
        return State::Nok;
    }
    State::Nok
}

/// After the `]`.
pub fn after<M, T, A: Allocator>(tokenizer: &mut Tokenizer<'_, M, T, A>) -> State
    ensures { Does (label_end_read (read_with tokenizer.old)) tokenizer.old tokenizer.new result }
{
    if !is_footnote(tokenizer) {
        after_link(tokenizer)
    } else {
        match is_call_defined(tokenizer) {
            Ok(true) => retry(Inline::LabelEndOk),
            Ok(false) => {
                if tokenizer.parse_state.options.constructs.label_start_link {
                    after_no_call(tokenizer)
                } else {
                    retry(Inline::LabelEndNok)
                }
            },
            Err(_) => State::out_of_memory()
        }
    }
}

/// If there is no full reference. After a label that isn't defined there is no other reference.
pub fn reference_not_full<M, T, A: Allocator>(tokenizer: &mut Tokenizer<'_, M, T, A>) -> State
    ensures { Does (label_end_reference_not_full (bytes_of tokenizer.old) (definitions_of tokenizer.old)) tokenizer.old tokenizer.new result }
{
    if tokenizer.tokenize_state.seen {
        retry(Inline::LabelEndNok)
    } else {
        match is_link_defined(tokenizer) {
            Ok(true) => attempt_to(
                tokenizer,
                next(Inline::LabelEndOk),
                next(Inline::LabelEndOk),
                retry(Inline::LabelEndReferenceCollapsed),
            ),
            Ok(false) => retry(Inline::LabelEndNok),
            Err(_) => State::out_of_memory()
        }
    }
}

/// Where a link, an image or a call ends.
pub fn ok<M, T, A: Allocator>(tokenizer: &mut Tokenizer<'_, M, T, A>) -> State
    ensures { Does label_end_ok tokenizer.old tokenizer.new result }
{
    form(tokenizer)
}

/// If no label ends here.
pub fn nok<M, T, A: Allocator>(tokenizer: &mut Tokenizer<'_, M, T, A>) -> State
    ensures { Does label_end_nok tokenizer.old tokenizer.new result }
{
    loosen(tokenizer)
}

/// At a `(`.
pub fn resource_start<M, T, A: Allocator>(tokenizer: &mut Tokenizer<'_, M, T, A>) -> State
    ensures { Does label_end_resource_start tokenizer.old tokenizer.new result }
{
    if tokenizer.current != Some(b'(') {
        return State::Nok;
    }
    tokenizer.tokenize_state.connect = false;
    if tokenizer.enter(EventName::Resource).is_err() {
        return State::out_of_memory();
    }
    around_to(
        tokenizer,
        EventName::ResourceMarker,
        next(Inline::LabelEndResourceBefore),
    )
}

/// After the `(`.
pub fn resource_before<M, T, A: Allocator>(tokenizer: &mut Tokenizer<'_, M, T, A>) -> State
    ensures { Does label_end_resource_before tokenizer.old tokenizer.new result }
{
    match tokenizer.current {
        Some(b'\t' | b'\n' | b' ') => attempt_to(
            tokenizer,
            next(Inline::LabelEndResourceOpen),
            next(Inline::LabelEndResourceOpen),
            retry(Inline::SpaceOrTabEolStart),
        ),
        _ => retry(Inline::LabelEndResourceOpen),
    }
}

/// Before a destination, or at the `)`.
pub fn resource_open<M, T, A: Allocator>(tokenizer: &mut Tokenizer<'_, M, T, A>) -> State
    ensures { Does label_end_resource_open tokenizer.old tokenizer.new result }
{
    match tokenizer.current {
        Some(b')') => retry(Inline::LabelEndResourceEnd),
        _ => {
            tokenizer.tokenize_state.token_1 = EventName::ResourceDestination;
            tokenizer.tokenize_state.token_2 = EventName::ResourceDestinationLiteral;
            tokenizer.tokenize_state.token_3 = EventName::ResourceDestinationLiteralMarker;
            tokenizer.tokenize_state.token_4 = EventName::ResourceDestinationRaw;
            tokenizer.tokenize_state.token_5 = EventName::ResourceDestinationString;
            tokenizer.tokenize_state.size_b = RESOURCE_DESTINATION_BALANCE_MAX;
            attempt_to(
                tokenizer,
                next(Inline::LabelEndResourceDestinationAfter),
                next(Inline::LabelEndResourceDestinationMissing),
                retry(Inline::DestinationStart),
            )
        },
    }
}

/// After the destination.
pub fn resource_destination_after<M, T, A: Allocator>(
    tokenizer: &mut Tokenizer<'_, M, T, A>,
) -> State
    ensures { Does label_end_resource_destination_after tokenizer.old tokenizer.new result }
{
    match tokenizer.current {
        Some(b'\t' | b'\n' | b' ') => attempt_to(
            tokenizer,
            next(Inline::LabelEndResourceBetween),
            next(Inline::LabelEndResourceEnd),
            retry(Inline::SpaceOrTabEolStart),
        ),
        _ => retry(Inline::LabelEndResourceEnd),
    }
}

/// If there is no destination.
pub fn resource_destination_missing<M, T, A: Allocator>(
    tokenizer: &mut Tokenizer<'_, M, T, A>,
) -> State
    ensures { Does label_end_resource_destination_missing tokenizer.old tokenizer.new result }
{
    State::Nok
}

/// After the destination and white space.
pub fn resource_between<M, T, A: Allocator>(tokenizer: &mut Tokenizer<'_, M, T, A>) -> State
    ensures { Does label_end_resource_between tokenizer.old tokenizer.new result }
{
    match tokenizer.current {
        Some(b'"' | b'\'' | b'(') => {
            tokenizer.tokenize_state.token_1 = EventName::ResourceTitle;
            tokenizer.tokenize_state.token_2 = EventName::ResourceTitleMarker;
            tokenizer.tokenize_state.token_3 = EventName::ResourceTitleString;
            attempt_to(
                tokenizer,
                next(Inline::LabelEndResourceTitleAfter),
                State::Nok,
                retry(Inline::TitleStart),
            )
        },
        _ => retry(Inline::LabelEndResourceEnd),
    }
}

/// After the title.
pub fn resource_title_after<M, T, A: Allocator>(tokenizer: &mut Tokenizer<'_, M, T, A>) -> State
    ensures { Does label_end_resource_title_after tokenizer.old tokenizer.new result }
{
    match tokenizer.current {
        Some(b'\t' | b'\n' | b' ') => attempt_to(
            tokenizer,
            next(Inline::LabelEndResourceEnd),
            next(Inline::LabelEndResourceEnd),
            retry(Inline::SpaceOrTabEolStart),
        ),
        _ => retry(Inline::LabelEndResourceEnd),
    }
}

/// At the `)`.
pub fn resource_end<M, T, A: Allocator>(tokenizer: &mut Tokenizer<'_, M, T, A>) -> State
    requires { IsOpen (FixedName names.Resource ∷ []) tokenizer.old }
    ensures { Does label_end_resource_end tokenizer.old tokenizer.new result }
{
    if tokenizer.current != Some(b')') {
        return State::Nok;
    }
    if around(tokenizer, EventName::ResourceMarker).is_err() {
        return State::out_of_memory();
    }
    exit_to(tokenizer, EventName::Resource, State::Ok)
}

/// At a `[`.
pub fn reference_full<M, T, A: Allocator>(tokenizer: &mut Tokenizer<'_, M, T, A>) -> State
    ensures { Does label_end_reference_full tokenizer.old tokenizer.new result }
{
    if tokenizer.current != Some(b'[') {
        return State::Nok;
    }
    tokenizer.tokenize_state.token_1 = EventName::Reference;
    tokenizer.tokenize_state.token_2 = EventName::ReferenceMarker;
    tokenizer.tokenize_state.token_3 = EventName::ReferenceString;
    attempt_to(
        tokenizer,
        next(Inline::LabelEndReferenceFullAfter),
        next(Inline::LabelEndReferenceFullMissing),
        retry(Inline::LabelStart),
    )
}

/// After a label.
pub fn reference_full_after<M, T, A: Allocator>(tokenizer: &mut Tokenizer<'_, M, T, A>) -> State
    ensures { Does (label_end_reference_full_after (bytes_of tokenizer.old) (definitions_of tokenizer.old)) tokenizer.old tokenizer.new result }
{
    tokenizer.tokenize_state.seen = true;
    match is_reference_defined(tokenizer) {
        Ok(true) => State::Ok,
        Ok(false) => State::Nok,
        Err(_) => State::out_of_memory()
    }
}

/// If there is no label.
pub fn reference_full_missing<M, T, A: Allocator>(tokenizer: &mut Tokenizer<'_, M, T, A>) -> State
    ensures { Does label_end_reference_full_missing tokenizer.old tokenizer.new result }
{
    tokenizer.tokenize_state.seen = false;
    State::Nok
}

/// At a `[`.
pub fn reference_collapsed<M, T, A: Allocator>(tokenizer: &mut Tokenizer<'_, M, T, A>) -> State
    ensures { Does label_end_reference_collapsed tokenizer.old tokenizer.new result }
{
    if tokenizer.current != Some(b'[') {
        return State::Nok;
    }
    if tokenizer.enter(EventName::Reference).is_err() {
        return State::out_of_memory();
    }
    around_to(
        tokenizer,
        EventName::ReferenceMarker,
        next(Inline::LabelEndReferenceCollapsedOpen),
    )
}

/// At the `]`.
pub fn reference_collapsed_open<M, T, A: Allocator>(tokenizer: &mut Tokenizer<'_, M, T, A>) -> State
    requires { IsOpen (FixedName names.Reference ∷ []) tokenizer.old }
    ensures { Does label_end_reference_collapsed_open tokenizer.old tokenizer.new result }
{
    if tokenizer.current != Some(b']') {
        return State::Nok;
    }
    if around(tokenizer, EventName::ReferenceMarker).is_err() {
        return State::out_of_memory();
    }
    exit_to(tokenizer, EventName::Reference, State::Ok)
}
