//! Checks of task list items (GFM 5.3).
//!
//! ```text
//! gfm_task_list_item_check ::= '[' (' ' | tab | line_ending | 'x' | 'X') ']'
//! ```
//!
//! White space that isn't the end of the content follows. A tab is one byte here, however many columns it has.
ghost use Rattle.std.specs.Prelude.{[], ◌∷◌};
ghost use Rattle.engine_events.specs.declared.event.Name.TheVariants as names;
ghost use Rattle.markdown_engine.specs.Machine.{constructs_of};
ghost use Rattle.engine_programs.specs.Bodies.{FixedName};
ghost use Rattle.engine_programs.specs.Stacks.{Does, IsOpen};
ghost use Rattle.state_gfm.specs.GfmTaskListItemCheck.{gfm_task_list_item_check_start, gfm_task_list_item_check_inside};
ghost use Rattle.state_gfm.specs.GfmTaskListItemCheck.{gfm_task_list_item_check_close, gfm_task_list_item_check_after};
ghost use Rattle.state_gfm.specs.GfmTaskListItemCheck.{gfm_task_list_item_check_after_space_or_tab};

use engine_programs::around::around;
use engine_programs::steps::{around_to, attempt_to, check_to, consume_to, exit_to};
use markdown_engine::event::Name as EventName;
use markdown_engine::state::{Inline, State};
use markdown_engine::tokenizer::Tokenizer;
use state_table::{next, retry};
use std::alloc::Allocator;

/// At a `[`.
pub fn start<M, T, A: Allocator>(tokenizer: &mut Tokenizer<'_, M, T, A>) -> State
    ensures { Does (gfm_task_list_item_check_start (constructs_of tokenizer.old).gfm_task_list_item) tokenizer.old tokenizer.new result }
{
    if tokenizer.current != Some(b'[') {
        return State::Nok;
    }
    if tokenizer.parse_state.options.constructs.gfm_task_list_item {
        if tokenizer.enter(EventName::GfmTaskListItemCheck).is_err() {
            return State::out_of_memory();
        }
        return around_to(
            tokenizer,
            EventName::GfmTaskListItemMarker,
            next(Inline::GfmTaskListItemCheckInside),
        );
    }
    State::Nok
}

/// After the `[`.
pub fn inside<M, T, A: Allocator>(tokenizer: &mut Tokenizer<'_, M, T, A>) -> State
    ensures { Does gfm_task_list_item_check_inside tokenizer.old tokenizer.new result }
{
    match tokenizer.current {
        Some(b'\t' | b'\n' | b' ') => around_to(
            tokenizer,
            EventName::GfmTaskListItemValueUnchecked,
            next(Inline::GfmTaskListItemCheckClose),
        ),
        Some(b'x' | b'X') => around_to(
            tokenizer,
            EventName::GfmTaskListItemValueChecked,
            next(Inline::GfmTaskListItemCheckClose),
        ),
        _ => State::Nok,
    }
}

/// At the `]`, or at a further column of the tab before it.
pub fn close<M, T, A: Allocator>(tokenizer: &mut Tokenizer<'_, M, T, A>) -> State
    requires { IsOpen (FixedName names.GfmTaskListItemCheck ∷ []) tokenizer.old }
    ensures { Does gfm_task_list_item_check_close tokenizer.old tokenizer.new result }
{
    match tokenizer.current {
        Some(b']') => {
            if around(tokenizer, EventName::GfmTaskListItemMarker).is_err() {
                return State::out_of_memory();
            }
            exit_to(
                tokenizer,
                EventName::GfmTaskListItemCheck,
                next(Inline::GfmTaskListItemCheckAfter),
            )
        },
        Some(b' ') if tokenizer.point.vs > 0 && tokenizer.previous != Some(b'\n') => {
            consume_to(tokenizer, next(Inline::GfmTaskListItemCheckClose))
        },
        _ => State::Nok,
    }
}

/// After the `]`: looks ahead.
pub fn after<M, T, A: Allocator>(tokenizer: &mut Tokenizer<'_, M, T, A>) -> State
    ensures { Does gfm_task_list_item_check_after tokenizer.old tokenizer.new result }
{
    match tokenizer.current {
        Some(b'\n') => State::Ok,
        Some(b'\t' | b' ') => check_to(
            tokenizer,
            State::Ok,
            State::Nok,
            retry(Inline::GfmTaskListItemCheckAfterSpaceOrTab),
        ),
        _ => State::Nok,
    }
}

/// Before or after spaces and tabs, which something follows.
pub fn after_space_or_tab<M, T, A: Allocator>(tokenizer: &mut Tokenizer<'_, M, T, A>) -> State
    ensures { Does gfm_task_list_item_check_after_space_or_tab tokenizer.old tokenizer.new result }
{
    match tokenizer.current {
        None => State::Nok,
        Some(b'\t' | b' ') => {
            tokenizer.tokenize_state.size_c = usize::MAX;
            attempt_to(
                tokenizer,
                next(Inline::GfmTaskListItemCheckAfterSpaceOrTab),
                State::Nok,
                retry(Inline::SpaceOrTabStart),
            )
        },
        Some(_) => State::Ok,
    }
}
