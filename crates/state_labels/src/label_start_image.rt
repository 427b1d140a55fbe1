//! Starts of images (CommonMark 6.4).
//!
//! ```text
//! label_start_image ::= '!' '['
//! ```
ghost use Rattle.std.specs.Prelude.{[], ◌∷◌};
ghost use Rattle.engine_events.specs.declared.event.Name.TheVariants as names;
ghost use Rattle.markdown_engine.specs.Machine.{constructs_of};
ghost use Rattle.engine_programs.specs.Bodies.{FixedName};
ghost use Rattle.engine_programs.specs.Stacks.{Does, IsOpen};
ghost use Rattle.state_labels.specs.LabelStartImage.{label_start_image_start, label_start_image_open, label_start_image_after};

use crate::start::start_label;
use engine_programs::around::around;
use engine_programs::steps::{around_to, exit_to};
use markdown_engine::event::Name as EventName;
use markdown_engine::label::LabelKind;
use markdown_engine::state::{Inline, State};
use markdown_engine::tokenizer::Tokenizer;
use state_table::next;
use std::alloc::Allocator;

/// At a `!`.
pub fn start<M, T, A: Allocator>(tokenizer: &mut Tokenizer<'_, M, T, A>) -> State
    ensures { Does (label_start_image_start (constructs_of tokenizer.old).label_start_image) tokenizer.old tokenizer.new result }
{
    if tokenizer.current != Some(b'!') {
        return State::Nok;
    }
    if tokenizer.parse_state.options.constructs.label_start_image {
        if tokenizer.enter(EventName::LabelImage).is_err() {
            return State::out_of_memory();
        }
        return around_to(
            tokenizer,
            EventName::LabelImageMarker,
            next(Inline::LabelStartImageOpen),
        );
    }
    State::Nok
}

/// After the `!`.
pub fn open<M, T, A: Allocator>(tokenizer: &mut Tokenizer<'_, M, T, A>) -> State
    requires { IsOpen (FixedName names.LabelImage ∷ []) tokenizer.old }
    ensures { Does label_start_image_open tokenizer.old tokenizer.new result }
{
    if tokenizer.current != Some(b'[') {
        return State::Nok;
    }
    if around(tokenizer, EventName::LabelMarker).is_err() {
        return State::out_of_memory();
    }
    exit_to(
        tokenizer,
        EventName::LabelImage,
        next(Inline::LabelStartImageAfter),
    )
}

/// After the `[`: while footnotes are called, no `^` follows.
pub fn after<M, T, A: Allocator>(tokenizer: &mut Tokenizer<'_, M, T, A>) -> State
    ensures { Does (label_start_image_after (constructs_of tokenizer.old).gfm_label_start_footnote) tokenizer.old tokenizer.new result }
{
    match tokenizer.current {
        Some(b'^') => {
            if tokenizer
                .parse_state
                .options
                .constructs
                .gfm_label_start_footnote
            {
                State::Nok
            } else {
                start_label(tokenizer, LabelKind::Image, 6)
            }
        },
        _ => start_label(tokenizer, LabelKind::Image, 6),
    }
}
