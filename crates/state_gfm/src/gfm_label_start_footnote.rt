//! Starts of footnote calls (GFM).
//!
//! ```text
//! gfm_label_start_footnote ::= '[' '^'
//! ```
ghost use Rattle.std.specs.Prelude.{[], ◌∷◌};
ghost use Rattle.engine_events.specs.declared.event.Name.TheVariants as names;
ghost use Rattle.markdown_engine.specs.Machine.{constructs_of};
ghost use Rattle.engine_programs.specs.Bodies.{FixedName};
ghost use Rattle.engine_programs.specs.Stacks.{Does, IsOpen};
ghost use Rattle.state_gfm.specs.GfmLabelStartFootnote.{gfm_label_start_footnote_start, gfm_label_start_footnote_open};

use engine_programs::around::{around, leave};
use engine_programs::steps::around_to;
use markdown_engine::event::Name as EventName;
use markdown_engine::label::LabelKind;
use markdown_engine::state::{Inline, State};
use markdown_engine::tokenizer::Tokenizer;
use state_labels::start::start_label;
use state_table::next;
use std::alloc::Allocator;

/// At a `[`.
pub fn start<M, T, A: Allocator>(tokenizer: &mut Tokenizer<'_, M, T, A>) -> State
    ensures { Does (gfm_label_start_footnote_start (constructs_of tokenizer.old).gfm_label_start_footnote) tokenizer.old tokenizer.new result }
{
    if tokenizer.current != Some(b'[') {
        return State::Nok;
    }
    if tokenizer
        .parse_state
        .options
        .constructs
        .gfm_label_start_footnote
    {
        if tokenizer.enter(EventName::GfmFootnoteCallLabel).is_err() {
            return State::out_of_memory();
        }
        return around_to(
            tokenizer,
            EventName::LabelMarker,
            next(Inline::GfmLabelStartFootnoteOpen),
        );
    }
    State::Nok
}

/// After the `[`.
pub fn open<M, T, A: Allocator>(tokenizer: &mut Tokenizer<'_, M, T, A>) -> State
    requires { IsOpen (FixedName names.GfmFootnoteCallLabel ∷ []) tokenizer.old }
    ensures { Does gfm_label_start_footnote_open tokenizer.old tokenizer.new result }
{
    if tokenizer.current != Some(b'^') {
        return State::Nok;
    }
    if around(tokenizer, EventName::GfmFootnoteCallMarker).is_err() {
        return State::out_of_memory();
    }
    if leave(tokenizer, EventName::GfmFootnoteCallLabel).is_err() {
        return State::out_of_memory();
    }
    start_label(tokenizer, LabelKind::GfmFootnote, 6)
}
