//! Starts of links (CommonMark 6.3).
//!
//! ```text
//! label_start_link ::= '['
//! ```
ghost use Rattle.markdown_engine.specs.Machine.{constructs_of};
ghost use Rattle.engine_programs.specs.Stacks.{Does};
ghost use Rattle.state_labels.specs.LabelStartLink.{label_start_link_start};

use crate::start::start_label;
use engine_programs::around::{around, begin, leave};
use markdown_engine::event::Name as EventName;
use markdown_engine::label::LabelKind;
use markdown_engine::state::State;
use markdown_engine::tokenizer::Tokenizer;
use std::alloc::Allocator;

/// At a `[`.
pub fn start<M, T, A: Allocator>(tokenizer: &mut Tokenizer<'_, M, T, A>) -> State
    ensures { Does (label_start_link_start (constructs_of tokenizer.old).label_start_link) tokenizer.old tokenizer.new result }
{
    if tokenizer.current != Some(b'[') {
        return State::Nok;
    }
    if tokenizer.parse_state.options.constructs.label_start_link {
        if begin(tokenizer, EventName::LabelLink).is_err() {
            return State::out_of_memory();
        }
        if around(tokenizer, EventName::LabelMarker).is_err() {
            return State::out_of_memory();
        }
        if leave(tokenizer, EventName::LabelLink).is_err() {
            return State::out_of_memory();
        }
        return start_label(tokenizer, LabelKind::Link, 4);
    }
    State::Nok
}
