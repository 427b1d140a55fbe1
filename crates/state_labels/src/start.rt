//! The starts of labels, which may find their ends.
ghost use Rattle.engine_programs.specs.Stacks.{Does};
ghost use Rattle.state_labels.specs.Start.{begin_label};

use markdown_engine::label::{LabelKind, LabelStart};
use markdown_engine::resolve;
use markdown_engine::state::State;
use markdown_engine::tokenizer::Tokenizer;
use std::alloc::Allocator;

/// Records that the last events are the start of a label.
pub fn start_label<M, T, A: Allocator>(
    tokenizer: &mut Tokenizer<'_, M, T, A>,
    kind: LabelKind,
    size: usize,
) -> State
    ensures { Does (begin_label kind size) tokenizer.old tokenizer.new result }
{
    let count = tokenizer.events.len();
    let start = LabelStart {
        kind,
        start: (count.saturating_sub(size), count.saturating_sub(1)),
        inactive: false,
    };
    if tokenizer.tokenize_state.label_starts.push(start).is_err() {
        return State::out_of_memory();
    }
    match tokenizer.register_resolver_before(resolve::Name::Label) {
        Ok(()) => State::Ok,
        Err(_) => State::out_of_memory(),
    }
}
