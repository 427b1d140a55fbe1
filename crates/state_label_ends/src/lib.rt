//! Ends of links, images and footnote calls.
#![tactic(auto)]

ghost use Rattle.markdown_engine.specs.Machine.{read_with};
ghost use Rattle.engine_states.specs.declared.state.Name.TheVariants as any_states;
ghost use Rattle.engine_programs.specs.Stacks.{Does, IsOpen};
ghost use Rattle.state_table.specs.Table.{sorts};
ghost use Rattle.state_label_ends.specs.EndStates.{end_body};

mod definitions;
pub mod label_end;

use markdown_engine::state::{Inline, State};
use markdown_engine::tokenizer::Tokenizer;
use std::alloc::Allocator;

/// Calls a state of this crate. Any other state fails (`Nok`).
pub fn call<M, T, A: Allocator>(tokenizer: &mut Tokenizer<'_, M, T, A>, state: Inline) -> State
    requires { IsOpen (sorts (any_states.Inline state)).open_tokens tokenizer.old }
    ensures { Does (end_body (read_with tokenizer.old) state) tokenizer.old tokenizer.new result }
{
    match state {
        Inline::LabelEndStart => label_end::start(tokenizer),
        Inline::LabelEndAfter => label_end::after(tokenizer),
        Inline::LabelEndReferenceNotFull => label_end::reference_not_full(tokenizer),
        Inline::LabelEndOk => label_end::ok(tokenizer),
        Inline::LabelEndNok => label_end::nok(tokenizer),
        Inline::LabelEndResourceStart => label_end::resource_start(tokenizer),
        Inline::LabelEndResourceBefore => label_end::resource_before(tokenizer),
        Inline::LabelEndResourceOpen => label_end::resource_open(tokenizer),
        Inline::LabelEndResourceDestinationAfter => label_end::resource_destination_after(
            tokenizer,
        ),
        Inline::LabelEndResourceDestinationMissing => label_end::resource_destination_missing(
            tokenizer,
        ),
        Inline::LabelEndResourceBetween => label_end::resource_between(tokenizer),
        Inline::LabelEndResourceTitleAfter => label_end::resource_title_after(tokenizer),
        Inline::LabelEndResourceEnd => label_end::resource_end(tokenizer),
        Inline::LabelEndReferenceFull => label_end::reference_full(tokenizer),
        Inline::LabelEndReferenceFullAfter => label_end::reference_full_after(tokenizer),
        Inline::LabelEndReferenceFullMissing => label_end::reference_full_missing(tokenizer),
        Inline::LabelEndReferenceCollapsed => label_end::reference_collapsed(tokenizer),
        Inline::LabelEndReferenceCollapsedOpen => label_end::reference_collapsed_open(tokenizer),
        _ => State::Nok,
    }
}
