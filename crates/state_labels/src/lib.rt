//! Labels, titles, destinations, the space between, and the starts of links and images.
#![tactic(auto)]

ghost use Rattle.markdown_engine.specs.Machine.{read_with};
ghost use Rattle.engine_states.specs.declared.state.Name.TheVariants as any_states;
ghost use Rattle.engine_programs.specs.Stacks.{Does, IsOpen};
ghost use Rattle.state_table.specs.Table.{sorts};
ghost use Rattle.state_labels.specs.LabelStates.{label_body};

pub mod chunk;
pub mod label_start_image;
pub mod label_start_link;
pub mod partial_destination;
pub mod partial_label;
pub mod partial_space_or_tab;
pub mod partial_space_or_tab_eol;
pub mod partial_title;
pub mod start;

use markdown_engine::state::{Inline, State};
use markdown_engine::tokenizer::Tokenizer;
use std::alloc::Allocator;

/// Calls a state of this crate. Any other state fails (`Nok`).
pub fn call<M, T, A: Allocator>(tokenizer: &mut Tokenizer<'_, M, T, A>, state: Inline) -> State
    requires { IsOpen (sorts (any_states.Inline state)).open_tokens tokenizer.old }
    ensures { Does (label_body (read_with tokenizer.old) state) tokenizer.old tokenizer.new result }
{
    match state {
        Inline::LabelStartImageStart => label_start_image::start(tokenizer),
        Inline::LabelStartImageOpen => label_start_image::open(tokenizer),
        Inline::LabelStartImageAfter => label_start_image::after(tokenizer),
        Inline::LabelStartLinkStart => label_start_link::start(tokenizer),
        Inline::LabelStart => partial_label::start(tokenizer),
        Inline::LabelAtBreak => partial_label::at_break(tokenizer),
        Inline::LabelEolAfter => partial_label::eol_after(tokenizer),
        Inline::LabelNok => partial_label::nok(tokenizer),
        Inline::LabelInside => partial_label::inside(tokenizer),
        Inline::LabelEscape => partial_label::escape(tokenizer),
        Inline::TitleStart => partial_title::start(tokenizer),
        Inline::TitleBegin => partial_title::begin(tokenizer),
        Inline::TitleAtBreak => partial_title::at_break(tokenizer),
        Inline::TitleAfterEol => partial_title::after_eol(tokenizer),
        Inline::TitleNok => partial_title::nok(tokenizer),
        Inline::TitleInside => partial_title::inside(tokenizer),
        Inline::TitleEscape => partial_title::escape(tokenizer),
        Inline::DestinationStart => partial_destination::start(tokenizer),
        Inline::DestinationEnclosedBefore => partial_destination::enclosed_before(tokenizer),
        Inline::DestinationEnclosed => partial_destination::enclosed(tokenizer),
        Inline::DestinationEnclosedEscape => partial_destination::enclosed_escape(tokenizer),
        Inline::DestinationRaw => partial_destination::raw(tokenizer),
        Inline::DestinationRawEscape => partial_destination::raw_escape(tokenizer),
        Inline::SpaceOrTabStart => partial_space_or_tab::start(tokenizer),
        Inline::SpaceOrTabInside => partial_space_or_tab::inside(tokenizer),
        Inline::SpaceOrTabAfter => partial_space_or_tab::after(tokenizer),
        Inline::SpaceOrTabEolStart => partial_space_or_tab_eol::start(tokenizer),
        Inline::SpaceOrTabEolAfterFirst => partial_space_or_tab_eol::after_first(tokenizer),
        Inline::SpaceOrTabEolAtEol => partial_space_or_tab_eol::at_eol(tokenizer),
        Inline::SpaceOrTabEolAfterEol => partial_space_or_tab_eol::after_eol(tokenizer),
        Inline::SpaceOrTabEolAfterMore => partial_space_or_tab_eol::after_more(tokenizer),
        _ => State::Nok,
    }
}
