//! The inline constructs that hold no other, and data.
#![tactic(auto)]

ghost use Rattle.markdown_engine.specs.Machine.{read_with, tables_of};
ghost use Rattle.engine_states.specs.declared.state.Name.TheVariants as any_states;
ghost use Rattle.engine_programs.specs.Stacks.{Does, IsOpen};
ghost use Rattle.state_table.specs.Table.{sorts};
ghost use Rattle.state_leaves.specs.LeafStates.{leaf_body};

pub mod attention;
pub mod character_escape;
pub mod character_reference;
pub mod hard_break_escape;
pub mod partial_data;
pub mod raw_text;

use markdown_engine::state::{Inline, State};
use markdown_engine::tokenizer::Tokenizer;
use markdown_options::Tables;
use std::alloc::Allocator;

/// Calls a state of this crate; any other answers that it isn't there.
pub fn call<M, T: Tables, A: Allocator>(
    tokenizer: &mut Tokenizer<'_, M, T, A>,
    state: Inline,
) -> State
    requires { IsOpen (sorts (any_states.Inline state)).open_tokens tokenizer.old }
    ensures { Does (leaf_body (T.reference_of (tables_of tokenizer.old)) (read_with tokenizer.old) state) tokenizer.old tokenizer.new result }
{
    match state {
        Inline::AttentionStart => attention::start(tokenizer),
        Inline::AttentionInside => attention::inside(tokenizer),
        Inline::CharacterEscapeStart => character_escape::start(tokenizer),
        Inline::CharacterEscapeInside => character_escape::inside(tokenizer),
        Inline::CharacterReferenceStart => character_reference::start(tokenizer),
        Inline::CharacterReferenceOpen => character_reference::open(tokenizer),
        Inline::CharacterReferenceNumeric => character_reference::numeric(tokenizer),
        Inline::CharacterReferenceValue => character_reference::value(tokenizer),
        Inline::HardBreakEscapeStart => hard_break_escape::start(tokenizer),
        Inline::HardBreakEscapeAfter => hard_break_escape::after(tokenizer),
        Inline::DataStart => partial_data::start(tokenizer),
        Inline::DataAtBreak => partial_data::at_break(tokenizer),
        Inline::DataInside => partial_data::inside(tokenizer),
        Inline::RawTextStart => raw_text::start(tokenizer),
        Inline::RawTextSequenceOpen => raw_text::sequence_open(tokenizer),
        Inline::RawTextBetween => raw_text::between(tokenizer),
        Inline::RawTextData => raw_text::data(tokenizer),
        Inline::RawTextSequenceClose => raw_text::sequence_close(tokenizer),
        _ => State::Nok,
    }
}
