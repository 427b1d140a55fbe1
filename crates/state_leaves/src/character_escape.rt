//! Backslash escapes (CommonMark 2.4).
//!
//! ```text
//! character_escape ::= '\\' ascii_punctuation
//! ```
ghost use Rattle.std.specs.Prelude.{[], ◌∷◌};
ghost use Rattle.engine_events.specs.declared.event.Name.TheVariants as names;
ghost use Rattle.markdown_engine.specs.Machine.{constructs_of};
ghost use Rattle.engine_programs.specs.Bodies.{FixedName};
ghost use Rattle.engine_programs.specs.Stacks.{Does, IsOpen};
ghost use Rattle.state_leaves.specs.CharacterEscape.{character_escape_start, character_escape_inside};

use engine_programs::around::around;
use engine_programs::steps::{around_to, exit_to};
use markdown_engine::event::Name as EventName;
use markdown_engine::state::{Inline, State};
use markdown_engine::tokenizer::Tokenizer;
use state_table::next;
use std::alloc::Allocator;

/// At a backslash.
pub fn start<M, T, A: Allocator>(tokenizer: &mut Tokenizer<'_, M, T, A>) -> State
    ensures { Does (character_escape_start (constructs_of tokenizer.old).character_escape) tokenizer.old tokenizer.new result }
{
    if tokenizer.current != Some(b'\\') {
        return State::Nok;
    }
    if tokenizer.parse_state.options.constructs.character_escape {
        if tokenizer.enter(EventName::CharacterEscape).is_err() {
            return State::out_of_memory();
        }
        return around_to(
            tokenizer,
            EventName::CharacterEscapeMarker,
            next(Inline::CharacterEscapeInside),
        );
    }
    State::Nok
}

/// After the backslash.
pub fn inside<M, T, A: Allocator>(tokenizer: &mut Tokenizer<'_, M, T, A>) -> State
    requires { IsOpen (FixedName names.CharacterEscape ∷ []) tokenizer.old }
    ensures { Does character_escape_inside tokenizer.old tokenizer.new result }
{
    let Some(byte) = tokenizer.current else {
        return State::Nok;
    };
    if byte.is_ascii_punctuation() {
        if around(tokenizer, EventName::CharacterEscapeValue).is_err() {
            return State::out_of_memory();
        }
        return exit_to(tokenizer, EventName::CharacterEscape, State::Ok);
    }
    State::Nok
}
