//! Hard breaks by a backslash (CommonMark 6.7).
//!
//! ```text
//! hard_break_escape ::= '\\', before a line ending
//! ```
ghost use Rattle.std.specs.Prelude.{[], ◌∷◌};
ghost use Rattle.engine_events.specs.declared.event.Name.TheVariants as names;
ghost use Rattle.markdown_engine.specs.Machine.{constructs_of};
ghost use Rattle.engine_programs.specs.Bodies.{FixedName};
ghost use Rattle.engine_programs.specs.Stacks.{Does, IsOpen};
ghost use Rattle.state_leaves.specs.HardBreakEscape.{hard_break_escape_start, hard_break_escape_after};

use engine_programs::steps::{enter_to, exit_to};
use markdown_engine::event::Name as EventName;
use markdown_engine::state::{Inline, State};
use markdown_engine::tokenizer::Tokenizer;
use state_table::next;
use std::alloc::Allocator;

/// At a backslash.
pub fn start<M, T, A: Allocator>(tokenizer: &mut Tokenizer<'_, M, T, A>) -> State
    ensures { Does (hard_break_escape_start (constructs_of tokenizer.old).hard_break_escape) tokenizer.old tokenizer.new result }
{
    if tokenizer.current != Some(b'\\') {
        return State::Nok;
    }
    if tokenizer.parse_state.options.constructs.hard_break_escape {
        enter_to(
            tokenizer,
            EventName::HardBreakEscape,
            next(Inline::HardBreakEscapeAfter),
        )
    } else {
        State::Nok
    }
}

/// After the backslash.
pub fn after<M, T, A: Allocator>(tokenizer: &mut Tokenizer<'_, M, T, A>) -> State
    requires { IsOpen (FixedName names.HardBreakEscape ∷ []) tokenizer.old }
    ensures { Does hard_break_escape_after tokenizer.old tokenizer.new result }
{
    if tokenizer.current != Some(b'\n') {
        return State::Nok;
    }
    exit_to(tokenizer, EventName::HardBreakEscape, State::Ok)
}
