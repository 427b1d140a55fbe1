//! A byte order mark.
//!
//! ```text
//! bom ::= EF BB BF
//! ```
//!
//! It stands at the start of a text.
ghost use Rattle.std.specs.Prelude.{[], ◌∷◌};
ghost use Rattle.engine_events.specs.declared.event.Name.TheVariants as names;
ghost use Rattle.engine_programs.specs.Bodies.{FixedName};
ghost use Rattle.engine_programs.specs.Stacks.{Does, IsOpen};
ghost use Rattle.state_containers.specs.Bom.{bom_start, bom_inside};

use crate::open::is_mark;
use engine_programs::steps::exit_to;
use markdown_engine::event::Name as EventName;
use markdown_engine::state::{Block, State};
use markdown_engine::tokenizer::Tokenizer;
use state_table::steps::{consume_to, enter_to};
use std::alloc::Allocator;

/// At the start of a text.
pub fn start<M, T, A: Allocator>(tokenizer: &mut Tokenizer<'_, M, T, A>) -> State
    ensures { Does bom_start tokenizer.old tokenizer.new result }
{
    if tokenizer.current != Some(0xEF) {
        return State::Nok;
    }
    tokenizer.tokenize_state.size = 1;
    enter_to(tokenizer, EventName::ByteOrderMark, Block::BomInside)
}

/// In the mark.
pub fn inside<M, T, A: Allocator>(tokenizer: &mut Tokenizer<'_, M, T, A>) -> State
    requires { IsOpen (FixedName names.ByteOrderMark ∷ []) tokenizer.old }
    ensures { Does bom_inside tokenizer.old tokenizer.new result }
{
    match tokenizer.current {
        None => State::Nok,
        Some(byte) => {
            if !is_mark(tokenizer.tokenize_state.size, byte) {
                return State::Nok;
            }
            tokenizer.tokenize_state.size = tokenizer.tokenize_state.size.saturating_add(1);
            if tokenizer.tokenize_state.size == 3 {
                tokenizer.consume();
                return exit_to(tokenizer, EventName::ByteOrderMark, State::Ok);
            }
            consume_to(tokenizer, Block::BomInside)
        },
    }
}
