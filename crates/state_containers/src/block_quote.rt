//! Block quotes (CommonMark 5.1).
//!
//! ```text
//! block_quote_prefix ::= [space_or_tab] '>' [space_or_tab]
//! ```
//!
//! At most one column after the marker belongs to it.
ghost use Rattle.std.specs.Prelude.{[], ◌∷◌};
ghost use Rattle.engine_events.specs.declared.event.Name.TheVariants as names;
ghost use Rattle.engine_programs.specs.Bodies.{FixedName};
ghost use Rattle.engine_programs.specs.Stacks.{Does, IsOpen};
ghost use Rattle.markdown_engine.specs.Machine.{constructs_of};
ghost use Rattle.state_containers.specs.BlockQuote.{block_quote_start, block_quote_cont_start, block_quote_cont_before};
ghost use Rattle.state_containers.specs.BlockQuote.{block_quote_cont_after};

use engine_programs::around::around;
use engine_programs::steps::exit_to;
use markdown_engine::event::Name as EventName;
use markdown_engine::state::{Block, State};
use markdown_engine::tokenizer::Tokenizer;
use state_table::steps::around_to;
use state_table::white::over_indent;
use std::alloc::Allocator;

/// At the start.
pub fn start<M, T, A: Allocator>(tokenizer: &mut Tokenizer<'_, M, T, A>) -> State
    ensures { Does (block_quote_start (constructs_of tokenizer.old)) tokenizer.old tokenizer.new result }
{
    if !tokenizer.parse_state.options.constructs.block_quote {
        return State::Nok;
    }
    over_indent(tokenizer, Block::BlockQuoteContBefore)
}

/// At the start of a further line.
pub fn cont_start<M, T, A: Allocator>(tokenizer: &mut Tokenizer<'_, M, T, A>) -> State
    ensures { Does (block_quote_cont_start (constructs_of tokenizer.old)) tokenizer.old tokenizer.new result }
{
    over_indent(tokenizer, Block::BlockQuoteContBefore)
}

/// At the `>`.
pub fn cont_before<M, T, A: Allocator>(tokenizer: &mut Tokenizer<'_, M, T, A>) -> State
    ensures { Does block_quote_cont_before tokenizer.old tokenizer.new result }
{
    if tokenizer.current != Some(b'>') {
        return State::Nok;
    }
    if tokenizer.enter(EventName::BlockQuotePrefix).is_err() {
        return State::out_of_memory();
    }
    around_to(
        tokenizer,
        EventName::BlockQuoteMarker,
        Block::BlockQuoteContAfter,
    )
}

/// After the `>`.
pub fn cont_after<M, T, A: Allocator>(tokenizer: &mut Tokenizer<'_, M, T, A>) -> State
    requires { IsOpen (FixedName names.BlockQuotePrefix ∷ []) tokenizer.old }
    ensures { Does block_quote_cont_after tokenizer.old tokenizer.new result }
{
    match tokenizer.current {
        Some(b'\t' | b' ') => {
            if around(tokenizer, EventName::SpaceOrTab).is_err() {
                return State::out_of_memory();
            }
            exit_to(tokenizer, EventName::BlockQuotePrefix, State::Ok)
        },
        _ => exit_to(tokenizer, EventName::BlockQuotePrefix, State::Ok),
    }
}
