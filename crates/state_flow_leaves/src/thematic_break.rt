//! Thematic breaks (CommonMark 4.1).
//!
//! ```text
//! thematic_break ::= [space_or_tab] 3*('*' | '-' | '_', one byte throughout) with space_or_tab between
//! ```
//!
//! The first marker is kept in `marker`; flow reads the indent.
ghost use Rattle.std.specs.Prelude.{[], ◌∷◌};
ghost use Rattle.engine_events.specs.declared.event.Name.TheVariants as names;
ghost use Rattle.engine_programs.specs.Bodies.{FixedName};
ghost use Rattle.engine_programs.specs.Stacks.{Does, IsOpen};
ghost use Rattle.markdown_engine.specs.Machine.{constructs_of};
ghost use Rattle.state_flow_leaves.specs.ThematicBreak.{thematic_break_open, thematic_break_end, thematic_break_start, thematic_break_before};
ghost use Rattle.state_flow_leaves.specs.ThematicBreak.{thematic_break_at_break, thematic_break_sequence};

use markdown_engine::event::Name as EventName;
use markdown_engine::state::{Block, State};
use markdown_engine::tokenizer::Tokenizer;
use markdown_options::constants::THEMATIC_BREAK_MARKER_COUNT_MIN;
use state_table::steps::{
    consume_to, enter_before, enter_to, exit_before, exit_block, exit_over_white,
};
use std::alloc::Allocator;

/// At the first marker of a break.
fn open<M, T, A: Allocator>(tokenizer: &mut Tokenizer<'_, M, T, A>, marker: u8) -> State
    ensures { Does (thematic_break_open marker) tokenizer.old tokenizer.new result }
{
    tokenizer.tokenize_state.marker = marker;
    tokenizer.tokenize_state.size = 1;
    enter_to(
        tokenizer,
        EventName::ThematicBreakSequence,
        Block::ThematicBreakSequence,
    )
}

/// At the end of the line.
fn end<M, T, A: Allocator>(tokenizer: &mut Tokenizer<'_, M, T, A>) -> State
    requires { IsOpen (FixedName names.ThematicBreak ∷ []) tokenizer.old }
    ensures { Does thematic_break_end tokenizer.old tokenizer.new result }
{
    if tokenizer.tokenize_state.size < THEMATIC_BREAK_MARKER_COUNT_MIN {
        return State::Nok;
    }
    exit_block(tokenizer, EventName::ThematicBreak)
}

/// At the first byte after the indent.
pub fn start<M, T, A: Allocator>(tokenizer: &mut Tokenizer<'_, M, T, A>) -> State
    ensures { Does (thematic_break_start (constructs_of tokenizer.old)) tokenizer.old tokenizer.new result }
{
    if !tokenizer.parse_state.options.constructs.thematic_break {
        return State::Nok;
    }
    enter_before(
        tokenizer,
        EventName::ThematicBreak,
        Block::ThematicBreakBefore,
    )
}

/// At the first marker.
pub fn before<M, T, A: Allocator>(tokenizer: &mut Tokenizer<'_, M, T, A>) -> State
    ensures { Does thematic_break_before tokenizer.old tokenizer.new result }
{
    let marker = match tokenizer.current {
        Some(b'*') => b'*',
        Some(b'-') => b'-',
        Some(b'_') => b'_',
        _ => return State::Nok,
    };
    open(tokenizer, marker)
}

/// Before a run, or at the end.
pub fn at_break<M, T, A: Allocator>(tokenizer: &mut Tokenizer<'_, M, T, A>) -> State
    requires { IsOpen (FixedName names.ThematicBreak ∷ []) tokenizer.old }
    ensures { Does thematic_break_at_break tokenizer.old tokenizer.new result }
{
    match tokenizer.current {
        None => end(tokenizer),
        Some(_) => {
            if tokenizer.current == Some(tokenizer.tokenize_state.marker) {
                tokenizer.tokenize_state.size = tokenizer.tokenize_state.size.saturating_add(1);
                return enter_to(
                    tokenizer,
                    EventName::ThematicBreakSequence,
                    Block::ThematicBreakSequence,
                );
            }
            if tokenizer.current != Some(b'\n') {
                return State::Nok;
            }
            end(tokenizer)
        },
    }
}

/// In a run.
pub fn sequence<M, T, A: Allocator>(tokenizer: &mut Tokenizer<'_, M, T, A>) -> State
    requires { IsOpen (FixedName names.ThematicBreakSequence ∷ FixedName names.ThematicBreak ∷ []) tokenizer.old }
    ensures { Does thematic_break_sequence tokenizer.old tokenizer.new result }
{
    match tokenizer.current {
        None => exit_before(
            tokenizer,
            EventName::ThematicBreakSequence,
            Block::ThematicBreakAtBreak,
        ),
        Some(_) => {
            if tokenizer.current == Some(tokenizer.tokenize_state.marker) {
                tokenizer.tokenize_state.size = tokenizer.tokenize_state.size.saturating_add(1);
                return consume_to(tokenizer, Block::ThematicBreakSequence);
            }
            exit_over_white(
                tokenizer,
                EventName::ThematicBreakSequence,
                Block::ThematicBreakAtBreak,
            )
        },
    }
}
