//! ATX headings (CommonMark 4.2).
//!
//! ```text
//! heading_atx ::= [space_or_tab] 1*6'#' [space_or_tab text] [space_or_tab 1*'#'] [space_or_tab]
//! ```
//!
//! Each word is data and each further run of `#` a sequence: the resolver tells which of them are the
//! text. Flow reads the indent.
ghost use Rattle.std.specs.Prelude.{[], ◌∷◌};
ghost use Rattle.engine_events.specs.declared.event.Name.TheVariants as names;
ghost use Rattle.engine_programs.specs.Bodies.{FixedName};
ghost use Rattle.engine_programs.specs.Stacks.{Does, IsOpen};
ghost use Rattle.markdown_engine.specs.Machine.{constructs_of};
ghost use Rattle.state_flow_leaves.specs.HeadingAtx.{heading_atx_end, heading_atx_start, heading_atx_before};
ghost use Rattle.state_flow_leaves.specs.HeadingAtx.{heading_atx_sequence_open, heading_atx_at_break, heading_atx_sequence_further};
ghost use Rattle.state_flow_leaves.specs.HeadingAtx.{heading_atx_data};

use markdown_engine::event::Name as EventName;
use markdown_engine::resolve;
use markdown_engine::state::{Block, State};
use markdown_engine::tokenizer::Tokenizer;
use markdown_options::constants::HEADING_ATX_OPENING_FENCE_SIZE_MAX;
use state_table::links::TEXT;
use state_table::steps::{
    consume_to, enter_before, enter_link_to, enter_to, exit_before, exit_block,
};
use state_table::white::white_to;
use std::alloc::Allocator;

/// At the end.
fn end<M, T, A: Allocator>(tokenizer: &mut Tokenizer<'_, M, T, A>) -> State
    requires { IsOpen (FixedName names.HeadingAtx ∷ []) tokenizer.old }
    ensures { Does heading_atx_end tokenizer.old tokenizer.new result }
{
    if tokenizer
        .register_resolver(resolve::Name::HeadingAtx)
        .is_err()
    {
        return State::out_of_memory();
    }
    exit_block(tokenizer, EventName::HeadingAtx)
}

/// At the first byte after the indent.
pub fn start<M, T, A: Allocator>(tokenizer: &mut Tokenizer<'_, M, T, A>) -> State
    ensures { Does (heading_atx_start (constructs_of tokenizer.old)) tokenizer.old tokenizer.new result }
{
    if !tokenizer.parse_state.options.constructs.heading_atx {
        return State::Nok;
    }
    enter_before(tokenizer, EventName::HeadingAtx, Block::HeadingAtxBefore)
}

/// At the first `#`.
pub fn before<M, T, A: Allocator>(tokenizer: &mut Tokenizer<'_, M, T, A>) -> State
    ensures { Does heading_atx_before tokenizer.old tokenizer.new result }
{
    if tokenizer.current != Some(b'#') {
        return State::Nok;
    }
    tokenizer.tokenize_state.size = 1;
    enter_to(
        tokenizer,
        EventName::HeadingAtxSequence,
        Block::HeadingAtxSequenceOpen,
    )
}

/// In the opening sequence.
pub fn sequence_open<M, T, A: Allocator>(tokenizer: &mut Tokenizer<'_, M, T, A>) -> State
    requires { IsOpen (FixedName names.HeadingAtxSequence ∷ FixedName names.HeadingAtx ∷ []) tokenizer.old }
    ensures { Does heading_atx_sequence_open tokenizer.old tokenizer.new result }
{
    match tokenizer.current {
        None | Some(b'\t' | b'\n' | b' ') => exit_before(
            tokenizer,
            EventName::HeadingAtxSequence,
            Block::HeadingAtxAtBreak,
        ),
        Some(b'#') => {
            if tokenizer.tokenize_state.size >= HEADING_ATX_OPENING_FENCE_SIZE_MAX {
                return State::Nok;
            }
            tokenizer.tokenize_state.size = tokenizer.tokenize_state.size.saturating_add(1);
            consume_to(tokenizer, Block::HeadingAtxSequenceOpen)
        },
        Some(_) => State::Nok,
    }
}

/// Between the parts.
pub fn at_break<M, T, A: Allocator>(tokenizer: &mut Tokenizer<'_, M, T, A>) -> State
    requires { IsOpen (FixedName names.HeadingAtx ∷ []) tokenizer.old }
    ensures { Does heading_atx_at_break tokenizer.old tokenizer.new result }
{
    match tokenizer.current {
        None | Some(b'\n') => end(tokenizer),
        Some(b'\t' | b' ') => white_to(tokenizer, usize::MAX, Block::HeadingAtxAtBreak),
        Some(b'#') => enter_to(
            tokenizer,
            EventName::HeadingAtxSequence,
            Block::HeadingAtxSequenceFurther,
        ),
        Some(_) => enter_link_to(tokenizer, EventName::Data, TEXT, Block::HeadingAtxData),
    }
}

/// In a further sequence.
pub fn sequence_further<M, T, A: Allocator>(tokenizer: &mut Tokenizer<'_, M, T, A>) -> State
    requires { IsOpen (FixedName names.HeadingAtxSequence ∷ FixedName names.HeadingAtx ∷ []) tokenizer.old }
    ensures { Does heading_atx_sequence_further tokenizer.old tokenizer.new result }
{
    match tokenizer.current {
        Some(b'#') => consume_to(tokenizer, Block::HeadingAtxSequenceFurther),
        _ => exit_before(
            tokenizer,
            EventName::HeadingAtxSequence,
            Block::HeadingAtxAtBreak,
        ),
    }
}

/// In text.
pub fn data<M, T, A: Allocator>(tokenizer: &mut Tokenizer<'_, M, T, A>) -> State
    requires { IsOpen (FixedName names.Data ∷ FixedName names.HeadingAtx ∷ []) tokenizer.old }
    ensures { Does heading_atx_data tokenizer.old tokenizer.new result }
{
    match tokenizer.current {
        None | Some(b'\t' | b'\n' | b' ') => exit_before(
            tokenizer,
            EventName::Data,
            Block::HeadingAtxAtBreak,
        ),
        Some(_) => consume_to(tokenizer, Block::HeadingAtxData),
    }
}
