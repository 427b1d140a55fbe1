//! Frontmatter.
//!
//! ```text
//! frontmatter ::= fence *line fence, of '---' or '+++'
//! ```
//!
//! It stands at the start of a text.
ghost use Rattle.std.specs.Prelude.{[], ◌∷◌};
ghost use Rattle.engine_events.specs.declared.event.Name.TheVariants as names;
ghost use Rattle.engine_programs.specs.Bodies.{FixedName};
ghost use Rattle.engine_programs.specs.Stacks.{Does, IsOpen};
ghost use Rattle.markdown_engine.specs.Machine.{constructs_of};
ghost use Rattle.state_containers.specs.Frontmatter.{frontmatter_closed, frontmatter_start, frontmatter_open_sequence};
ghost use Rattle.state_containers.specs.Frontmatter.{frontmatter_open_after, frontmatter_content_end, frontmatter_close_start};
ghost use Rattle.state_containers.specs.Frontmatter.{frontmatter_close_sequence, frontmatter_close_after, frontmatter_content_start};
ghost use Rattle.state_containers.specs.Frontmatter.{frontmatter_content_inside, frontmatter_after};

use engine_programs::around::{around, leave};
use engine_programs::steps::{around_to, attempt_to, exit_to};
use markdown_engine::event::Name as EventName;
use markdown_engine::state::{Block, State};
use markdown_engine::tokenizer::Tokenizer;
use markdown_options::constants::FRONTMATTER_SEQUENCE_SIZE;
use state_table::block::{next, retry};
use state_table::steps::{consume_to, enter_both_to, enter_to, exit_before, exit_over_white};
use std::alloc::Allocator;

/// After a closing fence.
fn closed<M, T, A: Allocator>(tokenizer: &mut Tokenizer<'_, M, T, A>) -> State
    requires { IsOpen (FixedName names.FrontmatterSequence ∷ FixedName names.FrontmatterFence ∷ []) tokenizer.old }
    ensures { Does frontmatter_closed tokenizer.old tokenizer.new result }
{
    if tokenizer.tokenize_state.size != FRONTMATTER_SEQUENCE_SIZE {
        return State::Nok;
    }
    exit_over_white(
        tokenizer,
        EventName::FrontmatterSequence,
        Block::FrontmatterCloseAfter,
    )
}

/// At the start of a text.
pub fn start<M, T, A: Allocator>(tokenizer: &mut Tokenizer<'_, M, T, A>) -> State
    ensures { Does (frontmatter_start (constructs_of tokenizer.old)) tokenizer.old tokenizer.new result }
{
    if !tokenizer.parse_state.options.constructs.frontmatter {
        return State::Nok;
    }
    let marker = match tokenizer.current {
        Some(b'-') => b'-',
        Some(b'+') => b'+',
        _ => return State::Nok,
    };
    tokenizer.tokenize_state.marker = marker;
    tokenizer.tokenize_state.size = 1;
    if tokenizer.enter(EventName::Frontmatter).is_err() {
        return State::out_of_memory();
    }
    enter_both_to(
        tokenizer,
        EventName::FrontmatterFence,
        EventName::FrontmatterSequence,
        Block::FrontmatterOpenSequence,
    )
}

/// In the opening fence.
pub fn open_sequence<M, T, A: Allocator>(tokenizer: &mut Tokenizer<'_, M, T, A>) -> State
    requires { IsOpen (FixedName names.FrontmatterSequence ∷ FixedName names.FrontmatterFence ∷ FixedName names.Frontmatter ∷ []) tokenizer.old }
    ensures { Does frontmatter_open_sequence tokenizer.old tokenizer.new result }
{
    match tokenizer.current {
        None => State::Nok,
        Some(_) => {
            if tokenizer.current == Some(tokenizer.tokenize_state.marker) {
                tokenizer.tokenize_state.size = tokenizer.tokenize_state.size.saturating_add(1);
                return consume_to(tokenizer, Block::FrontmatterOpenSequence);
            }
            if tokenizer.tokenize_state.size != FRONTMATTER_SEQUENCE_SIZE {
                return State::Nok;
            }
            exit_over_white(
                tokenizer,
                EventName::FrontmatterSequence,
                Block::FrontmatterOpenAfter,
            )
        },
    }
}

/// After the opening fence.
pub fn open_after<M, T, A: Allocator>(tokenizer: &mut Tokenizer<'_, M, T, A>) -> State
    requires { IsOpen (FixedName names.FrontmatterFence ∷ FixedName names.Frontmatter ∷ []) tokenizer.old }
    ensures { Does frontmatter_open_after tokenizer.old tokenizer.new result }
{
    if tokenizer.current != Some(b'\n') {
        return State::Nok;
    }
    exit_before(
        tokenizer,
        EventName::FrontmatterFence,
        Block::FrontmatterContentEnd,
    )
}

/// At the end of a line.
pub fn content_end<M, T, A: Allocator>(tokenizer: &mut Tokenizer<'_, M, T, A>) -> State
    ensures { Does frontmatter_content_end tokenizer.old tokenizer.new result }
{
    if tokenizer.current != Some(b'\n') {
        return State::Nok;
    }
    if around(tokenizer, EventName::LineEnding).is_err() {
        return State::out_of_memory();
    }
    attempt_to(
        tokenizer,
        next(Block::FrontmatterAfter),
        next(Block::FrontmatterContentStart),
        next(Block::FrontmatterCloseStart),
    )
}

/// At a closing fence.
pub fn close_start<M, T, A: Allocator>(tokenizer: &mut Tokenizer<'_, M, T, A>) -> State
    ensures { Does frontmatter_close_start tokenizer.old tokenizer.new result }
{
    match tokenizer.current {
        None => State::Nok,
        Some(_) => {
            if tokenizer.current != Some(tokenizer.tokenize_state.marker) {
                return State::Nok;
            }
            tokenizer.tokenize_state.size = 1;
            enter_both_to(
                tokenizer,
                EventName::FrontmatterFence,
                EventName::FrontmatterSequence,
                Block::FrontmatterCloseSequence,
            )
        },
    }
}

/// In a closing fence.
pub fn close_sequence<M, T, A: Allocator>(tokenizer: &mut Tokenizer<'_, M, T, A>) -> State
    requires { IsOpen (FixedName names.FrontmatterSequence ∷ FixedName names.FrontmatterFence ∷ []) tokenizer.old }
    ensures { Does frontmatter_close_sequence tokenizer.old tokenizer.new result }
{
    match tokenizer.current {
        None => closed(tokenizer),
        Some(_) => {
            if tokenizer.current == Some(tokenizer.tokenize_state.marker) {
                tokenizer.tokenize_state.size = tokenizer.tokenize_state.size.saturating_add(1);
                return consume_to(tokenizer, Block::FrontmatterCloseSequence);
            }
            closed(tokenizer)
        },
    }
}

/// After a closing fence.
pub fn close_after<M, T, A: Allocator>(tokenizer: &mut Tokenizer<'_, M, T, A>) -> State
    requires { IsOpen (FixedName names.FrontmatterFence ∷ []) tokenizer.old }
    ensures { Does frontmatter_close_after tokenizer.old tokenizer.new result }
{
    match tokenizer.current {
        None | Some(b'\n') => exit_to(tokenizer, EventName::FrontmatterFence, State::Ok),
        Some(_) => State::Nok,
    }
}

/// At the start of a line.
pub fn content_start<M, T, A: Allocator>(tokenizer: &mut Tokenizer<'_, M, T, A>) -> State
    ensures { Does frontmatter_content_start tokenizer.old tokenizer.new result }
{
    match tokenizer.current {
        None => State::Nok,
        Some(b'\n') => retry(Block::FrontmatterContentEnd),
        Some(_) => enter_to(
            tokenizer,
            EventName::FrontmatterChunk,
            Block::FrontmatterContentInside,
        ),
    }
}

/// In a line.
pub fn content_inside<M, T, A: Allocator>(tokenizer: &mut Tokenizer<'_, M, T, A>) -> State
    requires { IsOpen (FixedName names.FrontmatterChunk ∷ FixedName names.Frontmatter ∷ []) tokenizer.old }
    ensures { Does frontmatter_content_inside tokenizer.old tokenizer.new result }
{
    match tokenizer.current {
        None => State::Nok,
        Some(b'\n') => exit_before(
            tokenizer,
            EventName::FrontmatterChunk,
            Block::FrontmatterContentEnd,
        ),
        Some(_) => consume_to(tokenizer, Block::FrontmatterContentInside),
    }
}

/// At the end.
pub fn after<M, T, A: Allocator>(tokenizer: &mut Tokenizer<'_, M, T, A>) -> State
    requires { IsOpen (FixedName names.Frontmatter ∷ []) tokenizer.old }
    ensures { Does frontmatter_after tokenizer.old tokenizer.new result }
{
    if leave(tokenizer, EventName::Frontmatter).is_err() {
        return State::out_of_memory();
    }
    if tokenizer.current != Some(b'\n') {
        return State::Ok;
    }
    around_to(tokenizer, EventName::LineEnding, State::Ok)
}
