//! Underlines of headings (CommonMark 4.3).
//!
//! ```text
//! heading_setext_underline ::= [space_or_tab] 1*('-' | '=', one byte throughout) [space_or_tab]
//! ```
//!
//! There must be something left of the open paragraph.
ghost use Rattle.std.specs.Prelude.{[], ◌∷◌};
ghost use Rattle.engine_events.specs.declared.event.Name.TheVariants as names;
ghost use Rattle.engine_programs.specs.Bodies.{FixedName};
ghost use Rattle.engine_programs.specs.Stacks.{Does, IsOpen};
ghost use Rattle.markdown_engine.specs.Machine.{bytes_of, constructs_of};
ghost use Rattle.state_flow_table.specs.HeadingSetext.{heading_setext_end, heading_setext_start, heading_setext_before};
ghost use Rattle.state_flow_table.specs.HeadingSetext.{heading_setext_inside, heading_setext_after};

use markdown_engine::event::Name as EventName;
use markdown_engine::resolve;
use markdown_engine::state::{Block, State};
use markdown_engine::tokenizer::Tokenizer;
use state_left::{is_after_content, is_paragraph_left};
use state_table::steps::{
    consume_to, enter_before, enter_to, exit_before, exit_block, exit_over_white,
};
use std::alloc::Allocator;

/// At the end.
fn end<M, T, A: Allocator>(tokenizer: &mut Tokenizer<'_, M, T, A>) -> State
    requires { IsOpen (FixedName names.HeadingSetextUnderline ∷ []) tokenizer.old }
    ensures { Does (heading_setext_end (bytes_of tokenizer.old) (constructs_of tokenizer.old)) tokenizer.old tokenizer.new result }
{
    let Ok(holds) = is_paragraph_left(tokenizer) else {
        return State::out_of_memory();
    };
    if !holds {
        return State::Nok;
    }
    if tokenizer
        .register_resolver(resolve::Name::HeadingSetext)
        .is_err()
    {
        return State::out_of_memory();
    }
    exit_block(tokenizer, EventName::HeadingSetextUnderline)
}

/// At the first byte after the indent.
pub fn start<M, T, A: Allocator>(tokenizer: &mut Tokenizer<'_, M, T, A>) -> State
    ensures { Does (heading_setext_start (constructs_of tokenizer.old)) tokenizer.old tokenizer.new result }
{
    if !tokenizer.parse_state.options.constructs.heading_setext {
        return State::Nok;
    }
    if tokenizer.lazy {
        return State::Nok;
    }
    if !is_after_content(&tokenizer.events) {
        return State::Nok;
    }
    tokenizer.tokenize_state.start = tokenizer.events.len();
    enter_before(
        tokenizer,
        EventName::HeadingSetextUnderline,
        Block::HeadingSetextBefore,
    )
}

/// At the first marker.
pub fn before<M, T, A: Allocator>(tokenizer: &mut Tokenizer<'_, M, T, A>) -> State
    ensures { Does heading_setext_before tokenizer.old tokenizer.new result }
{
    let marker = match tokenizer.current {
        Some(b'-') => b'-',
        Some(b'=') => b'=',
        _ => return State::Nok,
    };
    tokenizer.tokenize_state.marker = marker;
    enter_to(
        tokenizer,
        EventName::HeadingSetextUnderlineSequence,
        Block::HeadingSetextInside,
    )
}

/// In the underline.
pub fn inside<M, T, A: Allocator>(tokenizer: &mut Tokenizer<'_, M, T, A>) -> State
    requires { IsOpen (FixedName names.HeadingSetextUnderlineSequence ∷ FixedName names.HeadingSetextUnderline ∷ []) tokenizer.old }
    ensures { Does heading_setext_inside tokenizer.old tokenizer.new result }
{
    match tokenizer.current {
        None => exit_before(
            tokenizer,
            EventName::HeadingSetextUnderlineSequence,
            Block::HeadingSetextAfter,
        ),
        Some(_) => {
            if tokenizer.current == Some(tokenizer.tokenize_state.marker) {
                return consume_to(tokenizer, Block::HeadingSetextInside);
            }
            exit_over_white(
                tokenizer,
                EventName::HeadingSetextUnderlineSequence,
                Block::HeadingSetextAfter,
            )
        },
    }
}

/// After spaces and tabs.
pub fn after<M, T, A: Allocator>(tokenizer: &mut Tokenizer<'_, M, T, A>) -> State
    requires { IsOpen (FixedName names.HeadingSetextUnderline ∷ []) tokenizer.old }
    ensures { Does (heading_setext_after (bytes_of tokenizer.old) (constructs_of tokenizer.old)) tokenizer.old tokenizer.new result }
{
    match tokenizer.current {
        None | Some(b'\n') => end(tokenizer),
        Some(_) => State::Nok,
    }
}
