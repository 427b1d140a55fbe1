//! Lines of a paragraph, with definitions at their front (CommonMark 4.7 and 4.8).
//!
//! ```text
//! content ::= *(definition line_ending) (definition | paragraph)
//! ```
//!
//! Flow reads each line as a chunk. `Contents` reads the chunks again as one text: definitions first.
ghost use Rattle.std.specs.Prelude.{[], ◌∷◌};
ghost use Rattle.engine_events.specs.declared.event.Name.TheVariants as names;
ghost use Rattle.engine_programs.specs.Bodies.{FixedName};
ghost use Rattle.engine_programs.specs.Stacks.{Does, IsOpen};
ghost use Rattle.state_content.specs.Content.{content_definition_before, content_definition_after, content_chunk_start};
ghost use Rattle.state_content.specs.Content.{content_chunk_inside};

use engine_programs::around::leave;
use engine_programs::steps::attempt_to;
use markdown_engine::event::Name as EventName;
use markdown_engine::resolve;
use markdown_engine::state::{Block, State};
use markdown_engine::tokenizer::Tokenizer;
use state_table::block::{next, retry};
use state_table::links::CONTENT;
use state_table::steps::{around_if, consume_to, enter_link_to};
use std::alloc::Allocator;

/// At the start of a line that may begin a definition.
pub fn definition_before<M, T, A: Allocator>(tokenizer: &mut Tokenizer<'_, M, T, A>) -> State
    ensures { Does content_definition_before tokenizer.old tokenizer.new result }
{
    match tokenizer.current {
        None => State::Ok,
        Some(_) => attempt_to(
            tokenizer,
            next(Block::ContentDefinitionAfter),
            next(Block::ParagraphStart),
            retry(Block::DefinitionStart),
        ),
    }
}

/// After a definition.
pub fn definition_after<M, T, A: Allocator>(tokenizer: &mut Tokenizer<'_, M, T, A>) -> State
    ensures { Does content_definition_after tokenizer.old tokenizer.new result }
{
    around_if(
        tokenizer,
        b'\n',
        EventName::LineEnding,
        Block::ContentDefinitionBefore,
        State::Ok,
    )
}

/// At the start of a line of content.
pub fn chunk_start<M, T, A: Allocator>(tokenizer: &mut Tokenizer<'_, M, T, A>) -> State
    ensures { Does content_chunk_start tokenizer.old tokenizer.new result }
{
    enter_link_to(
        tokenizer,
        EventName::Content,
        CONTENT,
        Block::ContentChunkInside,
    )
}

/// In a line of content.
pub fn chunk_inside<M, T, A: Allocator>(tokenizer: &mut Tokenizer<'_, M, T, A>) -> State
    requires { IsOpen (FixedName names.Content ∷ []) tokenizer.old }
    ensures { Does content_chunk_inside tokenizer.old tokenizer.new result }
{
    match tokenizer.current {
        None | Some(b'\n') => {
            if leave(tokenizer, EventName::Content).is_err() {
                return State::out_of_memory();
            }
            if tokenizer
                .register_resolver_before(resolve::Name::Content)
                .is_err()
            {
                return State::out_of_memory();
            }
            tokenizer.interrupt = true;
            State::Ok
        },
        Some(_) => consume_to(tokenizer, Block::ContentChunkInside),
    }
}
