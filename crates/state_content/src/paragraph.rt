//! Paragraphs (CommonMark 4.8).
//!
//! ```text
//! paragraph ::= *(line line_ending) line
//! ```
//!
//! Each line is a chunk of text, with its line ending.
ghost use Rattle.std.specs.Prelude.{[], ◌∷◌};
ghost use Rattle.engine_events.specs.declared.event.Name.TheVariants as names;
ghost use Rattle.engine_programs.specs.Bodies.{FixedName};
ghost use Rattle.engine_programs.specs.Stacks.{Does, IsOpen};
ghost use Rattle.state_content.specs.Paragraph.{paragraph_start, paragraph_line_start, paragraph_inside};

use engine_programs::around::leave;
use engine_programs::steps::exit_to;
use markdown_engine::event::Name as EventName;
use markdown_engine::state::{Block, State};
use markdown_engine::tokenizer::Tokenizer;
use state_table::block::next;
use state_table::links::text_after;
use state_table::steps::{consume_to, enter_link_to};
use std::alloc::Allocator;

/// At the first byte.
pub fn start<M, T, A: Allocator>(tokenizer: &mut Tokenizer<'_, M, T, A>) -> State
    ensures { Does paragraph_start tokenizer.old tokenizer.new result }
{
    match tokenizer.current {
        None => State::Ok,
        Some(_) => {
            if tokenizer.enter(EventName::Paragraph).is_err() {
                return State::out_of_memory();
            }
            let link = text_after(&tokenizer.events);
            enter_link_to(tokenizer, EventName::Data, link, Block::ParagraphInside)
        },
    }
}

/// At the start of a further line.
pub fn line_start<M, T, A: Allocator>(tokenizer: &mut Tokenizer<'_, M, T, A>) -> State
    requires { IsOpen (FixedName names.Paragraph ∷ []) tokenizer.old }
    ensures { Does paragraph_line_start tokenizer.old tokenizer.new result }
{
    match tokenizer.current {
        None => exit_to(tokenizer, EventName::Paragraph, State::Ok),
        Some(_) => {
            let link = text_after(&tokenizer.events);
            enter_link_to(tokenizer, EventName::Data, link, Block::ParagraphInside)
        },
    }
}

/// In a line.
pub fn inside<M, T, A: Allocator>(tokenizer: &mut Tokenizer<'_, M, T, A>) -> State
    requires { IsOpen (FixedName names.Data ∷ FixedName names.Paragraph ∷ []) tokenizer.old }
    ensures { Does paragraph_inside tokenizer.old tokenizer.new result }
{
    match tokenizer.current {
        None => {
            if leave(tokenizer, EventName::Data).is_err() {
                return State::out_of_memory();
            }
            exit_to(tokenizer, EventName::Paragraph, State::Ok)
        },
        Some(b'\n') => {
            tokenizer.consume();
            exit_to(tokenizer, EventName::Data, next(Block::ParagraphLineStart))
        },
        Some(_) => consume_to(tokenizer, Block::ParagraphInside),
    }
}
