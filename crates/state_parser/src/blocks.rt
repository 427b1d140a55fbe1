//! The events of blocks.
ghost use Rattle.std.specs.Prelude.{IfErr, length};
ghost use Rattle.markdown_options.specs.Messages.{IsOutOfMemory};
ghost use Rattle.markdown_engine.specs.Machine.{AreCuts};

use crate::merge::{Sources, merge};
use markdown_engine::event::Event;
use markdown_engine::place::{Point, START};
use markdown_engine::state::{Block, Name, State};
use markdown_engine::tokenizer::Tokenizer;
use markdown_engine::{Message, ParseState};
use markdown_options::Tables;
use state_block_resolvers::content::resolve_content;
use state_block_resolvers::resolving::{
    resolve_gfm_table, resolve_heading_atx, resolve_heading_setext, resolve_list_item,
};
use state_content::contents::Contents;
use state_document::blocks::Blocks;
use state_reader::reader::FlowReader;
use std::alloc::{Allocator, Global};

/// Makes lists, headings, tables and paragraphs. Returns whether paragraphs could be read.
fn resolve<M, T: Tables, A: Allocator + Clone>(
    tokenizer: &mut Tokenizer<'_, M, T, A>,
) -> Result<bool, Message>
    ensures memory { IfErr result IsOutOfMemory }
{
    resolve_list_item(tokenizer)?;
    resolve_heading_atx(tokenizer)?;
    resolve_gfm_table(tokenizer)?;
    let done = resolve_content(tokenizer)?;
    resolve_heading_setext(tokenizer)?;
    Ok(done)
}

/// Makes blocks of these events of a text that ends at a place; none if paragraphs can't be read.
fn resolved<T: Tables, A: Allocator + Clone>(
    alloc: A,
    parse_state: &ParseState<'_, T, A>,
    events: Vec<Event, A>,
    end: Point,
) -> Result<Option<Vec<Event, A>>, Message>
    ensures memory { IfErr result IsOutOfMemory }
{
    let mut tokenizer = Tokenizer::new(alloc, end, parse_state, Contents)?;
    tokenizer.events = events;
    if resolve(&mut tokenizer)? {
        Ok(Some(tokenizer.events))
    } else {
        Ok(None)
    }
}

/// Reads the lines of a text in ranges: their containers, and by a reader the flow in them. Returns the
/// events, the reader, and where the text ends.
#[tactic(auto, using(state_document::specs::BlocksLaws::blocks_begin, state_reader::specs::ReaderLaws::reader_begins))]
fn read_lines<T: Tables>(
    alloc: Global,
    parse_state: &ParseState<'_, T, Global>,
    cuts: &[(usize, usize)],
) -> Result<(Vec<Event>, FlowReader, Point), Message>
    requires { AreCuts (0, 0) cuts.now (length parse_state.now.bytes.now) }
    ensures memory { IfErr result IsOutOfMemory }
{
    let reader = FlowReader::new(alloc)?;
    let mut tokenizer = Tokenizer::new(alloc, START, parse_state, Blocks { reader })?;
    let start = State::Next(Name::Block(Block::DocumentStart));
    if let State::Error(_) = tokenizer.read_in_ranges(cuts, start) {
        return Err(Message::out_of_memory());
    }
    Ok((tokenizer.events, tokenizer.machine.reader, tokenizer.point))
}

/// The events of a document, of its flow and of its containers, and where the text ends.
fn merged<T: Tables>(
    alloc: Global,
    parse_state: &ParseState<'_, T, Global>,
    cuts: &[(usize, usize)],
) -> Result<(Vec<Event>, Point), Message>
    requires { AreCuts (0, 0) cuts.now (length parse_state.now.bytes.now) }
    ensures memory { IfErr result IsOutOfMemory }
{
    let (document, reader, end) = read_lines(alloc, parse_state, cuts)?;
    let sources = Sources {
        document: &document,
        flow: reader.events(),
        spans: &reader.spans,
    };
    let events = merge(&alloc, &sources, end)?;
    Ok((events, end))
}

/// The events of the blocks of a text, with chunks of texts and strings that are read later; none if
/// paragraphs can't be read.
pub(crate) fn read_blocks<T: Tables>(
    alloc: Global,
    parse_state: &ParseState<'_, T, Global>,
    cuts: &[(usize, usize)],
) -> Result<Option<Vec<Event>>, Message>
    requires { AreCuts (0, 0) cuts.now (length parse_state.now.bytes.now) }
    ensures memory { IfErr result IsOutOfMemory }
{
    let (events, end) = merged(alloc, parse_state, cuts)?;
    resolved(alloc, parse_state, events, end)
}
