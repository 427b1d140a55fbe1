//! Chunks of strings: data, white space and line endings that are read together later.
ghost use Rattle.std.specs.Prelude.{◌≡◌, OnOk, IfErr, Some};
ghost use Rattle.markdown_options.specs.Messages.{IsOutOfMemory};
ghost use Rattle.markdown_engine.specs.Machine.{Became, config, with_enter, KeepsParseState};
ghost use Rattle.state_labels.specs.Chunk.{link_after, chunk_link, part_link, with_part};

use markdown_engine::Message;
use markdown_engine::event::{Content, Event, Kind, Link, Name};
use markdown_engine::tokenizer::Tokenizer;
use std::alloc::Allocator;

/// The link of a chunk after some events: a chunk that ends with them is the one before.
#[tactic(auto, unfolding(crate::specs::Chunk::link_after))]
fn link_after(events: &[Event]) -> Link
    ensures { result ≡ link_after events.now }
{
    let previous = match events.last() {
        Some(event) => {
            if event.kind == Kind::Exit {
                Some(events.len().saturating_sub(2))
            } else {
                None
            }
        }
        None => None,
    };
    Link {
        previous,
        next: None,
        content: Content::String,
    }
}

/// The link of a chunk with none before.
pub const FIRST: Link = Link {
    previous: None,
    next: None,
    content: Content::String,
};

/// Adds that a chunk begins here.
fn enter_chunk<M, T, A: Allocator>(
    tokenizer: &mut Tokenizer<'_, M, T, A>,
    name: Name,
) -> Result<(), Message>
    ensures became { OnOk result (Became (with_enter name (chunk_link (config tokenizer.old)) (config tokenizer.old)) tokenizer.old tokenizer.new) }
    ensures parse_state { KeepsParseState tokenizer.old tokenizer.new }
    ensures skips { tokenizer.new.skips ≡ tokenizer.old.skips }
    ensures memory { IfErr result IsOutOfMemory }
{
    let link = link_after(&tokenizer.events);
    tokenizer.enter_link(name, link)
}

/// Adds that something begins here: within a string a chunk.
pub fn enter_part<M, T, A: Allocator>(
    tokenizer: &mut Tokenizer<'_, M, T, A>,
    name: Name,
) -> Result<(), Message>
    ensures became { OnOk result (Became (with_enter name (part_link (config tokenizer.old)) (config tokenizer.old)) tokenizer.old tokenizer.new) }
    ensures parse_state { KeepsParseState tokenizer.old tokenizer.new }
    ensures skips { tokenizer.new.skips ≡ tokenizer.old.skips }
    ensures memory { IfErr result IsOutOfMemory }
{
    if tokenizer.tokenize_state.connect {
        return enter_chunk(tokenizer, name);
    }
    tokenizer.enter(name)
}

/// Adds an event round the byte, and moves over it: within a string a chunk.
pub fn around_part<M, T, A: Allocator>(
    tokenizer: &mut Tokenizer<'_, M, T, A>,
    name: Name,
) -> Result<(), Message>
    ensures became { OnOk result (Became (with_part name (config tokenizer.old)) tokenizer.old tokenizer.new) }
    ensures parse_state { KeepsParseState tokenizer.old tokenizer.new }
    ensures skips { tokenizer.new.skips ≡ tokenizer.old.skips }
    ensures memory { IfErr result IsOutOfMemory }
{
    enter_part(tokenizer, name)?;
    tokenizer.consume();
    tokenizer.exit(name)
}
