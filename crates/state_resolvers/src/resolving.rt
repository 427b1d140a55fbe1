//! The resolvers of texts and strings.
ghost use Rattle.std.specs.Prelude.{◌≡◌, OnOk, IfErr};
ghost use Rattle.markdown_options.specs.Messages.{IsOutOfMemory};
ghost use Rattle.markdown_engine.specs.Machine.{config, read_with, KeepsParseState};
ghost use Rattle.state_resolvers.specs.Resolving.{HasEdited, inline_resolved, join_chunks, link_text, name_emails, name_spans, name_text};
ghost use Rattle.state_resolvers.specs.Resolving.{resolve_attention, resolve_data, resolve_label, resolve_string, resolve_text, resolve_whitespace};
ghost use Rattle.state_resolvers.specs.Resolving.{trim_string, trim_text};

use crate::edited_events::make;
use engine_chunks::link_all;
use markdown_engine::Message;
use markdown_engine::resolve::Name;
use markdown_engine::tokenizer::Tokenizer;
use markdown_options::Tables;
use state_edits_attention::attention::attention_edits;
use state_edits_data::partial_data::data_edits;
use state_edits_data::partial_whitespace::{Trimming, white_edits};
use state_edits_data::raw_text::span_edits;
use state_edits_links::autolink::email_edits;
use state_edits_links::gfm_autolink_literal::address_edits;
use state_edits_links::label_end::label_edits;
use std::alloc::Allocator;

/// Joins data that stands side by side.
pub fn resolve_data<M, T, A: Allocator + Clone>(
    tokenizer: &mut Tokenizer<'_, M, T, A>,
) -> Result<(), Message>
    ensures became { OnOk result (config tokenizer.new ≡ resolve_data (config tokenizer.old)) }
    ensures parse_state { KeepsParseState tokenizer.old tokenizer.new }
    ensures memory { IfErr result IsOutOfMemory }
{
    let edits = data_edits(tokenizer.events.allocator().clone()?, &tokenizer.events)?;
    make(tokenizer, edits)
}

/// Puts links, images and calls in place of the labels that were found.
pub fn resolve_label<M, T, A: Allocator + Clone>(
    tokenizer: &mut Tokenizer<'_, M, T, A>,
) -> Result<(), Message>
    ensures became { OnOk result (config tokenizer.new ≡ resolve_label (config tokenizer.old)) }
    ensures parse_state { KeepsParseState tokenizer.old tokenizer.new }
    ensures memory { IfErr result IsOutOfMemory }
{
    let alloc = tokenizer.events.allocator().clone()?;
    let edits = label_edits(&alloc, &tokenizer.events, &tokenizer.tokenize_state)?;
    make(tokenizer, edits)
}

/// Puts emphasis and the other spans in place of the runs that go together.
pub fn resolve_attention<M, T: Tables, A: Allocator + Clone>(
    tokenizer: &mut Tokenizer<'_, M, T, A>,
) -> Result<(), Message>
    ensures became { OnOk result (HasEdited T.punctuation_of resolve_attention tokenizer.old tokenizer.new) }
    ensures parse_state { KeepsParseState tokenizer.old tokenizer.new }
    ensures memory { IfErr result IsOutOfMemory }
{
    let alloc = tokenizer.events.allocator().clone()?;
    let edits = attention_edits(&alloc, tokenizer.parse_state, &tokenizer.events)?;
    make(tokenizer, edits)
}

/// Gives runs within code and math the name of its text.
fn name_spans<M, T, A: Allocator + Clone>(
    tokenizer: &mut Tokenizer<'_, M, T, A>,
) -> Result<(), Message>
    ensures became { OnOk result (config tokenizer.new ≡ name_spans (config tokenizer.old)) }
    ensures parse_state { KeepsParseState tokenizer.old tokenizer.new }
    ensures memory { IfErr result IsOutOfMemory }
{
    let alloc = tokenizer.events.allocator().clone()?;
    let edits = span_edits(&alloc, &tokenizer.events)?;
    make(tokenizer, edits)
}

/// Gives email addresses in autolinks their name.
fn name_emails<M, T: Tables, A: Allocator + Clone>(
    tokenizer: &mut Tokenizer<'_, M, T, A>,
) -> Result<(), Message>
    ensures became { OnOk result (HasEdited T.punctuation_of name_emails tokenizer.old tokenizer.new) }
    ensures parse_state { KeepsParseState tokenizer.old tokenizer.new }
    ensures memory { IfErr result IsOutOfMemory }
{
    let alloc = tokenizer.events.allocator().clone()?;
    let edits = email_edits(&alloc, tokenizer.parse_state.bytes, &tokenizer.events)?;
    make(tokenizer, edits)
}

/// Gives email addresses in autolinks, and runs within code and math, their names.
fn name_text<M, T: Tables, A: Allocator + Clone>(
    tokenizer: &mut Tokenizer<'_, M, T, A>,
) -> Result<(), Message>
    ensures became { OnOk result (HasEdited T.punctuation_of name_text tokenizer.old tokenizer.new) }
    ensures parse_state { KeepsParseState tokenizer.old tokenizer.new }
    ensures memory { IfErr result IsOutOfMemory }
{
    name_emails(tokenizer)?;
    name_spans(tokenizer)
}

/// Cuts white space off the ends of the lines of data, and with `trim_whole` off its ends, too. With
/// `hard_break` two spaces or more before a line ending are a hard break (CommonMark 6.7).
pub fn resolve_whitespace<M, T, A: Allocator + Clone>(
    tokenizer: &mut Tokenizer<'_, M, T, A>,
    hard_break: bool,
    trim_whole: bool,
) -> Result<(), Message>
    ensures became { OnOk result (config tokenizer.new
        ≡ resolve_whitespace hard_break trim_whole (read_with tokenizer.old).bytes (config tokenizer.old)) }
    ensures parse_state { KeepsParseState tokenizer.old tokenizer.new }
    ensures memory { IfErr result IsOutOfMemory }
{
    let trimming = Trimming {
        in_text: trim_whole,
        hard: hard_break,
        bytes: tokenizer.parse_state.bytes,
    };
    let alloc = tokenizer.events.allocator().clone()?;
    let edits = white_edits(alloc, &trimming, &tokenizer.events)?;
    make(tokenizer, edits)
}

/// Cuts white space off the ends of a text, and of its lines.
fn trim_text<M, T: Tables, A: Allocator + Clone>(
    tokenizer: &mut Tokenizer<'_, M, T, A>,
) -> Result<(), Message>
    ensures became { OnOk result (HasEdited T.punctuation_of trim_text tokenizer.old tokenizer.new) }
    ensures parse_state { KeepsParseState tokenizer.old tokenizer.new }
    ensures memory { IfErr result IsOutOfMemory }
{
    let hard = tokenizer.parse_state.options.constructs.hard_break_trailing;
    resolve_whitespace(tokenizer, hard, true)
}

/// Puts email addresses in place of data, where literals are on (GFM 6.9).
pub fn link_text<M, T: Tables, A: Allocator + Clone>(
    tokenizer: &mut Tokenizer<'_, M, T, A>,
) -> Result<(), Message>
    ensures became { OnOk result (HasEdited T.punctuation_of link_text tokenizer.old tokenizer.new) }
    ensures parse_state { KeepsParseState tokenizer.old tokenizer.new }
    ensures memory { IfErr result IsOutOfMemory }
{
    if !tokenizer
        .parse_state
        .options
        .constructs
        .gfm_autolink_literal
    {
        return Ok(());
    }
    let alloc = tokenizer.events.allocator().clone()?;
    let edits = address_edits(&alloc, tokenizer.parse_state.bytes, &tokenizer.events)?;
    make(tokenizer, edits)
}

/// Gives each chunk the one after it.
fn join_chunks<M, T, A: Allocator>(tokenizer: &mut Tokenizer<'_, M, T, A>)
    ensures became { config tokenizer.new ≡ join_chunks (config tokenizer.old) }
    ensures parse_state { KeepsParseState tokenizer.old tokenizer.new }
{
    link_all(&mut tokenizer.events);
}

/// Names email addresses in autolinks and runs within code and math, cuts white space off the ends
/// of a text, and of its lines, finds email addresses in data, and joins chunks.
pub fn resolve_text<M, T: Tables, A: Allocator + Clone>(
    tokenizer: &mut Tokenizer<'_, M, T, A>,
) -> Result<(), Message>
    ensures became { OnOk result (HasEdited T.punctuation_of resolve_text tokenizer.old tokenizer.new) }
    ensures parse_state { KeepsParseState tokenizer.old tokenizer.new }
    ensures memory { IfErr result IsOutOfMemory }
{
    name_text(tokenizer)?;
    trim_text(tokenizer)?;
    link_text(tokenizer)?;
    join_chunks(tokenizer);
    Ok(())
}

/// Cuts white space off the ends of the lines of a string.
fn trim_string<M, T: Tables, A: Allocator + Clone>(
    tokenizer: &mut Tokenizer<'_, M, T, A>,
) -> Result<(), Message>
    ensures became { OnOk result (HasEdited T.punctuation_of trim_string tokenizer.old tokenizer.new) }
    ensures parse_state { KeepsParseState tokenizer.old tokenizer.new }
    ensures memory { IfErr result IsOutOfMemory }
{
    resolve_whitespace(tokenizer, false, false)
}

/// Cuts white space off the ends of the lines of a string, and joins chunks.
pub fn resolve_string<M, T: Tables, A: Allocator + Clone>(
    tokenizer: &mut Tokenizer<'_, M, T, A>,
) -> Result<(), Message>
    ensures became { OnOk result (HasEdited T.punctuation_of resolve_string tokenizer.old tokenizer.new) }
    ensures parse_state { KeepsParseState tokenizer.old tokenizer.new }
    ensures memory { IfErr result IsOutOfMemory }
{
    trim_string(tokenizer)?;
    join_chunks(tokenizer);
    Ok(())
}

/// Runs a resolver.
#[tactic(auto, unfolding(crate::specs::Resolving::inline_resolved))]
pub fn resolve<M, T: Tables, A: Allocator + Clone>(
    tokenizer: &mut Tokenizer<'_, M, T, A>,
    name: Name,
) -> Result<(), Message>
    ensures config { OnOk result (config tokenizer.new
        ≡ (inline_resolved (T.punctuation_of (read_with tokenizer.old).tables) (read_with tokenizer.old) (config tokenizer.old) name).config) }
    ensures parse_state { KeepsParseState tokenizer.old tokenizer.new }
    ensures memory { IfErr result IsOutOfMemory }
{
    match name {
        Name::Data => resolve_data(tokenizer),
        Name::Label => resolve_label(tokenizer),
        Name::Attention => resolve_attention(tokenizer),
        Name::Text => resolve_text(tokenizer),
        Name::String => resolve_string(tokenizer),
        _ => Ok(()),
    }
}
