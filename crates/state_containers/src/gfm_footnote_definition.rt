//! Footnote definitions (GFM).
//!
//! ```text
//! gfm_footnote_definition_prefix ::= [space_or_tab] '[^' label ']:' *space_or_tab
//! ```
//!
//! It goes on on lines that are indented.
ghost use Rattle.std.specs.Prelude.{[], ◌∷◌};
ghost use Rattle.engine_events.specs.declared.event.Name.TheVariants as names;
ghost use Rattle.engine_programs.specs.Bodies.{FixedName};
ghost use Rattle.engine_programs.specs.Stacks.{Does, IsOpen};
ghost use Rattle.markdown_engine.specs.Machine.{constructs_of};
ghost use Rattle.state_table.specs.BlockTable.{footnote_string_tokens};
ghost use Rattle.state_containers.specs.GfmFootnoteDefinition.{gfm_footnote_definition_start, gfm_footnote_definition_label_before};
ghost use Rattle.state_containers.specs.GfmFootnoteDefinition.{gfm_footnote_definition_label_at_marker};
ghost use Rattle.state_containers.specs.GfmFootnoteDefinition.{gfm_footnote_definition_label_inside, gfm_footnote_definition_label_escape};
ghost use Rattle.state_containers.specs.GfmFootnoteDefinition.{gfm_footnote_definition_label_after};
ghost use Rattle.state_containers.specs.GfmFootnoteDefinition.{gfm_footnote_definition_whitespace_after, gfm_footnote_definition_cont_start};
ghost use Rattle.state_containers.specs.GfmFootnoteDefinition.{gfm_footnote_definition_cont_blank};
ghost use Rattle.state_containers.specs.GfmFootnoteDefinition.{gfm_footnote_definition_cont_filled};

use crate::open::{go_on_blank, go_on_indented};
use engine_programs::around::{around, leave};
use engine_programs::steps::{check_to, exit_to};
use markdown_engine::event::Name as EventName;
use markdown_engine::state::{Block, State};
use markdown_engine::tokenizer::Tokenizer;
use markdown_options::constants::{LINK_REFERENCE_SIZE_MAX, TAB_SIZE};
use state_table::block::{next, retry};
use state_table::links::STRING;
use state_table::steps::{around_if, around_to, consume_to};
use state_table::white::{over_indent, white_to};
use std::alloc::Allocator;

/// At the start.
pub fn start<M, T, A: Allocator>(tokenizer: &mut Tokenizer<'_, M, T, A>) -> State
    ensures { Does (gfm_footnote_definition_start (constructs_of tokenizer.old)) tokenizer.old tokenizer.new result }
{
    if !tokenizer
        .parse_state
        .options
        .constructs
        .gfm_footnote_definition
    {
        return State::Nok;
    }
    over_indent(tokenizer, Block::GfmFootnoteDefinitionLabelBefore)
}

/// At the `[`.
pub fn label_before<M, T, A: Allocator>(tokenizer: &mut Tokenizer<'_, M, T, A>) -> State
    ensures { Does gfm_footnote_definition_label_before tokenizer.old tokenizer.new result }
{
    if tokenizer.current != Some(b'[') {
        return State::Nok;
    }
    if tokenizer
        .enter(EventName::GfmFootnoteDefinitionPrefix)
        .is_err()
    {
        return State::out_of_memory();
    }
    if tokenizer
        .enter(EventName::GfmFootnoteDefinitionLabel)
        .is_err()
    {
        return State::out_of_memory();
    }
    around_to(
        tokenizer,
        EventName::GfmFootnoteDefinitionLabelMarker,
        Block::GfmFootnoteDefinitionLabelAtMarker,
    )
}

/// At the `^`.
pub fn label_at_marker<M, T, A: Allocator>(tokenizer: &mut Tokenizer<'_, M, T, A>) -> State
    ensures { Does gfm_footnote_definition_label_at_marker tokenizer.old tokenizer.new result }
{
    if tokenizer.current != Some(b'^') {
        return State::Nok;
    }
    tokenizer.tokenize_state.size = 0;
    if around(tokenizer, EventName::GfmFootnoteDefinitionMarker).is_err() {
        return State::out_of_memory();
    }
    if tokenizer
        .enter(EventName::GfmFootnoteDefinitionLabelString)
        .is_err()
    {
        return State::out_of_memory();
    }
    if tokenizer.enter_link(EventName::Data, STRING).is_err() {
        return State::out_of_memory();
    }
    next(Block::GfmFootnoteDefinitionLabelInside)
}

/// In the label.
pub fn label_inside<M, T, A: Allocator>(tokenizer: &mut Tokenizer<'_, M, T, A>) -> State
    requires { IsOpen footnote_string_tokens tokenizer.old }
    ensures { Does gfm_footnote_definition_label_inside tokenizer.old tokenizer.new result }
{
    match tokenizer.current {
        None | Some(b'\t' | b'\n' | b' ' | b'[') => State::Nok,
        Some(b']') => {
            if tokenizer.tokenize_state.size == 0 {
                return State::Nok;
            }
            if tokenizer.previous == Some(b'\n') {
                return State::Nok;
            }
            if leave(tokenizer, EventName::Data).is_err() {
                return State::out_of_memory();
            }
            if leave(tokenizer, EventName::GfmFootnoteDefinitionLabelString).is_err() {
                return State::out_of_memory();
            }
            if around(tokenizer, EventName::GfmFootnoteDefinitionLabelMarker).is_err() {
                return State::out_of_memory();
            }
            exit_to(
                tokenizer,
                EventName::GfmFootnoteDefinitionLabel,
                next(Block::GfmFootnoteDefinitionLabelAfter),
            )
        },
        Some(_) => {
            if tokenizer.tokenize_state.size >= LINK_REFERENCE_SIZE_MAX {
                return State::Nok;
            }
            tokenizer.tokenize_state.size = tokenizer.tokenize_state.size.saturating_add(1);
            let state = match tokenizer.current {
                Some(b'\\') => Block::GfmFootnoteDefinitionLabelEscape,
                _ => Block::GfmFootnoteDefinitionLabelInside,
            };
            consume_to(tokenizer, state)
        },
    }
}

/// After a backslash.
pub fn label_escape<M, T, A: Allocator>(tokenizer: &mut Tokenizer<'_, M, T, A>) -> State
    ensures { Does gfm_footnote_definition_label_escape tokenizer.old tokenizer.new result }
{
    match tokenizer.current {
        Some(b'[' | b'\\' | b']') => {
            if tokenizer.tokenize_state.size >= LINK_REFERENCE_SIZE_MAX {
                return State::Nok;
            }
            tokenizer.tokenize_state.size = tokenizer.tokenize_state.size.saturating_add(1);
            consume_to(tokenizer, Block::GfmFootnoteDefinitionLabelInside)
        },
        _ => retry(Block::GfmFootnoteDefinitionLabelInside),
    }
}

/// After the label.
pub fn label_after<M, T, A: Allocator>(tokenizer: &mut Tokenizer<'_, M, T, A>) -> State
    ensures { Does gfm_footnote_definition_label_after tokenizer.old tokenizer.new result }
{
    around_if(
        tokenizer,
        b':',
        EventName::DefinitionMarker,
        Block::GfmFootnoteDefinitionWhitespaceAfter,
        State::Nok,
    )
}

/// After the `:`.
pub fn whitespace_after<M, T, A: Allocator>(tokenizer: &mut Tokenizer<'_, M, T, A>) -> State
    requires { IsOpen (FixedName names.GfmFootnoteDefinitionPrefix ∷ []) tokenizer.old }
    ensures { Does gfm_footnote_definition_whitespace_after tokenizer.old tokenizer.new result }
{
    match tokenizer.current {
        Some(b'\t' | b' ') => white_to(
            tokenizer,
            usize::MAX,
            Block::GfmFootnoteDefinitionWhitespaceAfter,
        ),
        _ => {
            tokenizer.tokenize_state.start = TAB_SIZE;
            tokenizer.tokenize_state.space_or_tab_eol_ok = false;
            exit_to(tokenizer, EventName::GfmFootnoteDefinitionPrefix, State::Ok)
        },
    }
}

/// At the start of a further line.
pub fn cont_start<M, T, A: Allocator>(tokenizer: &mut Tokenizer<'_, M, T, A>) -> State
    ensures { Does gfm_footnote_definition_cont_start tokenizer.old tokenizer.new result }
{
    check_to(
        tokenizer,
        next(Block::GfmFootnoteDefinitionContBlank),
        next(Block::GfmFootnoteDefinitionContFilled),
        retry(Block::BlankLineStart),
    )
}

/// At a blank line.
pub fn cont_blank<M, T, A: Allocator>(tokenizer: &mut Tokenizer<'_, M, T, A>) -> State
    ensures { Does gfm_footnote_definition_cont_blank tokenizer.old tokenizer.new result }
{
    go_on_blank(tokenizer)
}

/// At a line with content.
pub fn cont_filled<M, T, A: Allocator>(tokenizer: &mut Tokenizer<'_, M, T, A>) -> State
    ensures { Does gfm_footnote_definition_cont_filled tokenizer.old tokenizer.new result }
{
    go_on_indented(tokenizer)
}
