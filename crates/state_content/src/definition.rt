//! Definitions of links (CommonMark 4.7).
//!
//! ```text
//! definition ::= [space_or_tab] label ':' [space_or_tab_eol] destination [space_or_tab_eol title] [space_or_tab]
//! ```
//!
//! If more than spaces and tabs follows a title on its line, it is no title. Then the definition must end on the
//! line of its destination.
ghost use Rattle.std.specs.Prelude.{[], ◌∷◌};
ghost use Rattle.engine_events.specs.declared.event.Name.TheVariants as names;
ghost use Rattle.engine_programs.specs.Bodies.{FixedName};
ghost use Rattle.engine_programs.specs.Stacks.{Does, IsOpen};
ghost use Rattle.markdown_engine.specs.Machine.{constructs_of};
ghost use Rattle.state_content.specs.Definition.{definition_start, definition_before, definition_label_after};
ghost use Rattle.state_content.specs.Definition.{definition_label_nok, definition_marker_after, definition_destination_before};
ghost use Rattle.state_content.specs.Definition.{definition_destination_after, definition_destination_missing, definition_after};
ghost use Rattle.state_content.specs.Definition.{definition_after_whitespace, definition_title_before, definition_title_before_marker};
ghost use Rattle.state_content.specs.Definition.{definition_title_after, definition_title_after_optional_whitespace};

use engine_programs::steps::{attempt_to, exit_to};
use markdown_engine::event::Name as EventName;
use markdown_engine::state::{Block, Inline, State};
use markdown_engine::tokenizer::Tokenizer;
use state_table::block::{next, part, retry};
use state_table::steps::around_if;
use state_table::white::over_white;
use std::alloc::Allocator;

/// At the start of a line.
pub fn start<M, T, A: Allocator>(tokenizer: &mut Tokenizer<'_, M, T, A>) -> State
    ensures { Does (definition_start (constructs_of tokenizer.old)) tokenizer.old tokenizer.new result }
{
    if !tokenizer.parse_state.options.constructs.definition {
        return State::Nok;
    }
    if tokenizer.enter(EventName::Definition).is_err() {
        return State::out_of_memory();
    }
    over_white(tokenizer, usize::MAX, Block::DefinitionBefore)
}

/// At the `[`.
pub fn before<M, T, A: Allocator>(tokenizer: &mut Tokenizer<'_, M, T, A>) -> State
    ensures { Does definition_before tokenizer.old tokenizer.new result }
{
    if tokenizer.current != Some(b'[') {
        return State::Nok;
    }
    tokenizer.tokenize_state.token_1 = EventName::DefinitionLabel;
    tokenizer.tokenize_state.token_2 = EventName::DefinitionLabelMarker;
    tokenizer.tokenize_state.token_3 = EventName::DefinitionLabelString;
    attempt_to(
        tokenizer,
        next(Block::DefinitionLabelAfter),
        next(Block::DefinitionLabelNok),
        part(Inline::LabelStart),
    )
}

/// After the label.
pub fn label_after<M, T, A: Allocator>(tokenizer: &mut Tokenizer<'_, M, T, A>) -> State
    ensures { Does definition_label_after tokenizer.old tokenizer.new result }
{
    around_if(
        tokenizer,
        b':',
        EventName::DefinitionMarker,
        Block::DefinitionMarkerAfter,
        State::Nok,
    )
}

/// If there is no label.
pub fn label_nok<M, T, A: Allocator>(tokenizer: &mut Tokenizer<'_, M, T, A>) -> State
    ensures { Does definition_label_nok tokenizer.old tokenizer.new result }
{
    State::Nok
}

/// After the `:`.
pub fn marker_after<M, T, A: Allocator>(tokenizer: &mut Tokenizer<'_, M, T, A>) -> State
    ensures { Does definition_marker_after tokenizer.old tokenizer.new result }
{
    match tokenizer.current {
        Some(b'\t' | b'\n' | b' ') => attempt_to(
            tokenizer,
            next(Block::DefinitionDestinationBefore),
            State::Nok,
            part(Inline::SpaceOrTabEolStart),
        ),
        _ => retry(Block::DefinitionDestinationBefore),
    }
}

/// Before the destination.
pub fn destination_before<M, T, A: Allocator>(tokenizer: &mut Tokenizer<'_, M, T, A>) -> State
    ensures { Does definition_destination_before tokenizer.old tokenizer.new result }
{
    tokenizer.tokenize_state.token_1 = EventName::DefinitionDestination;
    tokenizer.tokenize_state.token_2 = EventName::DefinitionDestinationLiteral;
    tokenizer.tokenize_state.token_3 = EventName::DefinitionDestinationLiteralMarker;
    tokenizer.tokenize_state.token_4 = EventName::DefinitionDestinationRaw;
    tokenizer.tokenize_state.token_5 = EventName::DefinitionDestinationString;
    tokenizer.tokenize_state.size_b = usize::MAX;
    attempt_to(
        tokenizer,
        next(Block::DefinitionDestinationAfter),
        next(Block::DefinitionDestinationMissing),
        part(Inline::DestinationStart),
    )
}

/// After the destination.
pub fn destination_after<M, T, A: Allocator>(tokenizer: &mut Tokenizer<'_, M, T, A>) -> State
    ensures { Does definition_destination_after tokenizer.old tokenizer.new result }
{
    match tokenizer.current {
        Some(b'\t' | b'\n' | b' ') => attempt_to(
            tokenizer,
            next(Block::DefinitionAfter),
            next(Block::DefinitionAfter),
            retry(Block::DefinitionTitleBefore),
        ),
        _ => retry(Block::DefinitionAfter),
    }
}

/// If there is no destination.
pub fn destination_missing<M, T, A: Allocator>(tokenizer: &mut Tokenizer<'_, M, T, A>) -> State
    ensures { Does definition_destination_missing tokenizer.old tokenizer.new result }
{
    State::Nok
}

/// After the title, or after the destination if there is none.
pub fn after<M, T, A: Allocator>(tokenizer: &mut Tokenizer<'_, M, T, A>) -> State
    ensures { Does definition_after tokenizer.old tokenizer.new result }
{
    over_white(tokenizer, usize::MAX, Block::DefinitionAfterWhitespace)
}

/// After spaces and tabs at the end.
pub fn after_whitespace<M, T, A: Allocator>(tokenizer: &mut Tokenizer<'_, M, T, A>) -> State
    requires { IsOpen (FixedName names.Definition ∷ []) tokenizer.old }
    ensures { Does definition_after_whitespace tokenizer.old tokenizer.new result }
{
    match tokenizer.current {
        None | Some(b'\n') => exit_to(tokenizer, EventName::Definition, State::Ok),
        Some(_) => State::Nok,
    }
}

/// At the white space before a title.
pub fn title_before<M, T, A: Allocator>(tokenizer: &mut Tokenizer<'_, M, T, A>) -> State
    ensures { Does definition_title_before tokenizer.old tokenizer.new result }
{
    match tokenizer.current {
        Some(b'\t' | b'\n' | b' ') => attempt_to(
            tokenizer,
            next(Block::DefinitionTitleBeforeMarker),
            State::Nok,
            part(Inline::SpaceOrTabEolStart),
        ),
        _ => State::Nok,
    }
}

/// At the title.
pub fn title_before_marker<M, T, A: Allocator>(tokenizer: &mut Tokenizer<'_, M, T, A>) -> State
    ensures { Does definition_title_before_marker tokenizer.old tokenizer.new result }
{
    tokenizer.tokenize_state.token_1 = EventName::DefinitionTitle;
    tokenizer.tokenize_state.token_2 = EventName::DefinitionTitleMarker;
    tokenizer.tokenize_state.token_3 = EventName::DefinitionTitleString;
    attempt_to(
        tokenizer,
        next(Block::DefinitionTitleAfter),
        State::Nok,
        part(Inline::TitleStart),
    )
}

/// After a title, which must end its line.
pub fn title_after<M, T, A: Allocator>(tokenizer: &mut Tokenizer<'_, M, T, A>) -> State
    ensures { Does definition_title_after tokenizer.old tokenizer.new result }
{
    over_white(
        tokenizer,
        usize::MAX,
        Block::DefinitionTitleAfterOptionalWhitespace,
    )
}

/// After the spaces and tabs behind a title.
pub fn title_after_optional_whitespace<M, T, A: Allocator>(
    tokenizer: &mut Tokenizer<'_, M, T, A>,
) -> State
    ensures { Does definition_title_after_optional_whitespace tokenizer.old tokenizer.new result }
{
    match tokenizer.current {
        None | Some(b'\n') => State::Ok,
        Some(_) => State::Nok,
    }
}
