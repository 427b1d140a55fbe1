//! List items (CommonMark 5.2).
//!
//! ```text
//! list_item_prefix ::= [space_or_tab] ('*' | '+' | '-' | 1*9digit ('.' | ')')) space
//! ```
//!
//! Where the content begins is the width of the item.
ghost use Rattle.std.specs.Prelude.{[], ◌∷◌};
ghost use Rattle.engine_events.specs.declared.event.Name.TheVariants as names;
ghost use Rattle.engine_programs.specs.Bodies.{FixedName};
ghost use Rattle.engine_programs.specs.Stacks.{Does, IsOpen};
ghost use Rattle.markdown_engine.specs.Machine.{constructs_of};
ghost use Rattle.state_containers.specs.ListItem.{list_item_start, list_item_before, list_item_before_unordered};
ghost use Rattle.state_containers.specs.ListItem.{list_item_before_ordered, list_item_value, list_item_marker};
ghost use Rattle.state_containers.specs.ListItem.{list_item_marker_after, list_item_marker_after_filled, list_item_whitespace};
ghost use Rattle.state_containers.specs.ListItem.{list_item_whitespace_after, list_item_prefix_other, list_item_after};
ghost use Rattle.state_containers.specs.ListItem.{list_item_cont_start, list_item_cont_blank, list_item_cont_filled};

use crate::open::{fill, go_on_blank, go_on_indented, item_width, value_with};
use engine_programs::around::around;
use engine_programs::steps::{attempt_to, check_to, exit_to};
use markdown_engine::event::Name as EventName;
use markdown_engine::state::{Block, State};
use markdown_engine::tokenizer::Tokenizer;
use markdown_options::constants::{LIST_ITEM_VALUE_SIZE_MAX, TAB_SIZE};
use state_table::block::{next, retry};
use state_table::steps::{around_to, consume_to, enter_before, enter_both_to, exit_before};
use state_table::white::{over_indent, white_to};
use std::alloc::Allocator;

/// At the start.
pub fn start<M, T, A: Allocator>(tokenizer: &mut Tokenizer<'_, M, T, A>) -> State
    ensures { Does (list_item_start (constructs_of tokenizer.old)) tokenizer.old tokenizer.new result }
{
    if !tokenizer.parse_state.options.constructs.list_item {
        return State::Nok;
    }
    over_indent(tokenizer, Block::ListItemBefore)
}

/// At the marker or the number.
pub fn before<M, T, A: Allocator>(tokenizer: &mut Tokenizer<'_, M, T, A>) -> State
    ensures { Does list_item_before tokenizer.old tokenizer.new result }
{
    let Some(byte) = tokenizer.current else {
        return State::Nok;
    };
    if matches!(byte, b'*' | b'-') {
        return check_to(
            tokenizer,
            State::Nok,
            next(Block::ListItemBeforeUnordered),
            retry(Block::ThematicBreakStart),
        );
    }
    if byte == b'+' {
        return retry(Block::ListItemBeforeUnordered);
    }
    if byte.is_ascii_digit() {
        return retry(Block::ListItemBeforeOrdered);
    }
    State::Nok
}

/// At the marker.
pub fn before_unordered<M, T, A: Allocator>(tokenizer: &mut Tokenizer<'_, M, T, A>) -> State
    ensures { Does list_item_before_unordered tokenizer.old tokenizer.new result }
{
    enter_before(tokenizer, EventName::ListItemPrefix, Block::ListItemMarker)
}

/// At the number.
pub fn before_ordered<M, T, A: Allocator>(tokenizer: &mut Tokenizer<'_, M, T, A>) -> State
    ensures { Does list_item_before_ordered tokenizer.old tokenizer.new result }
{
    match tokenizer.current {
        None => State::Nok,
        Some(_) => {
            tokenizer.tokenize_state.size = 1;
            tokenizer.tokenize_state.size_b = value_with(0, tokenizer.current);
            enter_both_to(
                tokenizer,
                EventName::ListItemPrefix,
                EventName::ListItemValue,
                Block::ListItemValue,
            )
        },
    }
}

/// In the number.
pub fn value<M, T, A: Allocator>(tokenizer: &mut Tokenizer<'_, M, T, A>) -> State
    requires { IsOpen (FixedName names.ListItemValue ∷ FixedName names.ListItemPrefix ∷ []) tokenizer.old }
    ensures { Does list_item_value tokenizer.old tokenizer.new result }
{
    let Some(byte) = tokenizer.current else {
        return State::Nok;
    };
    if matches!(byte, b')' | b'.') {
        if tokenizer.interrupt && tokenizer.tokenize_state.size_b != 1 {
            return State::Nok;
        }
        return exit_before(tokenizer, EventName::ListItemValue, Block::ListItemMarker);
    }
    if byte.is_ascii_digit() && tokenizer.tokenize_state.size < LIST_ITEM_VALUE_SIZE_MAX {
        tokenizer.tokenize_state.size = tokenizer.tokenize_state.size.saturating_add(1);
        tokenizer.tokenize_state.size_b = value_with(
            tokenizer.tokenize_state.size_b,
            tokenizer.current,
        );
        return consume_to(tokenizer, Block::ListItemValue);
    }
    State::Nok
}

/// At the marker.
pub fn marker<M, T, A: Allocator>(tokenizer: &mut Tokenizer<'_, M, T, A>) -> State
    ensures { Does list_item_marker tokenizer.old tokenizer.new result }
{
    match tokenizer.current {
        None => State::Nok,
        Some(_) => around_to(
            tokenizer,
            EventName::ListItemMarker,
            Block::ListItemMarkerAfter,
        ),
    }
}

/// After the marker.
pub fn marker_after<M, T, A: Allocator>(tokenizer: &mut Tokenizer<'_, M, T, A>) -> State
    ensures { Does list_item_marker_after tokenizer.old tokenizer.new result }
{
    tokenizer.tokenize_state.size = 1;
    check_to(
        tokenizer,
        next(Block::ListItemAfter),
        next(Block::ListItemMarkerAfterFilled),
        retry(Block::BlankLineStart),
    )
}

/// After the marker of an item that begins with content.
pub fn marker_after_filled<M, T, A: Allocator>(tokenizer: &mut Tokenizer<'_, M, T, A>) -> State
    ensures { Does list_item_marker_after_filled tokenizer.old tokenizer.new result }
{
    tokenizer.tokenize_state.size = 0;
    attempt_to(
        tokenizer,
        next(Block::ListItemAfter),
        next(Block::ListItemPrefixOther),
        retry(Block::ListItemWhitespace),
    )
}

/// At the white space.
pub fn whitespace<M, T, A: Allocator>(tokenizer: &mut Tokenizer<'_, M, T, A>) -> State
    ensures { Does list_item_whitespace tokenizer.old tokenizer.new result }
{
    match tokenizer.current {
        Some(b'\t' | b' ') => {
            tokenizer.tokenize_state.seen = false;
            white_to(tokenizer, TAB_SIZE, Block::ListItemWhitespaceAfter)
        },
        _ => State::Nok,
    }
}

/// After up to four columns of a first line, or up to the width of a further one.
pub fn whitespace_after<M, T, A: Allocator>(tokenizer: &mut Tokenizer<'_, M, T, A>) -> State
    ensures { Does list_item_whitespace_after tokenizer.old tokenizer.new result }
{
    if tokenizer.tokenize_state.seen {
        if tokenizer.tokenize_state.size_c != 0 {
            return State::Nok;
        }
        fill(&mut tokenizer.tokenize_state);
        return State::Ok;
    }
    match tokenizer.current {
        Some(b'\t' | b' ') => State::Nok,
        _ => State::Ok,
    }
}

/// At more white space.
pub fn prefix_other<M, T, A: Allocator>(tokenizer: &mut Tokenizer<'_, M, T, A>) -> State
    ensures { Does list_item_prefix_other tokenizer.old tokenizer.new result }
{
    match tokenizer.current {
        Some(b'\t' | b' ') => around_to(tokenizer, EventName::SpaceOrTab, Block::ListItemAfter),
        _ => State::Nok,
    }
}

/// At the content.
pub fn after<M, T, A: Allocator>(tokenizer: &mut Tokenizer<'_, M, T, A>) -> State
    requires { IsOpen (FixedName names.ListItemPrefix ∷ []) tokenizer.old }
    ensures { Does list_item_after tokenizer.old tokenizer.new result }
{
    if tokenizer.interrupt && tokenizer.tokenize_state.size == 1 {
        return State::Nok;
    }
    tokenizer.tokenize_state.start = item_width(tokenizer.point.column, &tokenizer.tokenize_state);
    tokenizer.tokenize_state.space_or_tab_eol_ok = tokenizer.tokenize_state.size == 1;
    if tokenizer.tokenize_state.size == 1 {
        return match tokenizer.current {
            Some(b'\t' | b' ') => {
                if around(tokenizer, EventName::SpaceOrTab).is_err() {
                    return State::out_of_memory();
                }
                exit_to(tokenizer, EventName::ListItemPrefix, State::Ok)
            },
            _ => exit_to(tokenizer, EventName::ListItemPrefix, State::Ok),
        };
    }
    exit_to(tokenizer, EventName::ListItemPrefix, State::Ok)
}

/// At the start of a further line.
pub fn cont_start<M, T, A: Allocator>(tokenizer: &mut Tokenizer<'_, M, T, A>) -> State
    ensures { Does list_item_cont_start tokenizer.old tokenizer.new result }
{
    check_to(
        tokenizer,
        next(Block::ListItemContBlank),
        next(Block::ListItemContFilled),
        retry(Block::BlankLineStart),
    )
}

/// At a blank line.
pub fn cont_blank<M, T, A: Allocator>(tokenizer: &mut Tokenizer<'_, M, T, A>) -> State
    ensures { Does list_item_cont_blank tokenizer.old tokenizer.new result }
{
    go_on_blank(tokenizer)
}

/// At a line with content.
pub fn cont_filled<M, T, A: Allocator>(tokenizer: &mut Tokenizer<'_, M, T, A>) -> State
    ensures { Does list_item_cont_filled tokenizer.old tokenizer.new result }
{
    go_on_indented(tokenizer)
}
