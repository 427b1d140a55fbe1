//! The containers that are open, of which `space_or_tab_max` went on so far on the line.
ghost use Rattle.std.specs.Prelude.{◌≡◌, ◌≤◌, length, OnOk};
ghost use Rattle.markdown_engine.specs.KeptState.{kept_state};
ghost use Rattle.std.specs.List.{fold, prefix_len};
ghost use Rattle.engine_programs.specs.Stacks.{Does};
ghost use Rattle.state_containers.specs.Open.{begins_blank, begun, begun_containers, blank_end, blank_size, filled, go_on_blank, go_on_indented};
ghost use Rattle.state_containers.specs.Open.{goes_on_blank, is_mark, is_more_open, is_open, item_width, next_open, open_size, rest_open, value_with, width_with};

use markdown_engine::container::{Container, ContainerState};
use markdown_engine::state::{Block, State};
use markdown_engine::tokenize_state::TokenizeState;
use markdown_engine::tokenizer::Tokenizer;
use state_table::white::white_to;
use std::alloc::{AllocError, Allocator};

/// The container that is asked next whether it goes on.
fn next_open<A: Allocator>(state: &TokenizeState<A>) -> Option<ContainerState>
    ensures { result ≡ next_open (kept_state state.now) }
{
    state
        .document_container_stack
        .get(state.space_or_tab_max)
        .copied()
}

/// Whether there is one.
pub fn is_more_open<A: Allocator>(state: &TokenizeState<A>) -> bool
    ensures { result ≡ is_more_open (kept_state state.now) }
{
    next_open(state).is_some()
}

/// Whether it is of a kind.
pub fn is_open<A: Allocator>(state: &TokenizeState<A>, kind: Container) -> bool
    ensures { result ≡ is_open (kept_state state.now) kind }
{
    match next_open(state) {
        Some(open) => open.kind == kind,
        None => false,
    }
}

/// How many columns its lines are indented.
pub(crate) fn open_size<A: Allocator>(state: &TokenizeState<A>) -> usize
    ensures { result ≡ open_size (kept_state state.now) }
{
    match next_open(state) {
        Some(open) => open.size,
        None => 0,
    }
}

/// Whether it is blank up to here.
pub(crate) fn begins_blank<A: Allocator>(state: &TokenizeState<A>) -> bool
    ensures { result ≡ begins_blank (kept_state state.now) }
{
    match next_open(state) {
        Some(open) => open.blank_initial,
        None => false,
    }
}

/// Whether a container goes on on a blank line.
fn goes_on_blank(container: &ContainerState) -> bool
    ensures { result ≡ goes_on_blank container.now }
{
    container.kind != Container::BlockQuote && !container.blank_initial
}

/// How many of these go on on a blank line, from the first on.
fn count_blank(containers: &[ContainerState]) -> usize
    ensures size { result ≡ prefix_len goes_on_blank containers.now }
    ensures within { result ≤ length containers.now }
{
    containers
        .iter()
        .take_while(|container| goes_on_blank(*container))
        .count()
}

/// How many columns these are indented, together.
fn width_of(containers: &[ContainerState]) -> usize
    ensures { result ≡ fold width_with 0 containers.now }
{
    containers.iter().fold(
        0,
        |width: usize, container| width.saturating_add(container.size),
    )
}

/// The containers that are asked whether they go on.
fn rest_open<A: Allocator>(state: &TokenizeState<A>) -> &[ContainerState]
    ensures { result.now ≡ rest_open (kept_state state.now) }
{
    let count = state
        .space_or_tab_max
        .min(state.document_container_stack.len());
    &state.document_container_stack[count..]
}

/// How many containers went on once all that may have gone on on a blank line.
pub(crate) fn blank_end<A: Allocator>(state: &TokenizeState<A>) -> usize
    ensures { result ≡ blank_end (kept_state state.now) }
{
    state
        .space_or_tab_max
        .saturating_add(count_blank(rest_open(state)))
}

/// How many columns these are indented, together.
pub(crate) fn blank_size<A: Allocator>(state: &TokenizeState<A>) -> usize
    ensures { result ≡ blank_size (kept_state state.now) }
{
    let rest = rest_open(state);
    width_of(&rest[..count_blank(rest)])
}

/// Keeps that the container isn't blank any more.
pub(crate) fn fill<A: Allocator>(state: &mut TokenizeState<A>)
    ensures { kept_state state.new ≡ record (kept_state state.old) { containers = filled (kept_state state.old) } }
{
    let index = state.space_or_tab_max;
    if let Some(open) = state.document_container_stack.get_mut(index) {
        open.blank_initial = false;
    }
}

/// How many columns the content of an item is indented, which began at the column `start`.
pub(crate) fn item_width<A: Allocator>(column: usize, state: &TokenizeState<A>) -> usize
    ensures { result ≡ item_width column (kept_state state.now) }
{
    let width = column.saturating_sub(state.start);
    if state.size == 1 {
        width.saturating_add(1)
    } else {
        width
    }
}

/// The value of a number with one more digit: 2 stands for all that aren't 0 or 1.
pub(crate) fn value_with(value: usize, digit: Option<u8>) -> usize
    ensures { result ≡ value_with value digit }
{
    match digit {
        Some(digit) => value
            .saturating_mul(10)
            .saturating_add(usize::from(digit.saturating_sub(b'0')))
            .min(2),
        None => value,
    }
}

/// Whether a byte stands at an index of a byte order mark.
pub(crate) fn is_mark(index: usize, byte: u8) -> bool
    ensures { result ≡ is_mark index byte }
{
    [0xEF, 0xBB, 0xBF].get(index).copied() == Some(byte)
}

/// The container that begins here, by `marker_b`: its width is `start`, and `space_or_tab_eol_ok` says that it is blank.
fn begun<A: Allocator>(state: &TokenizeState<A>) -> ContainerState
    ensures { result ≡ begun (kept_state state.now) }
{
    match state.marker_b {
        0 => ContainerState {
            kind: Container::BlockQuote,
            blank_initial: false,
            size: 0,
        },
        1 => ContainerState {
            kind: Container::ListItem,
            blank_initial: state.space_or_tab_eol_ok,
            size: state.start,
        },
        _ => ContainerState {
            kind: Container::GfmFootnoteDefinition,
            blank_initial: false,
            size: state.start,
        },
    }
}

/// Opens the container that begins here, in place of those that don't go on.
pub fn begin_container<A: Allocator>(state: &mut TokenizeState<A>) -> Result<(), AllocError>
    ensures { OnOk result (kept_state state.new ≡ record (kept_state state.old) { containers = begun_containers (kept_state state.old) }) }
{
    let open = begun(state);
    state
        .document_container_stack
        .truncate(state.space_or_tab_max);
    state.document_container_stack.push(open)?;
    Ok(())
}

/// On a blank line, on which all items and footnote definitions go on that may: keeps how many, and
/// how wide they are.
pub(crate) fn go_on_blank<M, T, A: Allocator>(tokenizer: &mut Tokenizer<'_, M, T, A>) -> State
    ensures { Does go_on_blank tokenizer.old tokenizer.new result }
{
    if begins_blank(&tokenizer.tokenize_state) {
        return State::Nok;
    }
    tokenizer.tokenize_state.end = blank_size(&tokenizer.tokenize_state);
    tokenizer.tokenize_state.space_or_tab_max = blank_end(&tokenizer.tokenize_state);
    State::Nok
}

/// On a line that is indented as far as the content.
pub(crate) fn go_on_indented<M, T, A: Allocator>(tokenizer: &mut Tokenizer<'_, M, T, A>) -> State
    ensures { Does go_on_indented tokenizer.old tokenizer.new result }
{
    match tokenizer.current {
        Some(b'\t' | b' ') => {
            tokenizer.tokenize_state.seen = true;
            let most = open_size(&tokenizer.tokenize_state);
            white_to(tokenizer, most, Block::ListItemWhitespaceAfter)
        },
        _ => State::Nok,
    }
}
