//! Checks of task list items (GFM 5.3).
//!
//!     check ::= '[' (space | tab | ending | 'x' | 'X') ']', before white space and something else
ghost use Rattle.std.specs.Prelude.{◌≡◌, IfSome};
ghost use Rattle.std.specs.Option.{option_map};
ghost use Rattle.std.specs.List.{list_all};
ghost use Rattle.definition_text.specs.Content.{content_codes, is_space as is_space_code};
ghost use Rattle.definition_inline.specs.GfmTaskListItem.{check_at, check_of, is_apart, is_done};
ghost use Rattle.inline_leaves.specs.GfmTaskListItem.{IsCheckEnd, IsAfterCheck};

use crate::cut::cut_after;
use inline_links::code::{is_space, next_code};
use inline_links::part::from;
use markdown_options::Constructs;
use text_bytes::is_space as is_space_byte;

const OPENING: u16 = b'[' as u16;

const CLOSING: u16 = b']' as u16;

const LOWER_X: u16 = b'x' as u16;

const UPPER_X: u16 = b'X' as u16;

/// A check, and what follows it.
#[derive(Clone, Copy, Debug, PartialEq, Eq)]
pub struct Check<'a> {
    /// Whether its item is done.
    pub done: bool,
    /// The content after it.
    pub after: &'a str,
}

/// A check among bytes, and where it ends.
#[derive(Clone, Copy)]
struct FoundCheck {
    done: bool,
    end: usize,
}

/// The check that a content without spaces and tabs at its start begins with, where it is the first
/// of an item (GFM 5.3).
pub fn check_at<'a>(on: &Constructs, first: bool, content: &'a str) -> Option<Check<'a>>
    ensures read { option_map (λ found. found.done) result ≡ check_at on.now first (content_codes content.now) }
    ensures place { IfSome result (λ found. IsAfterCheck content.now found.after.now) }
{
    if !first || !on.gfm_task_list_item {
        return None;
    }
    let found = find_check(content.as_bytes())?;
    Some(Check {
        done: found.done,
        after: cut_after(content, found.end),
    })
}

/// The check that bytes begin with.
fn find_check(bytes: &[u8]) -> Option<FoundCheck>
    ensures read { option_map (λ found. found.done) result ≡ check_of (content_codes bytes.now) }
    ensures place { IfSome result (λ found. IsCheckEnd bytes.now found.end) }
{
    let opening = next_code(bytes, 0)?;
    let mark = next_code(bytes, opening.next)?;
    let closing = next_code(bytes, mark.next)?;
    if opening.code != OPENING || !is_apart(from(bytes, closing.next)) {
        return None;
    }
    if closing.code != CLOSING {
        return None;
    }
    let done = is_done(mark.code)?;
    let end = mark.next + 1;
    Some(FoundCheck { done, end })
}

/// Whether an item with this code in its check is done.
fn is_done(mark: u16) -> Option<bool>
    ensures { result ≡ is_done mark }
{
    if is_space(mark) {
        return Some(false);
    }
    if mark == LOWER_X || mark == UPPER_X {
        return Some(true);
    }
    None
}

/// Whether white space comes first, and something else after it.
#[tactic(auto, using(crate::proofs::GfmTaskListItemLemmas::apart_codes))]
fn is_apart(bytes: &[u8]) -> bool
    ensures { result ≡ is_apart (content_codes bytes.now) }
{
    is_apart_in_bytes(bytes)
}

/// The same by bytes, of which CR LF are two.
fn is_apart_in_bytes(bytes: &[u8]) -> bool
    ensures { result ≡ is_apart bytes.now }
{
    match bytes {
        [] => false,
        [first, others @ ..] => is_space_byte(*first) && !is_all_space(others),
    }
}

/// Whether all bytes are white space.
fn is_all_space(bytes: &[u8]) -> bool
    ensures { result ≡ list_all is_space_code bytes.now }
{
    bytes.iter().all(|b| is_space_byte(*b))
}
