//! Content: the lines of a paragraph become one chain, which is read as definitions and a paragraph
//! (CommonMark 4.7 and 4.8).
//!
//! ```text
//! content ::= line *(line_ending *prefix line)
//! ```
//!
//! Flow reads each line as a chunk. The exit of a chunk moves over the line ending that follows, so
//! that the chain's text has it.
ghost use Rattle.std.specs.Prelude.{◌≡◌, ◌+◌, ◌<◌, ◌≤◌, IfErr, IfOk, IfSome, MatchBool, OnOk, length};
ghost use Rattle.markdown_options.specs.Messages.{IsOutOfMemory};
ghost use Rattle.engine_edits.specs.Edits.{edits_of};
ghost use Rattle.state_edits_blocks.specs.Content.{CanJoin, ending_edit, ending_edits, is_ended_line, joined, line_at, lines_linked, linked, linked_at};
ghost use Rattle.state_edits_blocks.specs.Content.{next_line, past_prefix};

use crate::added::put;
use crate::gfm_table::is_prefix;
use engine_edits::EditMap;
use markdown_engine::event::{Event, Kind, Name};
use markdown_engine::{Message, link_to};
use state_edits_data::each::{exit_event, is_bound_at, place_at};
use std::alloc::Allocator;

/// Whether a line of content begins at an index, and a line ending is right after it.
fn is_ended_line(events: &[Event], index: usize) -> bool
    requires { index < length events.now }
    ensures { result ≡ is_ended_line events.now index }
{
    events.len() - index >= 4
        && is_bound_at(Kind::Enter, Name::Content, events, index)
        && is_bound_at(Kind::Enter, Name::LineEnding, events, index + 2)
}

/// The index of the first event from one on that isn't of the prefix of a line.
fn past_prefix(events: &[Event], from: usize) -> usize
    requires { from ≤ length events.now }
    ensures { result ≡ past_prefix events.now from }
{
    for at in from..events.len() {
        if !is_prefix(&events[at]) {
            return at;
        }
    }
    events.len()
}

/// The line of content that begins at an index, if one does.
fn line_at(events: &[Event], index: usize) -> Option<usize>
    ensures line { result ≡ line_at events.now index }
    ensures within { IfSome result (λ line. (line ≡ index) × (line < length events.now)) }
{
    if is_bound_at(Kind::Enter, Name::Content, events, index) {
        return Some(index);
    }
    None
}

/// The line of content that goes on with the one at an index, if there is one.
fn next_line(events: &[Event], index: usize) -> Option<usize>
    requires { index < length events.now }
    ensures line { result ≡ next_line events.now index }
    ensures within { IfSome result (λ next. (index + 3 < next) × (next < length events.now)) }
{
    if is_ended_line(events, index) {
        return line_at(events, past_prefix(events, index + 4));
    }
    None
}

/// Joins two lines: the exit of the first moves over its line ending.
fn link_lines(events: &mut [Event], index: usize, next: usize)
    requires index { index + 3 < length events.old }
    requires next { next < length events.old }
    ensures { events.new ≡ lines_linked index next events.old }
{
    events[index + 1] = exit_event(Name::Content, place_at(events, index + 3));
    link_to(events, index, next);
}

/// Joins the line at an index with the next one, if there is one, and adds the edit that removes the
/// line ending between them.
fn link_line<A: Allocator + Clone>(
    edits: &mut EditMap<A>,
    alloc: &A,
    events: &mut [Event],
    index: usize,
) -> Result<(), Message>
    requires { index < length events.old }
    ensures events { OnOk result (events.new ≡ linked_at events.old index) }
    ensures edits { OnOk result (edits_of edits.new ≡ ending_edit events.old index (edits_of edits.old)) }
    ensures memory { IfErr result IsOutOfMemory }
{
    let Some(next) = next_line(events, index) else {
        return Ok(());
    };
    link_lines(events, index, next);
    put(edits, alloc, index + 2, 2, &[])
}

/// Joins all lines with the next ones. Returns the edits that remove the line endings between them.
#[tactic(auto, using(crate::proofs::Steps::linked_start, crate::proofs::Steps::linked_more, crate::proofs::Steps::ending_start, crate::proofs::Steps::ending_more))]
fn link_all_lines<A: Allocator + Clone>(
    alloc: &A,
    events: &mut [Event],
) -> Result<EditMap<A>, Message>
    ensures events { OnOk result (events.new ≡ linked events.old (length events.old)) }
    ensures edits { IfOk result (λ edits. edits_of edits ≡ ending_edits events.old (length events.old)) }
    ensures memory { IfErr result IsOutOfMemory }
{
    let mut edits = EditMap::new(alloc.clone()?);
    for index in 0..events.len() {
        link_line(&mut edits, alloc, events, index)?;
    }
    Ok(edits)
}

/// Makes one chain of the lines of each paragraph.
///
/// Returns false if the line endings can't be removed: their events overlap. Then, and after an
/// error, the events may be any.
pub fn join_lines<A: Allocator + Clone>(events: &mut Vec<Event, A>) -> Result<bool, Message>
    ensures joined { IfOk result (λ done. MatchBool done
        (CanJoin events.old.items × (events.new.items ≡ joined events.old.items))
        (¬ (CanJoin events.old.items))) }
    ensures memory { IfErr result IsOutOfMemory }
{
    let alloc = events.allocator().clone()?;
    let mut edits = link_all_lines(&alloc, events)?;
    if !edits.is_ordered(events.len()) {
        return Ok(false);
    }
    edits.consume(events)?;
    Ok(true)
}
