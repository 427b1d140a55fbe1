//! Fenced code (CommonMark 4.5).
ghost use Rattle.std.specs.Prelude.{◌≡◌, ◌&&◌, ◌||◌, Bool, OnOk, Some, false, is_some, not};
ghost use Rattle.std.specs.List.{flat_map};
ghost use Rattle.markdown_options.specs.LineEndings.{ending_bytes};
ghost use Rattle.markdown_compile_options.specs.declared.configuration.CompileOptions.{CompileOptions};
ghost use Rattle.definition_page.specs.BlockPieces.{Place, fenced_pieces, info_attributes, leaf_block_pieces};
ghost use Rattle.definition_page.specs.InlinePieces.{Meaning};
ghost use Rattle.definition_page.specs.Tags.{attribute_bytes};
ghost use Rattle.event_grammar.specs.Trees.{Nodes, AreNodes, events_of};
ghost use Rattle.engine_events.specs.declared.event.Name.TheVariants as names;
ghost use Rattle.event_meaning.specs.Blocks.{code_fenced_of, info_of};
ghost use Rattle.event_meaning.specs.Children as meaning;
ghost use Rattle.event_meaning.specs.Raw as raw;
ghost use Rattle.event_meaning.specs.Raw.{raw_parts};
ghost use Rattle.compile_rows.specs.Columns.{AreCounted};
ghost use Rattle.html_bytes.specs.Pieces.{in_bytes};
ghost use Rattle.html_leaves.specs.Prints.{KeepsEnding, LaysOut, Prints, page_view};
ghost use Rattle.compile_raw.specs.Raw.{code_tags, fenced_close, fenced_end, last_end};
ghost use Rattle.compile_raw.specs.Sound.{AreSound};

use crate::raw::{Passed, push_code};
use compile_levels::node::{child, ends_in, kids_in};
use compile_rows::Columns;
use compile_written::push_string;
use engine_events::event::{Event, Name};
use html_leaves::Page;
use markdown_options::Tables;
use std::alloc::{AllocError, Allocator};

/// Prints fenced code of these events, at the top of the document or in a container. `room` is where
/// its info is read into.
pub fn push_code_fenced<A: Allocator + Clone, T: Tables>(
    page: &mut Page<A>,
    columns: &mut Columns,
    room: &mut String<A>,
    bytes: &[u8],
    tables: &T,
    top: bool,
    inside: &[Event],
) -> Result<(), AllocError>
    requires { AreCounted bytes.now columns.old }
    ensures default { KeepsEnding page.old page.new }
    ensures counted { AreCounted bytes.now columns.new }
    ensures printed { (m : Meaning) (place : Place) (ns : Nodes) → top ≡ place.top →
        AreSound bytes.now ns → inside.now ≡ events_of ns →
        let code = code_fenced_of (T.reference_of tables.now) bytes.now top ns in
        OnOk result (LaysOut m.compile page.old page.new (in_bytes (leaf_block_pieces m place code))) }
{
    let fence = kids_in(inside, Name::CodeFencedFence);
    push_code_tags(page, room, bytes, tables, fence)?;
    push_fenced(page, columns, bytes, top, Name::CodeFencedFence, inside)
}

/// Prints the start tags of fenced code behind an opening fence of these events.
fn push_code_tags<A: Allocator + Clone, T: Tables>(
    page: &mut Page<A>,
    room: &mut String<A>,
    bytes: &[u8],
    tables: &T,
    fence: &[Event],
) -> Result<(), AllocError>
    ensures default { KeepsEnding page.old page.new }
    ensures printed { (ns : Nodes) → AreSound bytes.now ns → fence.now ≡ events_of ns →
        let info = info_of (T.reference_of tables.now) bytes.now (meaning.child names.CodeFencedFenceInfo ns) in
        OnOk result (page_view page.new ≡ code_tags (ending_bytes page.old.default_ending) info (page_view page.old)) }
{
    page.fresh_tag("<pre><code")?;
    push_info(page, room, bytes, tables, fence)?;
    page.say(">")
}

/// Prints the class of code with an info, also if that is empty.
fn push_info<A: Allocator + Clone, T: Tables>(
    page: &mut Page<A>,
    room: &mut String<A>,
    bytes: &[u8],
    tables: &T,
    fence: &[Event],
) -> Result<(), AllocError>
    ensures default { KeepsEnding page.old page.new }
    ensures printed { (ns : Nodes) → AreSound bytes.now ns → fence.now ≡ events_of ns →
        let info = info_of (T.reference_of tables.now) bytes.now (meaning.child names.CodeFencedFenceInfo ns) in
        OnOk result (Prints page.old page.new (flat_map attribute_bytes (info_attributes info))) }
{
    match child(fence, Name::CodeFencedFenceInfo) {
        None => Ok(()),
        Some(info) => {
            room.clear();
            push_string(room, bytes, tables, info.node.inside)?;
            push_class(page, room.as_str())
        }
    }
}

/// Prints the class of code whose info is this text.
fn push_class<A: Allocator + Clone>(page: &mut Page<A>, info: &str) -> Result<(), AllocError>
    ensures default { KeepsEnding page.old page.new }
    ensures printed { OnOk result (Prints page.old page.new (flat_map attribute_bytes (info_attributes (Some info.now)))) }
{
    page.say(" class=\"language-")?;
    page.encode(info)?;
    page.say("\"")
}

/// Prints what is between fences of a name, or after the one that opens, and the end tags.
pub(crate) fn push_fenced<A: Allocator + Clone>(
    page: &mut Page<A>,
    columns: &mut Columns,
    bytes: &[u8],
    top: bool,
    fence: Name,
    inside: &[Event],
) -> Result<(), AllocError>
    requires { AreCounted bytes.now columns.old }
    ensures default { KeepsEnding page.old page.new }
    ensures counted { AreCounted bytes.now columns.new }
    ensures printed { (options : CompileOptions) (place : Place) (ns : Nodes) → top ≡ place.top →
        AreSound bytes.now ns → inside.now ≡ events_of ns →
        let after = meaning.after_child fence ns in
        let is_closed = is_some (meaning.child fence after) in
        let between = meaning.before_child fence after in
        let spaced = not is_closed && meaning.ends_in names.SpaceOrTab false between in
        let ls = raw.fenced_lines (not (place.top || is_closed) || spaced) (raw_parts bytes.now between) in
        OnOk result (LaysOut options page.old page.new (fenced_end place is_closed ls)) }
{
    let (closed, lines) = between_fences(inside, fence);
    let whole = top || closed;
    let spaced = is_spaced(closed, lines);
    push_fenced_lines(page, columns, bytes, whole, spaced, lines)?;
    push_fenced_end(page, closed)
}

/// Prints the end tags of fenced code, and a fresh line after code that isn't closed.
fn push_fenced_end<A: Allocator + Clone>(page: &mut Page<A>, closed: bool) -> Result<(), AllocError>
    ensures default { KeepsEnding page.old page.new }
    ensures printed { (options : CompileOptions) →
        OnOk result (LaysOut options page.old page.new (fenced_close closed)) }
{
    page.say("</code></pre>")?;
    if closed {
        return Ok(());
    }
    page.fresh()
}

/// Prints the lines of fenced code. If they aren't whole, the last ending is outside, and the default
/// one is printed. Spaced code ends with a line of which nothing is left.
fn push_fenced_lines<A: Allocator + Clone>(
    page: &mut Page<A>,
    columns: &mut Columns,
    bytes: &[u8],
    whole: bool,
    spaced: bool,
    events: &[Event],
) -> Result<(), AllocError>
    requires { AreCounted bytes.now columns.old }
    ensures default { KeepsEnding page.old page.new }
    ensures counted { AreCounted bytes.now columns.new }
    ensures printed { (options : CompileOptions) (place : Place) (is_closed : Bool) (ns : Nodes) → whole ≡ (place.top || is_closed) →
        AreSound bytes.now ns → events.now ≡ events_of ns →
        let ls = raw.fenced_lines (not (place.top || is_closed) || spaced) (raw_parts bytes.now ns) in
        OnOk result (LaysOut options page.old page.new (in_bytes (fenced_pieces place is_closed ls))) }
{
    let passed = push_code(page, columns, bytes, true, events)?;
    push_last_end(page, whole, spaced, passed)
}

/// Ends the last line of fenced code, after its lines were passed.
fn push_last_end<A: Allocator + Clone>(
    page: &mut Page<A>,
    whole: bool,
    spaced: bool,
    passed: Passed,
) -> Result<(), AllocError>
    ensures default { KeepsEnding page.old page.new }
    ensures printed { let line = passed.line || (spaced && passed.some) in
        OnOk result (page_view page.new ≡ last_end (ending_bytes page.old.default_ending) whole line passed.some (page_view page.old)) }
{
    if whole {
        if passed.has_line(spaced) {
            page.fresh()
        } else {
            Ok(())
        }
    } else if passed.some {
        page.eol()?;
        page.fresh()
    } else {
        Ok(())
    }
}

/// Whether code that isn't closed ends with white space: that of a line of which nothing is left.
fn is_spaced(closed: bool, events: &[Event]) -> bool
    ensures { (ns : Nodes) → AreNodes ns → events.now ≡ events_of ns → result ≡ (not closed && meaning.ends_in names.SpaceOrTab false ns) }
{
    !closed && ends_in(events, Name::SpaceOrTab)
}

/// Whether a fence closes code, and the events before that, or all after the fence that opens.
fn between_fences(inside: &[Event], fence: Name) -> (bool, &[Event])
    ensures closed { (ns : Nodes) → AreNodes ns → inside.now ≡ events_of ns →
        result.0 ≡ is_some (meaning.child fence (meaning.after_child fence ns)) }
    ensures lines { (ns : Nodes) → AreNodes ns → inside.now ≡ events_of ns →
        result.1.now ≡ events_of (meaning.before_child fence (meaning.after_child fence ns)) }
{
    match child(inside, fence) {
        None => (false, &[]),
        Some(opening) => up_to_fence(opening.after, fence),
    }
}

/// Whether a fence is among these events, and the events before it, or all.
fn up_to_fence(events: &[Event], fence: Name) -> (bool, &[Event])
    ensures closed { (ns : Nodes) → AreNodes ns → events.now ≡ events_of ns → result.0 ≡ is_some (meaning.child fence ns) }
    ensures lines { (ns : Nodes) → AreNodes ns → events.now ≡ events_of ns → result.1.now ≡ events_of (meaning.before_child fence ns) }
{
    match child(events, fence) {
        None => (false, events),
        Some(closing) => (true, &events[..closing.index]),
    }
}
