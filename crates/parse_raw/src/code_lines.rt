//! Lines of code (CommonMark 4.4 and 4.5).
ghost use Rattle.std.specs.Prelude.{◌≡◌, OnOk, length, true};
ghost use Rattle.definition_text.specs.Indents.{outdent};
ghost use Rattle.definition_text.specs.Lines.{lines};
ghost use Rattle.block_starts.specs.View.{rest_of};
ghost use Rattle.engine_events.specs.declared.event.Name.TheVariants.{SpaceOrTab};
ghost use Rattle.parse_output.specs.Children.{holds_lines, may_enter};
ghost use Rattle.parse_lines.specs.Ends.{WritesUpTo, rest_start, written_to};
ghost use Rattle.parse_lines.specs.Open.{still_open};
ghost use Rattle.parse_lines.specs.Standing.{standing};
ghost use Rattle.parse_lines.specs.Steps.{HasSameOpen};
ghost use Rattle.parse_raw.specs.Pieces.{WritesCutPieces};
ghost use Rattle.parse_raw.specs.RawLines.{WritesCutLine, WritesCutLines};

use engine_events::event::Name;
use parse_lines::Walk;
use std::alloc::{AllocError, Allocator};
use text_lines::next_line;

/// Lines after the one that is begun, so many: what is left of each, by this name.
pub(crate) fn push_lines<A: Allocator>(
    walk: &mut Walk<'_, A>,
    chunk: Name,
    count: usize,
) -> Result<(), AllocError>
    requires child { may_enter (still_open walk.old) chunk ≡ true }
    requires lines { holds_lines (still_open walk.old) ≡ true }
    ensures open { OnOk result (still_open walk.new ≡ still_open walk.old) }
    ensures written { OnOk result (WritesCutLines chunk (λ rest. rest) count walk.old walk.new) }
    ensures exact { OnOk result (WritesCutPieces chunk (λ rest. rest) count walk.old walk.new) }
{
    for _ in 0..count {
        walk.next_line()?;
        walk.all(chunk)?;
    }
    Ok(())
}

/// Lines of code after the one that is begun, so many, which lose up to so many columns of spaces and
/// tabs.
#[tactic(auto, using(parse_output::proofs::Classes::lines_may))]
pub(crate) fn push_code_lines<A: Allocator>(
    walk: &mut Walk<'_, A>,
    chunk: Name,
    indent: usize,
    count: usize,
) -> Result<(), AllocError>
    requires child { may_enter (still_open walk.old) chunk ≡ true }
    requires lines { holds_lines (still_open walk.old) ≡ true }
    ensures open { OnOk result (still_open walk.new ≡ still_open walk.old) }
    ensures written { OnOk result (WritesCutLines chunk (outdent indent) count walk.old walk.new) }
    ensures exact { OnOk result (WritesCutPieces chunk (outdent indent) count walk.old walk.new) }
{
    for _ in 0..count {
        walk.next_line()?;
        push_code_line(walk, chunk, indent)?;
    }
    Ok(())
}

/// The rest of the line, which loses up to so many columns of spaces and tabs.
pub(crate) fn push_code_line<A: Allocator>(
    walk: &mut Walk<'_, A>,
    chunk: Name,
    indent: usize,
) -> Result<(), AllocError>
    requires child { may_enter (still_open walk.old) chunk ≡ true }
    requires space { may_enter (still_open walk.old) SpaceOrTab ≡ true }
    ensures open { OnOk result (still_open walk.new ≡ still_open walk.old) }
    ensures around { OnOk result (HasSameOpen (standing walk.old) (standing walk.new)) }
    ensures written { OnOk result (WritesCutLine chunk (outdent indent) walk.old walk.new) }
{
    push_indent(walk, indent)?;
    walk.all(chunk)
}

/// The spaces and tabs ahead, up to so many columns.
pub(crate) fn push_indent<A: Allocator>(
    walk: &mut Walk<'_, A>,
    indent: usize,
) -> Result<(), AllocError>
    requires space { may_enter (still_open walk.old) SpaceOrTab ≡ true }
    ensures open { OnOk result (still_open walk.new ≡ still_open walk.old) }
    ensures stays { OnOk result (standing walk.new ≡ standing walk.old) }
    ensures end { OnOk result (written_to walk.new ≡ rest_start walk.old.line_end (outdent indent (rest_of walk.old.rest))) }
    ensures written { OnOk result (WritesUpTo SpaceOrTab (rest_start walk.old.line_end (outdent indent (rest_of walk.old.rest))) walk.old walk.new) }
{
    let rest = walk.rest;
    walk.space_to(&rest.outdent(indent))
}

/// How many lines a text has.
pub(crate) fn line_count(text: &str) -> usize
    ensures { result ≡ length (lines text.now) }
{
    let mut count: usize = 0;
    let mut rest = text;
    while !rest.is_empty() {
        let (_, _, after) = next_line(rest);
        count = count.saturating_add(1);
        rest = after;
    }
    count
}
