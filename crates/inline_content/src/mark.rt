//! What stands before a line in the text.
ghost use Rattle.std.specs.Prelude.{◌≡◌, ◌≤◌, ◌++◌, OnOk};
ghost use Rattle.std.specs.List.{All};
ghost use Rattle.std.specs.List.Sorted.{IsNonDecreasingBy};
ghost use Rattle.inline_content.specs.Marks.{mark_place};
ghost use Rattle.inline_content.specs.Lines.{mark_of};

use markdown_options::Kind;
use std::alloc::{AllocError, Allocator};

/// The start of a line before which something else than white space stands in the text.
#[derive(Clone, Copy)]
pub struct Mark {
    /// The byte offset of the line in the content.
    pub place: usize,
    /// The kind of the character before it.
    pub kind: Kind,
}

/// Marks the start of a line after those before it, if something else than white space stands
/// before it.
pub(crate) fn push_mark<A: Allocator>(
    marks: &mut Vec<Mark, A>,
    place: usize,
    kind: Kind,
) -> Result<(), AllocError>
    requires before { All (λ (m : Mark). m.place ≤ place) marks.old.items }
    requires ordered { IsNonDecreasingBy mark_place marks.old.items }
    ensures marked { OnOk result (marks.new.items ≡ marks.old.items ++ mark_of place kind) }
    ensures before { All (λ (m : Mark). m.place ≤ place) marks.new.items }
    ensures ordered { IsNonDecreasingBy mark_place marks.new.items }
{
    match kind {
        Kind::Whitespace => {}
        Kind::Punctuation | Kind::Other => marks.push(Mark { place, kind })?,
    }
    Ok(())
}
