//! Code spans (CommonMark 6.1).
//!
//!     code_text ::= raw_text, of backticks
ghost use Rattle.std.specs.Prelude.{◌≡◌, IfOk};
ghost use Rattle.definition_inline.specs.CodeText.{code_text_at};
ghost use Rattle.definition_text.specs.Content.{content_codes};
ghost use Rattle.inline_links.specs.Codes.{IsRest};
ghost use Rattle.inline_leaves.specs.Leaves.{found_leaf, LeavesRest};

use crate::raw_runs::RawMarker;
use crate::raw_text::raw_text_at;
use crate::searches::Searches;
use inline_leaves::Leaf;
use markdown_options::Constructs;
use std::alloc::{AllocError, Allocator};

/// A run of backticks: a code span, where another run closes it, and otherwise text (CommonMark 6.1).
pub(crate) fn code_text_at<'a, A: Allocator + Clone>(
    on: &Constructs,
    searches: &mut Searches<'a, A>,
    rest: &'a str,
) -> Result<Option<Leaf<'a>>, AllocError>
    requires { IsRest searches.old.content.now rest.now }
    ensures content { searches.new.content ≡ searches.old.content }
    ensures read { IfOk result (λ found. found_leaf rest.now found ≡ code_text_at on.now (content_codes rest.now)) }
    ensures place { IfOk result (LeavesRest rest.now) }
{
    raw_text_at(RawMarker::Backtick, on.code_text, searches, rest)
}
