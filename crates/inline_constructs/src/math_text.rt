//! Math in a text: a code span with dollars (in neither standard).
//!
//!     math_text ::= raw_text, of dollars
//!
//! A run of one dollar opens math only where `math_text_single_dollar` is on.
ghost use Rattle.std.specs.Prelude.{◌≡◌, IfOk};
ghost use Rattle.definition_inline.specs.MathText.{may_open_math, math_text_at};
ghost use Rattle.definition_text.specs.Ascii.{dollar};
ghost use Rattle.definition_text.specs.Content.{content_codes};
ghost use Rattle.definition_text.specs.Runs.{run as run_of};
ghost use Rattle.inline_links.specs.Codes.{IsRest};
ghost use Rattle.inline_leaves.specs.Leaves.{found_leaf, LeavesRest};

use crate::raw_runs::RawMarker;
use crate::raw_text::raw_text_at;
use crate::searches::Searches;
use inline_leaves::Leaf;
use markdown_options::ParseOptions;
use std::alloc::{AllocError, Allocator};
use text_bytes::run;

/// A run of dollars that may open math: math, where another run closes it, and otherwise text.
pub(crate) fn math_text_at<'a, A: Allocator + Clone>(
    options: &ParseOptions,
    searches: &mut Searches<'a, A>,
    rest: &'a str,
) -> Result<Option<Leaf<'a>>, AllocError>
    requires { IsRest searches.old.content.now rest.now }
    ensures content { searches.new.content ≡ searches.old.content }
    ensures read { IfOk result (λ found. found_leaf rest.now found ≡ math_text_at options.now (content_codes rest.now)) }
    ensures place { IfOk result (LeavesRest rest.now) }
{
    let may_open = may_open_math(options, rest.as_bytes());
    raw_text_at(RawMarker::Dollar, may_open, searches, rest)
}

/// Whether the dollars that bytes begin with may open math.
fn may_open_math(options: &ParseOptions, bytes: &[u8]) -> bool
    ensures { result ≡ may_open_math options.now (run_of dollar bytes.now) }
{
    options.constructs.math_text && (options.math_text_single_dollar || run(b'$', bytes) != 1)
}
