//! Raw text between two runs of one byte: code spans, and math (CommonMark 6.1).
//!
//!     raw_text ::= run text run
//!
//! Both runs have the same number of bytes, and the text has no run of as many.
ghost use Rattle.std.specs.Prelude.{◌≡◌, IfOk};
ghost use Rattle.definition_inline.specs.CodeText.{raw_at};
ghost use Rattle.definition_text.specs.Content.{content_codes};
ghost use Rattle.inline_links.specs.Codes.{IsRest};
ghost use Rattle.inline_leaves.specs.Leaves.{found_leaf, LeavesRest};
ghost use Rattle.inline_constructs.specs.RawRuns.{marker_byte};

use crate::raw_runs::RawMarker;
use crate::searches::Searches;
use inline_leaves::cut::{cut_after, text_before};
use inline_leaves::{Leaf, LeafPart};
use std::alloc::{AllocError, Allocator};
use text_bytes::run;

/// A run that may open raw text: that text, where another run closes it, and otherwise the run
/// itself (CommonMark 6.1). That nothing closes it is kept for later rests.
pub(crate) fn raw_text_at<'a, A: Allocator + Clone>(
    marker: RawMarker,
    may_open: bool,
    searches: &mut Searches<'a, A>,
    rest: &'a str,
) -> Result<Option<Leaf<'a>>, AllocError>
    requires { IsRest searches.old.content.now rest.now }
    ensures content { searches.new.content ≡ searches.old.content }
    ensures read { IfOk result (λ found. found_leaf rest.now found ≡ raw_at (marker_byte marker) may_open (content_codes rest.now)) }
    ensures place { IfOk result (LeavesRest rest.now) }
{
    if !may_open {
        return Ok(None);
    }
    let size = run(marker.byte(), rest.as_bytes());
    if size == 0 {
        return Ok(None);
    }
    let text = cut_after(rest, size);
    match searches.closing_run(marker, text.as_bytes(), size)? {
        None => Ok(Some(Leaf {
            part: LeafPart::Unclosed(text_before(rest, size)),
            after: text,
        })),
        Some(end) => Ok(Some(Leaf {
            part: marker.part(text_before(text, end)),
            after: cut_after(rest, size + end + size),
        })),
    }
}
