//! Text with soft line breaks in it (CommonMark 6.8).
ghost use Rattle.std.specs.Prelude.{[], ◌≡◌, OnOk, true};
ghost use Rattle.parse_inline.specs.Rows.{PassesLines};
ghost use Rattle.parse_lines.specs.Open.{still_open};
ghost use Rattle.parse_output.specs.Children.{holds_text};

use crate::leaf::push_leaf;
use crate::reading::Reading;
use inline_leaves::LeafPart;
use markdown_options::{LineEnding, Tables};
use parse_lines::Walk;
use parse_lines::cut::bytes_from;
use std::alloc::{AllocError, Allocator};
use text_search::{BytePair, next_far};

/// The byte between two lines.
const FEED: BytePair = BytePair {
    first: b'\n',
    second: b'\n',
};

/// The events of text in which an LF is a soft line break: data for each line, and the ending after it.
#[tactic(auto, using(parse_output::proofs::Classes::text_may))]
pub(crate) fn push_verbatim<T: Tables, A: Allocator>(
    walk: &mut Walk<'_, A>,
    reading: &Reading<'_, T>,
    text: &str,
) -> Result<(), AllocError>
    requires text { holds_text (still_open walk.old) ≡ true }
    ensures open { OnOk result (still_open walk.new ≡ still_open walk.old) }
    ensures written { OnOk result (PassesLines reading.now.on.now (T.reference_of reading.now.tables.now) reading.now.content.now text.now []
        walk.old walk.new) }
{
    let mut rest = text.as_bytes();
    'by_line: loop {
        let size = next_far(rest, FEED);
        walk.data(size)?;
        if size >= rest.len() {
            return Ok(());
        }
        push_leaf(walk, reading, LeafPart::LineEnd(LineEnding::LineFeed))?;
        rest = bytes_from(bytes_from(rest, size), 1);
    }
}
