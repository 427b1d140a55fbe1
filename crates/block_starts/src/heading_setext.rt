//! Underlines of setext headings (CommonMark 4.3).
//!
//!     underline ::= small_indent ('='+ | '-'+) white*
ghost use Rattle.std.specs.Prelude.{◌≡◌};
ghost use Rattle.definition_block.specs.HeadingSetext as spec;
ghost use Rattle.block_starts.specs.View.{rest_of};

use crate::cursor::Cursor;
use crate::indent::is_small;
use markdown_options::Constructs;
use text_bytes::is_run;

/// The rank of a heading that this line would underline.
pub fn underline(on: &Constructs, rest: Cursor<'_>) -> Option<u8>
    ensures { result ≡ spec.underline on.now (rest_of rest.entry) }
{
    if on.heading_setext && is_small(on, rest.indent()) {
        underline_of(rest.bare_text().as_bytes())
    } else {
        None
    }
}

fn underline_of(bytes: &[u8]) -> Option<u8>
    ensures { result ≡ spec.underline_of bytes.now }
{
    if is_run(1, b'=', bytes) {
        Some(1)
    } else if is_run(1, b'-', bytes) {
        Some(2)
    } else {
        None
    }
}
