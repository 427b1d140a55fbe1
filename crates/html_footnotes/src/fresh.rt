//! Fresh lines: an ending before what begins a line, where none stands there.
ghost use Rattle.std.specs.Prelude.{◌≡◌, OnOk, string_bytes};
ghost use Rattle.markdown_options.specs.LineEndings.{ending_bytes};
ghost use Rattle.definition_page.specs.Pieces.{is_fresh};
ghost use Rattle.html_bytes.specs.Pieces.{Fresh, print};

use markdown_options::LineEnding;
use std::alloc::{AllocError, Allocator};

/// Asks for a fresh line: prints the ending, unless nothing, CR or LF stands at the end.
#[inline(always)]
pub fn push_fresh<A: Allocator>(out: &mut String<A>, ending: LineEnding) -> Result<(), AllocError>
    ensures { OnOk result (string_bytes out.new ≡ print (ending_bytes ending) (string_bytes out.old) Fresh) }
{
    if is_fresh(out.as_bytes()) {
        return Ok(());
    }
    out.push_str(ending.as_str())
}

/// Whether nothing, CR or LF stands at the end.
fn is_fresh(bytes: &[u8]) -> bool
    ensures { result ≡ is_fresh bytes.now }
{
    match bytes.last() {
        None => true,
        Some(byte) => *byte == b'\n' || *byte == b'\r',
    }
}
