//! Math (in neither standard): fenced code of dollars, which has no info of its own.
//!
//!     start ::= small_indent '$'{2,} no_dollar*
ghost use Rattle.std.specs.Prelude.{◌≡◌};
ghost use Rattle.definition_block.specs.MathFlow as spec;
ghost use Rattle.block_starts.specs.View.{rest_of};
ghost use Rattle.block_starts.specs.CodeFenced.{fence_if};

use crate::code_fenced::Fence;
use crate::cursor::Cursor;
use crate::indent::is_small;
use markdown_options::Constructs;
use markdown_options::constants::MATH_FLOW_SEQUENCE_SIZE_MIN;
use text_bytes::{lacks, split_run};

/// What stands in place of the info of code. What is written after the dollars says nothing.
const MATH_INFO: &str = "math math-display";

/// The fence of math that opens here.
pub fn math_start<'a>(on: &Constructs, rest: Cursor<'a>) -> Option<Fence<'a>>
    ensures { fence_if result ≡ spec.math_start on.now (rest_of rest.entry) }
{
    if on.math_flow && is_small(on, rest.indent()) {
        math_fence_of(rest.indent(), rest.bare_text())
    } else {
        None
    }
}

fn math_fence_of(columns: usize, text: &str) -> Option<Fence<'_>>
    ensures { fence_if result ≡ spec.math_fence_of columns text.now }
{
    let (dollars, after) = split_run(b'$', text);
    if dollars >= MATH_FLOW_SEQUENCE_SIZE_MIN && lacks(b'$', after.as_bytes()) {
        Some(Fence {
            byte: b'$',
            run: dollars,
            indent: columns,
            info: MATH_INFO,
        })
    } else {
        None
    }
}
