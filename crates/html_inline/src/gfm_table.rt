//! Code in the cells of tables (GFM 4.10).
//!
//!     code ::= ('\' '|' | byte)*, where the backslash isn't printed
ghost use Rattle.std.specs.Prelude.{◌≡◌, ◌==◌, ◌++◌, ◌<◌, IfOk, length, slice_index, string_bytes};
ghost use Rattle.definition_page.specs.GfmTable.{cell_code};
ghost use Rattle.definition_text.specs.Encode.{encode};
ghost use Rattle.html_inline.specs.GfmTable.{bar_escape_at};
ghost use Rattle.html_inline.specs.Prints.{Prints};

use html_escape::push_encoded;
use std::alloc::{AllocError, Allocator};

/// Prints the code of a cell: a bar stands in it without the backslash right before it.
pub(crate) fn push_cell_code<A: Allocator>(
    out: &mut String<A>,
    code: &str,
) -> Result<(), AllocError>
    ensures { Prints result out.old out.new (encode (cell_code code.now)) }
{
    let mut rest = code;
    while !rest.is_empty() {
        rest = push_cell_piece(out, rest)?;
    }
    Ok(())
}

/// Prints what stands before the next backslash that escapes a bar, and returns what follows it.
fn push_cell_piece<'a, A: Allocator>(
    out: &mut String<A>,
    code: &'a str,
) -> Result<&'a str, AllocError>
    requires { 0 < length code.now }
    ensures printed { IfOk result (λ rest.
        string_bytes out.new ++ encode (cell_code rest.now) ≡ string_bytes out.old ++ encode (cell_code code.now)) }
    ensures shorter { IfOk result (λ rest. length rest.now < length code.now) }
{
    let (front, after) = code.split_at(bar_escape_place(code.as_bytes()));
    push_encoded(out, front)?;
    match after.strip_prefix('\\') {
        Some(rest) => Ok(rest),
        None => Ok(after),
    }
}

/// Where the first backslash stands that escapes a bar, or the end.
fn bar_escape_place(bytes: &[u8]) -> usize
    ensures { result ≡ bar_escape_at bytes.now }
{
    for (i, b) in bytes.iter().enumerate() {
        if *b == b'\\' && has_bar(bytes, i + 1) {
            return i;
        }
    }
    bytes.len()
}

/// Whether a bar stands at a place.
fn has_bar(bytes: &[u8], place: usize) -> bool
    ensures { result ≡ (slice_index bytes.now place == 124) }
{
    place < bytes.len() && bytes[place] == b'|'
}
