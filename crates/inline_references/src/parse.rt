//! Texts with references in them.
ghost use Rattle.std.specs.Prelude.{◌≡◌, ◌++◌, ◌∷◌, ◌≤◌, IfOk, IfErr, OnOk, length, string_bytes};
ghost use Rattle.markdown_options.specs.Messages.{IsOutOfMemory};
ghost use Rattle.definition_text.specs.Ascii.{ampersand};
ghost use Rattle.definition_inline.specs.Decoded.{decode};
ghost use Rattle.inline_references.specs.Printed.{IsDecoded};

use crate::decode::push_value;
use crate::reference::character_reference;
use markdown_options::{Message, Tables};
use std::alloc::{AllocError, Allocator};

/// Returns a text in which each reference is replaced by its text (CommonMark 2.5). A reference
/// whose name isn't in the tables is kept. The only error is `out of memory`.
pub fn parse<A: Allocator, T: Tables>(
    alloc: A,
    value: &str,
    tables: &T,
) -> Result<String<A>, Message>
    ensures text { IfOk result (λ text. string_bytes text ≡ decode (T.reference_of tables.now) value.now) }
    ensures memory { IfErr result IsOutOfMemory }
{
    let mut text = String::with_capacity(alloc, value.len())?;
    push_decoded(&mut text, value, tables)?;
    Ok(text)
}

/// Appends a text in which each reference is replaced by its text (CommonMark 2.5).
pub fn push_decoded<A: Allocator, T: Tables>(
    out: &mut String<A>,
    value: &str,
    tables: &T,
) -> Result<(), AllocError>
    ensures { OnOk result (string_bytes out.new ≡ string_bytes out.old ++ decode (T.reference_of tables.now) value.now) }
{
    let mut rest = value;
    while let Some((before, after)) = rest.split_once('&') {
        out.push_str(before)?;
        rest = push_reference(out, after, tables)?;
    }
    out.push_str(rest)
}

/// Appends the text of the reference that `&` begins, or `&`. Returns the text after it.
fn push_reference<'a, A: Allocator, T: Tables>(
    out: &mut String<A>,
    after: &'a str,
    tables: &T,
) -> Result<&'a str, AllocError>
    ensures printed { IfOk result (λ rest.
        IsDecoded (T.reference_of tables.now) (string_bytes out.old) (ampersand ∷ after.now) (string_bytes out.new) rest.now) }
    ensures shorter { IfOk result (λ rest. length rest.now ≤ length after.now) }
{
    let Some(reference) = character_reference(after) else {
        out.push_str("&")?;
        return Ok(after);
    };
    if push_value(out, reference.value, reference.marker, tables)? {
        return Ok(reference.rest);
    }
    out.push_str("&")?;
    Ok(after)
}
