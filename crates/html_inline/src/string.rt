//! Strings: destinations, titles and infos, in which only escapes and character references stand
//! for something else (CommonMark 2.4 and 2.5).
//!
//!     string ::= (escape | reference | line_end | spaces | byte)*
//!     spaces ::= (space | tab)+, before a line ending
ghost use Rattle.std.specs.Prelude.{◌≡◌, ◌++◌, ◌<◌, IfOk, IfSome, length, string_bytes};
ghost use Rattle.definition_text.specs.Encode.{encode};
ghost use Rattle.std.specs.List.{flat_map, prefix_len};
ghost use Rattle.definition_text.specs.Content.{content_codes};
ghost use Rattle.definition_inline.specs.Strings.{spaces_at, string_bytes as part_bytes, string_leaf_at, string_text};
ghost use Rattle.inline_leaves.specs.Leaves.{IsAfter, found_leaf, parts_of};
ghost use Rattle.html_heading_text.specs.Forms.{form_bytes};
ghost use Rattle.html_inline.specs.Kept.{is_ink, kept_size, text_of};
ghost use Rattle.html_inline.specs.Prints.{Prints};

use html_heading_text::character_reference::push_number;
use html_heading_text::form::{Form, push_formed};
use inline_leaves::character_escape::escape_at;
use inline_leaves::character_reference::reference_at;
use inline_leaves::cut::{cut_after, text_before};
use inline_leaves::line_ending::{ending_at, line_end_at};
use inline_leaves::space::white_size;
use inline_leaves::{Leaf, LeafPart};
use inline_links::part::from;
use markdown_options::{Constructs, Tables};
use std::alloc::{AllocError, Allocator};
use text_search::{ByteSet, next_of};

/// The bytes at which something may begin in a string: `\\`, `&`, line endings, spaces and tabs.
const STARTS: ByteSet = ByteSet {
    first: [
        b' ', 2, 3, 4, 5, 6, b'&', 8, 9, b'\t', b'\n', 12, b'\\', b'\r', 15, 0,
    ],
    second: [b' ', 2, 3, 4, 5, 6, 7, 8, 9, 10, 11, 12, 13, 14, 15, 0],
};

/// Prints the text that a string stands for (CommonMark 2.4 and 2.5).
#[tactic(auto, using(html_heading_text::proofs::FormedText::formed_bytes))]
pub fn push_string<A: Allocator, T: Tables>(
    out: &mut String<A>,
    on: &Constructs,
    tables: &T,
    string: &str,
) -> Result<(), AllocError>
    ensures { Prints result out.old out.new (string_text on.now (T.reference_of tables.now) (content_codes string.now)) }
{
    push_formed_string(out, on, tables, Form::Bytes, string)
}

/// Prints the text that a string stands for, as a text of HTML.
pub fn push_encoded_string<A: Allocator, T: Tables>(
    out: &mut String<A>,
    on: &Constructs,
    tables: &T,
    string: &str,
) -> Result<(), AllocError>
    ensures { Prints result out.old out.new (encode (string_text on.now (T.reference_of tables.now) (content_codes string.now))) }
{
    push_formed_string(out, on, tables, Form::Encoded, string)
}

/// Prints the text that a string stands for, in this form.
pub(crate) fn push_formed_string<A: Allocator, T: Tables>(
    out: &mut String<A>,
    on: &Constructs,
    tables: &T,
    form: Form,
    string: &str,
) -> Result<(), AllocError>
    ensures { Prints result out.old out.new (form_bytes form (text_of on.now (T.reference_of tables.now) string.now)) }
{
    let mut rest = string;
    while !rest.is_empty() {
        rest = push_piece(out, on, tables, form, rest)?;
    }
    Ok(())
}

/// Prints what a string begins with, and returns what follows that.
fn push_piece<'a, A: Allocator, T: Tables>(
    out: &mut String<A>,
    on: &Constructs,
    tables: &'a T,
    form: Form,
    string: &'a str,
) -> Result<&'a str, AllocError>
    requires { 0 < length string.now }
    ensures printed { IfOk result (λ rest. string_bytes out.new ++ form_bytes form (text_of on.now (T.reference_of tables.now) rest.now)
        ≡ string_bytes out.old ++ form_bytes form (text_of on.now (T.reference_of tables.now) string.now)) }
    ensures shorter { IfOk result (λ rest. length rest.now < length string.now) }
{
    if let Some(found) = string_leaf_at(on, tables, string) {
        push_string_part(out, form, found.part)?;
        return Ok(found.after);
    }
    let size = kept_size(string.as_bytes());
    push_formed(out, form, text_before(string, size))?;
    Ok(&string[size..])
}

/// What a string begins with, if it isn't a byte that stands for itself: an escape, a character
/// reference, or a line ending with the spaces and tabs around it.
fn string_leaf_at<'a, T: Tables>(
    on: &Constructs,
    tables: &'a T,
    content: &'a str,
) -> Option<Leaf<'a>>
    ensures read { found_leaf content.now result ≡ string_leaf_at on.now (T.reference_of tables.now) (content_codes content.now) }
    ensures place { IfSome result (λ found. IsAfter content.now found.after.now) }
{
    if let Some(found) = escape_at(on, content) {
        return Some(found);
    }
    if let Some(found) = reference_at(on, tables, content) {
        return Some(found);
    }
    if let Some(found) = line_end_at(content) {
        return Some(found);
    }
    spaces_at(content)
}

/// Spaces and tabs before a line ending, which aren't printed.
fn spaces_at(content: &str) -> Option<Leaf<'_>>
    ensures read { found_leaf content.now result ≡ spaces_at (content_codes content.now) }
    ensures place { IfSome result (λ found. IsAfter content.now found.after.now) }
{
    let bytes = content.as_bytes();
    let size = white_size(bytes);
    if size == 0 {
        return None;
    }
    let Some(_ending) = ending_at(from(bytes, size)) else {
        return None;
    };
    Some(Leaf {
        part: LeafPart::Spaces,
        after: cut_after(content, size),
    })
}

/// Prints what a part of a string stands for.
fn push_string_part<A: Allocator>(
    out: &mut String<A>,
    form: Form,
    part: LeafPart<'_>,
) -> Result<(), AllocError>
    ensures { Prints result out.old out.new (form_bytes form (flat_map part_bytes (parts_of part.entry))) }
{
    match part {
        LeafPart::Escape(text) => push_formed(out, form, text),
        LeafPart::Character(text) => push_formed(out, form, text),
        LeafPart::Unclosed(text) => push_formed(out, form, text),
        LeafPart::Number { radix, digits } => push_number(out, form, radix, digits),
        LeafPart::LineEnd(ending) => push_formed(out, form, ending.as_str()),
        _ => Ok(()),
    }
}

/// How many bytes come first that stand for themselves, where nothing else begins: all spaces and
/// tabs, or a byte with those after it that begin nothing.
fn kept_size(bytes: &[u8]) -> usize
    requires { 0 < length bytes.now }
    ensures { result ≡ kept_size bytes.now }
{
    let size = white_size(bytes);
    if size > 0 {
        size
    } else {
        1 + ink_size(from(bytes, 1))
    }
}

/// How many bytes come first that begin nothing.
fn ink_size(bytes: &[u8]) -> usize
    ensures { result ≡ prefix_len is_ink bytes.now }
{
    next_of(bytes, STARTS)
}
