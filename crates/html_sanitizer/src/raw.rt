//! Parts of raw HTML: tags, and what else begins with `<` or `&` (CommonMark 2.5 and 6.6).
ghost use Rattle.std.specs.Prelude.{◌≡◌, ◌++◌, ◌∷◌, ◌<◌, ◌≤◌, ℕ, List, IfOk, OnOk, codes, drop, length, map, slice_index, string_bytes, true};
ghost use Rattle.std.specs.List.{prefix_len};
ghost use Rattle.definition_text.specs.Ascii.{ampersand};
ghost use Rattle.definition_text.specs.Bytes.{after_all, begins_with, without_slash};
ghost use Rattle.definition_inline.specs.Decoded.{known_at};
ghost use Rattle.definition_inline.specs.HtmlTags.{is_tag_name_byte, tag_name};
ghost use Rattle.definition_page.specs.Tags.{tag, tag_bytes};
ghost use Rattle.definition_html.specs.Attributes.{kept};
ghost use Rattle.definition_html.specs.Listed.{raw_part};
ghost use Rattle.definition_html.specs.Raw.{open_part, token_part};
ghost use Rattle.html_sanitizer.specs.Attributes.{attributes_of, read_attribute};
ghost use Rattle.html_sanitizer.specs.Page.{page_state};
ghost use Rattle.html_sanitizer.specs.Sanitized.{reference_part};

use crate::attributes::{Written, after_space, push_attributes, read_attributes};
use crate::listing::listed_name;
use crate::page::Page;
use crate::urls::Buffers;
use html_escape::push_encoded;
use html_listed::listing::{VOID_NAMES, is_in};
use inline_references::{character_reference, push_value};
use markdown_compile_options::CompileOptions;
use markdown_options::Tables;
use std::alloc::{AllocError, Allocator};

/// What is used again for each tag.
#[derive(Drop)]
pub(crate) struct Scratch<'a, A: Allocator> {
    /// The attributes of a tag.
    pub(crate) written: Vec<Written<'a>, A>,
    /// Values.
    pub(crate) buffers: Buffers<A>,
}

fn is_name_byte(byte: u8) -> bool
    ensures { result ≡ is_tag_name_byte byte }
{
    byte.is_ascii_alphanumeric() || byte == b'-'
}

fn name_size(bytes: &[u8]) -> usize
    ensures { result ≡ prefix_len is_tag_name_byte bytes.now }
{
    bytes.iter().take_while(|b| is_name_byte(**b)).count()
}

/// Prints raw HTML: by its tag if it is listed, nothing for a comment, otherwise as text.
pub(crate) fn push_html<'a, A: Allocator, T: Tables>(
    page: &mut Page<A>,
    scratch: &mut Scratch<'a, A>,
    options: &CompileOptions,
    tables: &T,
    html: &'a str,
) -> Result<(), AllocError>
    ensures printed { begins_with (codes "<") html.now ≡ true
        → OnOk result (page_state page.new ≡ raw_part (page_state page.old) (token_part (T.reference_of tables.now) options.now html.now)) }
    ensures bytes { (k : ℕ) → slice_index html.now k < 256 }
{
    let bytes = html.as_bytes();
    if bytes.starts_with(b"<!--") {
        return Ok(());
    }
    let inside = after_sign(html);
    let Some(name) = listed_name(split_name(without_slash(inside)).0) else {
        return page.push_text(html);
    };
    if bytes.starts_with(b"</") {
        return page.end_to(&[name]);
    }
    push_open_tag(page, scratch, options, tables, name, split_name(inside).1)
}

/// What follows the `<` at the start of a text.
fn after_sign(text: &str) -> &str
    ensures { begins_with (codes "<") text.now ≡ true → result.now ≡ drop 1 text.now }
{
    match text.strip_prefix('<') {
        Some(inside) => inside,
        None => text,
    }
}

/// A text without a `/` at the front.
fn without_slash(text: &str) -> &str
    ensures { result.now ≡ without_slash text.now }
{
    match text.strip_prefix('/') {
        Some(rest) => rest,
        None => text,
    }
}

/// The name of a tag, and what follows it.
fn split_name(text: &str) -> (&str, &str)
    ensures name { result.0.now ≡ tag_name text.now }
    ensures rest { result.1.now ≡ after_all is_tag_name_byte text.now }
{
    text.split_at(name_size(text.as_bytes()))
}

/// Prints an open tag of this name, by what follows its name.
fn push_open_tag<'a, A: Allocator, T: Tables>(
    page: &mut Page<A>,
    scratch: &mut Scratch<'a, A>,
    options: &CompileOptions,
    tables: &T,
    name: &'static str,
    after: &'a str,
) -> Result<(), AllocError>
    ensures { (html : List ℕ) → after.now ≡ after_all is_tag_name_byte html
        → OnOk result (page_state page.new ≡ raw_part (page_state page.old) (open_part (T.reference_of tables.now) options.now name.now html)) }
{
    scratch.written.clear();
    let rest = read_attributes(&mut scratch.written, after)?;
    if is_in(&VOID_NAMES, name) {
        page.make_room(name)?;
        push_tag(&mut page.out, scratch, options, tables, name)?;
        page.out.push_str(" />")?;
        return Ok(());
    }
    if !page.find_place(name)? {
        return Ok(());
    }
    push_tag(&mut page.out, scratch, options, tables, name)?;
    page.out.push_str(">")?;
    page.open(name)?;
    if after_space(rest).as_bytes().starts_with(b"/") {
        page.end(1)
    } else {
        Ok(())
    }
}

/// Appends a tag with the attributes that were read, before what ends it.
fn push_tag<A: Allocator, T: Tables>(
    out: &mut String<A>,
    scratch: &mut Scratch<'_, A>,
    options: &CompileOptions,
    tables: &T,
    name: &str,
) -> Result<(), AllocError>
    ensures { let attributes = map (read_attribute (T.reference_of tables.now)) (attributes_of scratch.old.written.items) in
        OnOk result (string_bytes out.new ≡ string_bytes out.old ++ codes "<" ++ tag_bytes (tag name.now (kept options.now name.now attributes))) }
{
    out.push_str("<")?;
    out.push_str(name)?;
    push_attributes(
        out,
        &mut scratch.buffers,
        options,
        tables,
        name,
        scratch.written.as_slice(),
    )
}

/// Appends the text of the reference that `&` begins, or `&`. Returns what follows.
pub(crate) fn push_reference<'a, A: Allocator, T: Tables>(
    out: &mut String<A>,
    text: &mut String<A>,
    tables: &T,
    after: &'a str,
) -> Result<&'a str, AllocError>
    ensures printed { let found = reference_part after.now (known_at (T.reference_of tables.now) (ampersand ∷ after.now)) in
        OnOk result (string_bytes out.new ≡ string_bytes out.old ++ found.text) }
    ensures rest { let found = reference_part after.now (known_at (T.reference_of tables.now) (ampersand ∷ after.now)) in
        IfOk result (λ rest. rest.now ≡ found.rest) }
    ensures shorter { IfOk result (λ rest. length rest.now ≤ length after.now) }
{
    if let Some(reference) = character_reference(after) {
        text.clear();
        if push_value(text, reference.value, reference.marker, tables)? {
            push_encoded(out, text.as_str())?;
            return Ok(reference.rest);
        }
    }
    out.push_str("&amp;")?;
    Ok(after)
}
