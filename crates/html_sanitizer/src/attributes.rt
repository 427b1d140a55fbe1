//! The attributes of a tag: as they are written, and as they are printed.
ghost use Rattle.std.specs.Prelude.{◌≡◌, ◌++◌, ◌<◌, ℕ, List, IfOk, IfSome, OnOk, codes, drop, length, map, string_bytes};
ghost use Rattle.std.specs.List.{flat_map, prefix_len};
ghost use Rattle.std.specs.Option.{option_copied};
ghost use Rattle.definition_text.specs.Encode.{encode};
ghost use Rattle.definition_inline.specs.HtmlTags.{begins_attribute, begins_with_attribute, is_attribute_byte};
ghost use Rattle.definition_page.specs.Tags.{attribute, attribute_bytes};
ghost use Rattle.definition_html.specs.Attributes.{code_bytes, decoded, first_of, if_written, kept, url_attributes, url_bytes};
ghost use Rattle.html_sanitizer.specs.Attributes.{is_space_code, is_unquoted_code, after_space, split_value, split_attribute, begins_with_space};
ghost use Rattle.html_sanitizer.specs.Attributes.{attribute_start, cut, rest_after};
ghost use Rattle.html_sanitizer.specs.Attributes.{read_attribute, named_attributes, attributes_of, part_of, split_of, first_value};
ghost use Rattle.html_safe_page.specs.Views.{names_of};
ghost use Rattle.html_sanitizer.specs.Urls.{url_if_written};

use crate::listing::is_lower;
use crate::urls::{Buffers, clean_url, push_permitted_url};
use html_escape::push_encoded;
use html_listed::listing::LISTED_ATTRIBUTES;
use inline_references::push_decoded;
use markdown_compile_options::CompileOptions;
use markdown_options::Tables;
use markdown_options::constants::{SAFE_PROTOCOL_HREF, SAFE_PROTOCOL_SRC};
use std::alloc::{AllocError, Allocator};

/// An attribute as it is written: its name, and its value without quotes.
#[derive(Clone, Copy)]
pub(crate) struct Written<'a> {
    name: &'a str,
    value: &'a str,
}

// ---- as written

fn is_tag_space(byte: u8) -> bool
    ensures { result ≡ is_space_code byte }
{
    matches!(byte, b'\t' | b'\n' | b'\r' | b' ')
}

fn begins_attribute(byte: u8) -> bool
    ensures { result ≡ begins_attribute byte }
{
    byte.is_ascii_alphabetic() || byte == b'_' || byte == b':'
}

fn is_attribute_byte(byte: u8) -> bool
    ensures { result ≡ is_attribute_byte byte }
{
    byte.is_ascii_alphanumeric() || byte == b'_' || byte == b'.' || byte == b':' || byte == b'-'
}

fn is_unquoted(byte: u8) -> bool
    ensures { result ≡ is_unquoted_code byte }
{
    !(is_tag_space(byte) || matches!(byte, b'"' | b'\'' | b'=' | b'<' | b'>' | b'`'))
}

fn space_size(bytes: &[u8]) -> usize
    ensures { result ≡ prefix_len is_space_code bytes.now }
{
    bytes.iter().take_while(|b| is_tag_space(**b)).count()
}

fn name_size(bytes: &[u8]) -> usize
    ensures { result ≡ prefix_len is_attribute_byte bytes.now }
{
    bytes.iter().take_while(|b| is_attribute_byte(**b)).count()
}

fn unquoted_size(bytes: &[u8]) -> usize
    ensures { result ≡ prefix_len is_unquoted_code bytes.now }
{
    bytes.iter().take_while(|b| is_unquoted(**b)).count()
}

/// What follows the white space at the start.
pub(crate) fn after_space(text: &str) -> &str
    ensures { result.now ≡ after_space text.now }
{
    &text[space_size(text.as_bytes())..]
}

/// The value at the start, without its quotes, and what follows it.
fn split_value(text: &str) -> Option<(&str, &str)>
    ensures { part_of result ≡ split_value text.now }
{
    if let Some(inside) = text.strip_prefix('"') {
        return inside.split_once('"');
    }
    if let Some(inside) = text.strip_prefix('\'') {
        return inside.split_once('\'');
    }
    let size = unquoted_size(text.as_bytes());
    if size == 0 {
        return None;
    }
    Some(text.split_at(size))
}

/// The attribute at the start, whose name begins there, and what follows it.
fn split_attribute(text: &str) -> Option<(Written<'_>, &str)>
    ensures { split_of result ≡ split_attribute text.now }
{
    let (name, after_name) = text.split_at(name_size(text.as_bytes()));
    let Some(specified) = after_space(after_name).strip_prefix('=') else {
        return Some((Written { name, value: "" }, after_name));
    };
    let (value, after) = split_value(after_space(specified))?;
    Some((Written { name, value }, after))
}

/// What follows white space, if an attribute begins there.
fn attribute_start(text: &str) -> Option<&str>
    ensures { option_copied result ≡ attribute_start text.now }
{
    let start = after_space(text);
    if begins_with_space(text.as_bytes()) && begins_with_attribute(start.as_bytes()) {
        Some(start)
    } else {
        None
    }
}

fn begins_with_space(bytes: &[u8]) -> bool
    ensures { result ≡ begins_with_space bytes.now }
{
    match bytes.first() {
        Some(byte) => is_tag_space(*byte),
        None => false,
    }
}

fn begins_with_attribute(bytes: &[u8]) -> bool
    ensures { result ≡ begins_with_attribute bytes.now }
{
    match bytes.first() {
        Some(byte) => begins_attribute(*byte),
        None => false,
    }
}

/// Adds the attributes that follow the name of a tag. Returns what follows them.
pub(crate) fn read_attributes<'a, A: Allocator>(
    written: &mut Vec<Written<'a>, A>,
    text: &'a str,
) -> Result<&'a str, AllocError>
    ensures written { IfOk result (λ _. attributes_of written.new.items ≡ attributes_of written.old.items ++ cut (length text.now) text.now) }
    ensures rest { IfOk result (λ rest. rest.now ≡ rest_after (length text.now) text.now) }
{
    let mut rest = text;
    while let Some(start) = attribute_start(rest) {
        let Some((attribute, after)) = split_attribute(start) else {
            return Ok("");
        };
        written.push(attribute)?;
        rest = after;
    }
    Ok(rest)
}

/// The value of the first attribute of this name.
fn first_of<'a>(name: &str, written: &[Written<'a>]) -> Option<&'a str>
    ensures { option_copied result ≡ first_value name.now (attributes_of written.now) }
{
    for attribute in written {
        if is_lower(name, attribute.name) {
            return Some(attribute.value);
        }
    }
    None
}

// ---- as printed

/// Appends what an attribute begins with, before its value.
fn push_start<A: Allocator>(out: &mut String<A>, name: &str) -> Result<(), AllocError>
    ensures { OnOk result (string_bytes out.new ≡ string_bytes out.old ++ codes " " ++ name.now ++ codes "=\"") }
{
    out.push_str(" ")?;
    out.push_str(name)?;
    out.push_str("=\"")
}

/// Appends an attribute without a URL, if it is written.
fn push_if_written<A: Allocator, T: Tables>(
    out: &mut String<A>,
    text: &mut String<A>,
    tables: &T,
    name: &str,
    written: &[Written<'_>],
) -> Result<(), AllocError>
    ensures { let attributes = map (read_attribute (T.reference_of tables.now)) (attributes_of written.now) in
        OnOk result (string_bytes out.new ≡ string_bytes out.old ++ flat_map attribute_bytes (if_written name.now (first_of name.now attributes))) }
{
    match first_of(name, written) {
        Some(value) => push_attribute(out, text, tables, name, value),
        None => Ok(()),
    }
}

/// Appends an attribute without a URL.
fn push_attribute<A: Allocator, T: Tables>(
    out: &mut String<A>,
    text: &mut String<A>,
    tables: &T,
    name: &str,
    value: &str,
) -> Result<(), AllocError>
    ensures { OnOk result (string_bytes out.new
        ≡ string_bytes out.old ++ attribute_bytes (attribute name.now (decoded (T.reference_of tables.now) value.now))) }
{
    text.clear();
    push_decoded(text, value, tables)?;
    push_text_attribute(out, name, text.as_str())
}

/// Appends an attribute whose value is a text.
fn push_text_attribute<A: Allocator>(
    out: &mut String<A>,
    name: &str,
    text: &str,
) -> Result<(), AllocError>
    ensures { OnOk result (string_bytes out.new ≡ string_bytes out.old ++ attribute_bytes (attribute name.now (code_bytes text.now))) }
{
    push_start(out, name)?;
    push_encoded(out, text)?;
    out.push_str("\"")
}

/// Reads a URL: a value without references, tabs and line endings.
fn read_url<A: Allocator, T: Tables>(
    buffers: &mut Buffers<A>,
    tables: &T,
    value: &str,
) -> Result<(), AllocError>
    ensures { OnOk result (string_bytes buffers.new.url ≡ url_bytes (decoded (T.reference_of tables.now) value.now)) }
{
    buffers.text.clear();
    push_decoded(&mut buffers.text, value, tables)?;
    clean_url(&mut buffers.url, &mut buffers.other, buffers.text.as_str())
}

/// Appends an attribute with a URL, if it is written; unless all protocols are permitted, only with
/// one of these or with none.
fn push_url<A: Allocator, T: Tables>(
    out: &mut String<A>,
    buffers: &mut Buffers<A>,
    tables: &T,
    name: &str,
    all: bool,
    protocols: &[&str],
    written: &[Written<'_>],
) -> Result<(), AllocError>
    ensures { let attributes = map (read_attribute (T.reference_of tables.now)) (attributes_of written.now) in
        OnOk result (string_bytes out.new ≡ string_bytes out.old
        ++ flat_map attribute_bytes (url_if_written all (names_of protocols.now) name.now (first_of name.now attributes))) }
{
    let Some(value) = first_of(name, written) else {
        return Ok(());
    };
    read_url(buffers, tables, value)?;
    push_start(out, name)?;
    push_permitted_url(out, all, protocols, buffers.url.as_str())?;
    out.push_str("\"")
}

/// Appends the attributes that an element of this name is printed with.
pub(crate) fn push_attributes<A: Allocator, T: Tables>(
    out: &mut String<A>,
    buffers: &mut Buffers<A>,
    options: &CompileOptions,
    tables: &T,
    name: &str,
    written: &[Written<'_>],
) -> Result<(), AllocError>
    ensures { let attributes = map (read_attribute (T.reference_of tables.now)) (attributes_of written.now) in
        OnOk result (string_bytes out.new ≡ string_bytes out.old ++ flat_map attribute_bytes (kept options.now name.now attributes)) }
{
    push_url_attribute(out, buffers, options, tables, name, written)?;
    push_listed(out, &mut buffers.text, tables, &LISTED_ATTRIBUTES, written)
}

/// Appends the attribute with a URL that an element of this name may have, if it is written.
fn push_url_attribute<A: Allocator, T: Tables>(
    out: &mut String<A>,
    buffers: &mut Buffers<A>,
    options: &CompileOptions,
    tables: &T,
    name: &str,
    written: &[Written<'_>],
) -> Result<(), AllocError>
    ensures { let attributes = map (read_attribute (T.reference_of tables.now)) (attributes_of written.now) in
        OnOk result (string_bytes out.new ≡ string_bytes out.old ++ flat_map attribute_bytes (url_attributes options.now name.now attributes)) }
{
    match name {
        "a" => {
            let all = options.allow_dangerous_protocol;
            push_url(
                out,
                buffers,
                tables,
                "href",
                all,
                &SAFE_PROTOCOL_HREF,
                written,
            )
        }
        "img" => {
            let all = options.allow_any_img_src || options.allow_dangerous_protocol;
            push_url(
                out,
                buffers,
                tables,
                "src",
                all,
                &SAFE_PROTOCOL_SRC,
                written,
            )
        }
        _ => Ok(()),
    }
}

/// Appends the attributes without a URL that have one of these names, in this order.
fn push_listed<A: Allocator, T: Tables>(
    out: &mut String<A>,
    text: &mut String<A>,
    tables: &T,
    names: &[&str],
    written: &[Written<'_>],
) -> Result<(), AllocError>
    ensures { let attributes = map (read_attribute (T.reference_of tables.now)) (attributes_of written.now) in
        OnOk result (string_bytes out.new ≡ string_bytes out.old ++ flat_map attribute_bytes (named_attributes (names_of names.now) attributes)) }
{
    for name in names {
        push_if_written(out, text, tables, name, written)?;
    }
    Ok(())
}
