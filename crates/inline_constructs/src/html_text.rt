//! Raw HTML in a text (CommonMark 6.6).
//!
//!     html        ::= open_tag | closing_tag | comment | instruction | declaration | cdata
//!     comment     ::= '<!-->' | '<!--->' | '<!--' text '-->'
//!     instruction ::= '<?' text '?>'
//!     declaration ::= '<!' letter text '>'
//!     cdata       ::= '<![CDATA[' text ']]>'
//!
//! A text ends where what closes it stands first. In a tag a line ending is white space.
ghost use Rattle.std.specs.Prelude.{◌≡◌, ◌≤◌, IfSome, codes, drop, length, false};
ghost use Rattle.std.specs.Option.{option_map};
ghost use Rattle.definition_inline.specs.HtmlText.{after_text, comment, instruction, declaration, cdata, html_text_at};
ghost use Rattle.definition_text.specs.Bytes.{begins_with};
ghost use Rattle.definition_text.specs.Content.{content_codes};
ghost use Rattle.inline_tags.specs.Views.{place_of};
ghost use Rattle.inline_leaves.specs.Leaves.{found_leaf, LeavesRest};
ghost use Rattle.inline_constructs.specs.HtmlText.{ending_as_feed, is_end, tag_after, open_after, closing_after, html_after, IsClosed, ClosesText};

use inline_leaves::cut::{cut_after, text_before};
use inline_leaves::{Leaf, LeafPart};
use inline_links::part::from;
use inline_tags::tags::{Place, next};
use markdown_options::Constructs;
use markdown_options::constants::HTML_CDATA_PREFIX;
use text_bytes::begins_with_letter;

/// Raw HTML (CommonMark 6.6).
pub(crate) fn html_text_at<'a>(on: &Constructs, content: &'a str) -> Option<Leaf<'a>>
    ensures read { found_leaf content.now result ≡ html_text_at on.now (content_codes content.now) }
    ensures place { LeavesRest content.now result }
{
    let bytes = content.as_bytes();
    if !on.html_text || !bytes.starts_with(b"<") {
        return None;
    }
    let Some(size) = html_size(bytes) else {
        return None;
    };
    Some(Leaf {
        part: LeafPart::Html(text_before(content, size)),
        after: cut_after(content, size),
    })
}

/// How many bytes the raw HTML has that bytes begin with.
fn html_size(bytes: &[u8]) -> Option<usize>
    ensures read { option_map (λ size. drop size bytes.now) result ≡ html_after bytes.now }
    ensures place { IfSome result (λ size. IsClosed bytes.now size) }
{
    if let Some(size) = open_tag(bytes) {
        return Some(size);
    }
    if let Some(size) = closing_tag(bytes) {
        return Some(size);
    }
    if let Some(size) = comment(bytes) {
        return Some(size);
    }
    if let Some(size) = instruction(bytes) {
        return Some(size);
    }
    if let Some(size) = declaration(bytes) {
        return Some(size);
    }
    cdata(bytes)
}

/// How many bytes an open tag has (CommonMark 6.6).
fn open_tag(bytes: &[u8]) -> Option<usize>
    ensures read { option_map (λ size. drop size bytes.now) result ≡ open_after bytes.now }
    ensures place { IfSome result (λ size. IsClosed bytes.now size) }
{
    if !bytes.starts_with(b"<") {
        return None;
    }
    tag_end(Place::NameStart, bytes, 1)
}

/// How many bytes a closing tag has (CommonMark 6.6).
fn closing_tag(bytes: &[u8]) -> Option<usize>
    ensures read { option_map (λ size. drop size bytes.now) result ≡ closing_after bytes.now }
    ensures place { IfSome result (λ size. IsClosed bytes.now size) }
{
    if !bytes.starts_with(b"</") {
        return None;
    }
    tag_end(Place::ClosingStart, bytes, 2)
}

/// How many bytes a comment has (CommonMark 6.6).
fn comment(bytes: &[u8]) -> Option<usize>
    ensures read { option_map (λ size. drop size bytes.now) result ≡ comment bytes.now }
    ensures place { IfSome result (λ size. IsClosed bytes.now size) }
{
    if !bytes.starts_with(b"<!--") {
        return None;
    }
    let rest = from(bytes, 4);
    if rest.starts_with(b">") {
        return Some(5);
    }
    if rest.starts_with(b"->") {
        return Some(6);
    }
    text_end(b"-->", bytes, 4)
}

/// How many bytes a processing instruction has (CommonMark 6.6).
fn instruction(bytes: &[u8]) -> Option<usize>
    ensures read { option_map (λ size. drop size bytes.now) result ≡ instruction bytes.now }
    ensures place { IfSome result (λ size. IsClosed bytes.now size) }
{
    if !bytes.starts_with(b"<?") {
        return None;
    }
    text_end(b"?>", bytes, 2)
}

/// How many bytes a declaration has (CommonMark 6.6).
fn declaration(bytes: &[u8]) -> Option<usize>
    ensures read { option_map (λ size. drop size bytes.now) result ≡ declaration bytes.now }
    ensures place { IfSome result (λ size. IsClosed bytes.now size) }
{
    if !bytes.starts_with(b"<!") || !begins_with_letter(from(bytes, 2)) {
        return None;
    }
    text_end(b">", bytes, 2)
}

/// How many bytes a CDATA section has (CommonMark 6.6).
fn cdata(bytes: &[u8]) -> Option<usize>
    ensures read { option_map (λ size. drop size bytes.now) result ≡ cdata bytes.now }
    ensures place { IfSome result (λ size. IsClosed bytes.now size) }
{
    if !begins_cdata(bytes) {
        return None;
    }
    text_end(b"]]>", bytes, 9)
}

/// Whether a CDATA section begins (CommonMark 6.6).
pub(crate) fn begins_cdata(bytes: &[u8]) -> bool
    ensures { result ≡ begins_with (codes "<![CDATA[") bytes.now }
{
    bytes.starts_with(b"<![") && from(bytes, 3).starts_with(&HTML_CDATA_PREFIX)
}

/// Where the first of the texts ends that stand in bytes from a place on.
pub(crate) fn text_end(text: &[u8], bytes: &[u8], start: usize) -> Option<usize>
    requires start { start ≤ length bytes.now }
    requires text { ClosesText text.now }
    ensures read { option_map (λ end. drop end bytes.now) result ≡ after_text text.now (drop start bytes.now) }
    ensures place { IfSome result (λ end. IsClosed bytes.now end) }
{
    for i in start..bytes.len() {
        if from(bytes, i).starts_with(text) {
            return Some(i + text.len());
        }
    }
    None
}

/// A line ending in a tag is LF.
fn ending_as_feed(byte: u8) -> u8
    ensures { result ≡ ending_as_feed byte }
{
    if byte == b'\r' { b'\n' } else { byte }
}

/// Where a tag ends of which bytes are read up to a place.
fn tag_end(start: Place, bytes: &[u8], read: usize) -> Option<usize>
    requires read { read ≤ length bytes.now }
    requires start { is_end (place_of start) ≡ false }
    ensures read { option_map (λ end. drop end bytes.now) result ≡ tag_after (place_of start) (drop read bytes.now) }
    ensures place { IfSome result (λ end. IsClosed bytes.now end) }
{
    let mut place = start;
    for i in read..bytes.len() {
        place = next(place, ending_as_feed(bytes[i]));
        match place {
            Place::End => return Some(i + 1),
            Place::Nowhere => return None,
            _ => {}
        }
    }
    None
}
