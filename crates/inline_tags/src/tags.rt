//! The tags of HTML (CommonMark 6.6).
//!
//!     open_tag       ::= '<' tag_name attribute* white_space? '/'? '>'
//!     closing_tag    ::= '</' tag_name white_space? '>'
//!     tag_name       ::= letter (letter | digit | '-')*
//!     attribute      ::= white_space attribute_name (white_space? '=' white_space? value)?
//!     attribute_name ::= (letter | '_' | ':') (letter | digit | '_' | '.' | ':' | '-')*
//!     value          ::= unquoted+ | '"' [^"]* '"' | "'" [^']* "'"
//!     unquoted       ::= not white space, '"', "'", '=', '<', '>' or '`'
//!     white_space    ::= (space | tab | line_ending)+
ghost use Rattle.std.specs.Prelude.{◌≡◌};
ghost use Rattle.definition_inline.specs.HtmlTags.{is_tag_space, is_tag_name_byte, begins_attribute, is_attribute_byte, is_unquoted};
ghost use Rattle.definition_inline.specs.HtmlTags.{open_tag, closing_tag, tag_name};
ghost use Rattle.inline_tags.specs.Places.{at_end, after_part, after_attribute, after_equals, after_closing_name, next, rest_after};
ghost use Rattle.inline_tags.specs.Views.{rest_of, place_of};

use text_bytes::is_space_or_tab;

/// A place in a tag: where in it the next byte stands.
#[derive(Clone, Copy, Debug, PartialEq, Eq)]
pub enum Place {
    /// After `<`.
    NameStart,
    /// In the name of an open tag.
    Name,
    /// After white space, where an attribute may begin.
    Space,
    /// In the name of an attribute.
    Attribute,
    /// After white space that follows the name of an attribute.
    AttributeSpace,
    /// After `=`, and after white space that follows it.
    Equals,
    /// In a value without quotes.
    Unquoted,
    /// In a value between double quotes.
    DoubleQuoted,
    /// In a value between single quotes.
    SingleQuoted,
    /// After a value between quotes.
    Quoted,
    /// After `/`.
    Slash,
    /// After the `</` of a closing tag.
    ClosingStart,
    /// In the name of a closing tag.
    ClosingName,
    /// After white space that follows the name of a closing tag.
    ClosingSpace,
    /// After the `>` of a tag.
    End,
    /// Where no tag is.
    Nowhere,
}

fn is_tag_space(byte: u8) -> bool
    ensures { result ≡ is_tag_space byte }
{
    is_space_or_tab(byte) || byte == b'\n'
}

fn is_tag_name_byte(byte: u8) -> bool
    ensures { result ≡ is_tag_name_byte byte }
{
    byte.is_ascii_alphanumeric() || byte == b'-'
}

fn begins_attribute(byte: u8) -> bool
    ensures { result ≡ begins_attribute byte }
{
    byte.is_ascii_alphabetic() || byte == b'_' || byte == b':'
}

fn is_attribute_byte(byte: u8) -> bool
    ensures { result ≡ is_attribute_byte byte }
{
    byte.is_ascii_alphanumeric() || byte == b'_' || byte == b'.' || byte == b':' || byte == b'-'
}

fn is_unquoted(byte: u8) -> bool
    ensures { result ≡ is_unquoted byte }
{
    !(is_tag_space(byte)
        || byte == b'"'
        || byte == b'\''
        || byte == b'='
        || byte == b'<'
        || byte == b'>'
        || byte == b'`')
}

/// `>` ends a tag.
fn at_end(byte: u8) -> Place
    ensures { place_of result ≡ at_end byte }
{
    if byte == b'>' {
        Place::End
    } else {
        Place::Nowhere
    }
}

/// After a name or a value of an open tag.
fn after_part(byte: u8) -> Place
    ensures { place_of result ≡ after_part byte }
{
    if is_tag_space(byte) {
        Place::Space
    } else if byte == b'/' {
        Place::Slash
    } else {
        at_end(byte)
    }
}

/// After an attribute name.
fn after_attribute(byte: u8) -> Place
    ensures { place_of result ≡ after_attribute byte }
{
    if is_tag_space(byte) {
        Place::AttributeSpace
    } else if byte == b'=' {
        Place::Equals
    } else {
        after_part(byte)
    }
}

/// After `=`.
fn after_equals(byte: u8) -> Place
    ensures { place_of result ≡ after_equals byte }
{
    if is_tag_space(byte) {
        Place::Equals
    } else if byte == b'"' {
        Place::DoubleQuoted
    } else if byte == b'\'' {
        Place::SingleQuoted
    } else if is_unquoted(byte) {
        Place::Unquoted
    } else {
        Place::Nowhere
    }
}

/// After the name of a closing tag.
fn after_closing_name(byte: u8) -> Place
    ensures { place_of result ≡ after_closing_name byte }
{
    if is_tag_space(byte) {
        Place::ClosingSpace
    } else {
        at_end(byte)
    }
}

/// The place after one more byte.
pub fn next(place: Place, byte: u8) -> Place
    ensures { place_of result ≡ next (place_of place) byte }
{
    match place {
        Place::NameStart if byte.is_ascii_alphabetic() => Place::Name,
        Place::ClosingStart if byte.is_ascii_alphabetic() => Place::ClosingName,
        Place::Name | Place::ClosingName if is_tag_name_byte(byte) => place,
        Place::Space | Place::AttributeSpace if begins_attribute(byte) => Place::Attribute,
        Place::Attribute if is_attribute_byte(byte) => place,
        Place::Unquoted if is_unquoted(byte) => place,
        Place::DoubleQuoted if byte != b'"' => place,
        Place::SingleQuoted if byte != b'\'' => place,
        Place::DoubleQuoted | Place::SingleQuoted => Place::Quoted,
        Place::Name | Place::Space | Place::Unquoted | Place::Quoted => after_part(byte),
        Place::Attribute | Place::AttributeSpace => after_attribute(byte),
        Place::Equals => after_equals(byte),
        Place::Slash => at_end(byte),
        Place::ClosingName | Place::ClosingSpace => after_closing_name(byte),
        Place::End => place,
        Place::NameStart | Place::ClosingStart | Place::Nowhere => Place::Nowhere,
    }
}

/// What follows a tag that goes on from a place, if it ends.
fn rest_after(start: Place, bytes: &[u8]) -> Option<&[u8]>
    ensures { rest_of result ≡ rest_after (place_of start) bytes.now }
{
    let mut place = start;
    for (i, b) in bytes.iter().enumerate() {
        place = next(place, *b);
        match place {
            Place::End => return Some(&bytes[i + 1..]),
            Place::Nowhere => return None,
            _ => {}
        }
    }
    None
}

/// What follows the open tag that bytes begin with, if they begin with one (CommonMark 6.6).
pub fn open_tag(bytes: &[u8]) -> Option<&[u8]>
    ensures { rest_of result ≡ open_tag bytes.now }
{
    if !bytes.starts_with(b"<") {
        return None;
    }
    rest_after(Place::NameStart, &bytes[1..])
}

/// What follows the closing tag that bytes begin with, if they begin with one (CommonMark 6.6).
pub fn closing_tag(bytes: &[u8]) -> Option<&[u8]>
    ensures { rest_of result ≡ closing_tag bytes.now }
{
    if !bytes.starts_with(b"</") {
        return None;
    }
    rest_after(Place::ClosingStart, &bytes[2..])
}

/// The tag name that bytes begin with (CommonMark 6.6).
pub fn tag_name(bytes: &[u8]) -> &[u8]
    ensures { result.now ≡ tag_name bytes.now }
{
    for (i, b) in bytes.iter().enumerate() {
        if !is_tag_name_byte(*b) {
            return &bytes[..i];
        }
    }
    bytes
}
