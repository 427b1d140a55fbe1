//! Where HTML blocks start and end (CommonMark 4.6). A line is given by its bytes after the spaces
//! and tabs ahead.
ghost use Rattle.std.specs.Prelude.{◌≡◌, codes};
ghost use Rattle.std.specs.List.{list_any};
ghost use Rattle.definition_text.specs.Bytes.{begins_with, somewhere};
ghost use Rattle.definition_block.specs.HtmlFlow.{element_name, after_element_name, ends_name, starts_raw, starts_declaration, begins_with_block_name};
ghost use Rattle.definition_block.specs.HtmlFlow.{starts_basic, stands_alone, starts_complete, html_kind, begins_with_raw_end, html_ends};
ghost use Rattle.definition_block.specs.HtmlNames.{is_raw_name, is_block_name};
ghost use Rattle.inline_tags.specs.Views.{rest_of};
ghost use Rattle.block_starts.specs.HtmlFlow.{is_greater_than, number_of, kind_number};

use inline_tags::tags::{closing_tag, open_tag, tag_name};
use markdown_options::constants::{
    HTML_BLOCK_NAMES, HTML_CDATA_PREFIX, HTML_RAW_NAMES, HTML_RAW_SIZE_MAX,
};
use text_bytes::{
    begins_with_letter, holds, is_blank, is_one_of, is_short_one_of, is_space_or_tab, without_slash,
};
use text_search::{BytePair, next_of};

/// The byte with which each text ends that ends an HTML block.
const GREATER_THAN: BytePair = BytePair {
    first: b'>',
    second: b'>',
};

/// The kinds of HTML blocks, in the order of CommonMark 4.6.
#[derive(Clone, Copy)]
pub enum HtmlKind {
    /// `pre`, `script`, `style` or `textarea`, up to a closing tag of one of these.
    Raw,
    /// From `<!--` to `-->`.
    Comment,
    /// From `<?` to `?>`.
    Instruction,
    /// From `<!` and a letter to `>`.
    Declaration,
    /// From `<![CDATA[` to `]]>`.
    CharacterData,
    /// A tag of a named element, up to a blank line.
    Basic,
    /// A complete tag alone on its line, up to a blank line.
    Complete,
}

/// Which kind of HTML block starts on a line (CommonMark 4.6). The last kind doesn't interrupt a
/// paragraph.
pub fn html_kind(line: &[u8], paragraph_open: bool) -> Option<HtmlKind>
    ensures { kind_number result ≡ html_kind paragraph_open line.now }
{
    if !line.starts_with(b"<") {
        return None;
    }
    if starts_raw(line) {
        Some(HtmlKind::Raw)
    } else if line.starts_with(b"<!--") {
        Some(HtmlKind::Comment)
    } else if line.starts_with(b"<?") {
        Some(HtmlKind::Instruction)
    } else if starts_declaration(line) {
        Some(HtmlKind::Declaration)
    } else if starts_character_data(line) {
        Some(HtmlKind::CharacterData)
    } else if starts_basic(line) {
        Some(HtmlKind::Basic)
    } else if !paragraph_open && starts_complete(line) {
        Some(HtmlKind::Complete)
    } else {
        None
    }
}

/// The letters and digits that bytes begin with, and what follows them.
fn split_name(bytes: &[u8]) -> (&[u8], &[u8])
    ensures name { result.0.now ≡ element_name bytes.now }
    ensures after { result.1.now ≡ after_element_name bytes.now }
{
    for (i, b) in bytes.iter().enumerate() {
        if !b.is_ascii_alphanumeric() {
            return bytes.split_at(i);
        }
    }
    (bytes, &[])
}

/// Whether a space, a tab, `>` or the end of the line is next.
fn ends_name(bytes: &[u8]) -> bool
    ensures { result ≡ ends_name bytes.now }
{
    match bytes {
        [] => true,
        [b, ..] => is_space_or_tab(*b) || *b == b'>',
    }
}

/// `<![CDATA[`.
fn starts_character_data(line: &[u8]) -> bool
    ensures { result ≡ begins_with (codes "<![CDATA[") line.now }
{
    line.starts_with(b"<![") && line[3..].starts_with(&HTML_CDATA_PREFIX)
}

/// `<`, a raw name and what ends a name.
fn starts_raw(line: &[u8]) -> bool
    ensures { result ≡ starts_raw line.now }
{
    if !line.starts_with(b"<") {
        return false;
    }
    let (name, after) = split_name(&line[1..]);
    is_raw_name(name) && ends_name(after)
}

/// `<!` and a letter.
fn starts_declaration(line: &[u8]) -> bool
    ensures { result ≡ starts_declaration line.now }
{
    line.starts_with(b"<!") && begins_with_letter(&line[2..])
}

/// `<` or `</`, a block name and what ends it.
fn starts_basic(line: &[u8]) -> bool
    ensures { result ≡ starts_basic line.now }
{
    line.starts_with(b"<") && begins_with_block_name(without_slash(&line[1..]))
}

fn begins_with_block_name(bytes: &[u8]) -> bool
    ensures { result ≡ begins_with_block_name bytes.now }
{
    let (name, after) = split_name(bytes);
    is_block_name(name) && (ends_name(after) || after.starts_with(b"/>"))
}

/// A complete tag and only spaces and tabs.
fn starts_complete(line: &[u8]) -> bool
    ensures { result ≡ starts_complete line.now }
{
    if !line.starts_with(b"<") {
        return false;
    }
    stands_alone(open_tag(line)) && !is_raw_name(tag_name(&line[1..]))
        || stands_alone(closing_tag(line))
}

/// Whether there is a tag and only spaces and tabs follow it.
fn stands_alone(after_tag: Option<&[u8]>) -> bool
    ensures { result ≡ stands_alone (rest_of after_tag.entry) }
{
    match after_tag {
        None => false,
        Some(rest) => is_blank(rest),
    }
}

/// Whether a block of this kind ends on a line (CommonMark 4.6). The last two kinds end before a
/// blank line.
pub fn html_ends(kind: HtmlKind, line: &[u8]) -> bool
    ensures { result ≡ html_ends (number_of kind) line.now }
{
    match kind {
        HtmlKind::Basic | HtmlKind::Complete => false,
        _ => holds_greater_than(line) && holds_end(kind, line),
    }
}

/// Whether a `>` stands in a line.
fn holds_greater_than(line: &[u8]) -> bool
    ensures { result ≡ list_any is_greater_than line.now }
{
    next_of(line, GREATER_THAN) < line.len()
}

/// Whether the text stands in a line that ends a block of this kind.
fn holds_end(kind: HtmlKind, line: &[u8]) -> bool
    ensures { result ≡ html_ends (number_of kind) line.now }
{
    match kind {
        HtmlKind::Raw => holds_raw_end(line),
        HtmlKind::Comment => holds(b"-->", line),
        HtmlKind::Instruction => holds(b"?>", line),
        HtmlKind::Declaration => holds(b">", line),
        HtmlKind::CharacterData => holds(b"]]>", line),
        HtmlKind::Basic | HtmlKind::Complete => false,
    }
}

/// Whether the closing tag of a raw element stands in a line.
fn holds_raw_end(line: &[u8]) -> bool
    ensures { result ≡ somewhere begins_with_raw_end line.now }
{
    for i in 0..line.len() {
        if begins_with_raw_end(&line[i..]) {
            return true;
        }
    }
    false
}

/// `</`, a raw name and `>`.
fn begins_with_raw_end(bytes: &[u8]) -> bool
    ensures { result ≡ begins_with_raw_end bytes.now }
{
    if !bytes.starts_with(b"</") {
        return false;
    }
    let (name, after) = split_name(&bytes[2..]);
    is_raw_name(name) && after.starts_with(b">")
}

/// Whether a name is `pre`, `script`, `style` or `textarea`, in whatever case.
fn is_raw_name(name: &[u8]) -> bool
    ensures { result ≡ is_raw_name name.now }
{
    is_short_one_of(&HTML_RAW_NAMES, HTML_RAW_SIZE_MAX, name)
}

/// Whether a name is one of those of kind 6, in whatever case.
fn is_block_name(name: &[u8]) -> bool
    ensures { result ≡ is_block_name name.now }
{
    is_one_of(&HTML_BLOCK_NAMES, name)
}
