//! The tags of a safe page.
ghost use Rattle.std.specs.Prelude.{◌≡◌, [], map};
ghost use Rattle.std.specs.List.{list_any};
ghost use Rattle.std.specs.Str.{bytes_eq};
ghost use Rattle.std.specs.Option.{is_some, option_map, option_copied};
ghost use Rattle.html_safe_page.specs.SafePage.{attribute_start, is_class, is_value, void_end};
ghost use Rattle.html_safe_page.specs.Reader.{before_quote, strip, read_value, read_attributes, read_row, read_tag};
ghost use Rattle.html_safe_page.specs.Machine.{after_attribute, is_frequent};
ghost use Rattle.html_safe_page.specs.Table.{start_rows, start_rows_of, void_rows, void_rows_of};
ghost use Rattle.html_safe_page.specs.Views.{row_of, names_of, quoted_of};

use crate::letters::{is_text, strip};
use crate::table::TagTable;
use html_escape::is_permitted;
use markdown_options::constants::{SAFE_PROTOCOL_HREF, SAFE_PROTOCOL_SRC};
use text_search::{BytePair, next_of};

/// The name of a tag, and the names of its attributes in order.
struct Row(&'static str, &'static [&'static str]);

/// Tags that have an end tag.
const START_ROWS: [Row; 35] = [
    Row("blockquote", &[]),
    Row("pre", &[]),
    Row("p", &[]),
    Row("h1", &[]),
    Row("h2", &[]),
    Row("h3", &[]),
    Row("h4", &[]),
    Row("h5", &[]),
    Row("h6", &[]),
    Row("ul", &[]),
    Row("em", &[]),
    Row("strong", &[]),
    Row("del", &[]),
    Row("mark", &[]),
    Row("table", &[]),
    Row("thead", &[]),
    Row("tbody", &[]),
    Row("tr", &[]),
    Row("sup", &[]),
    Row("code", &[]),
    Row("ol", &[]),
    Row("li", &[]),
    Row("th", &[]),
    Row("td", &[]),
    Row("code", &["class"]),
    Row("ol", &["start"]),
    Row("li", &["id"]),
    Row("h2", &["id", "class"]),
    Row("th", &["align"]),
    Row("td", &["align"]),
    Row("section", &["data-footnotes", "class"]),
    Row("a", &["href"]),
    Row("a", &["href", "title"]),
    Row(
        "a",
        &["href", "id", "data-footnote-ref", "aria-describedby"],
    ),
    Row(
        "a",
        &["href", "data-footnote-backref", "aria-label", "class"],
    ),
];

/// Void tags, which have no end tag.
const VOID_ROWS: [Row; 8] = [
    Row("hr", &[]),
    Row("br", &[]),
    Row("img", &["src", "alt"]),
    Row("img", &["src", "alt", "title"]),
    Row("input", &["type"]),
    Row("input", &["type", "disabled"]),
    Row("input", &["type", "checked"]),
    Row("input", &["type", "disabled", "checked"]),
];

/// What the extended table has besides.
const MORE_START_ROWS: [Row; 8] = [
    Row("h1", &["id"]),
    Row("h2", &["id"]),
    Row("h3", &["id"]),
    Row("h4", &["id"]),
    Row("h5", &["id"]),
    Row("h6", &["id"]),
    Row("a", &["href", "rel"]),
    Row("a", &["href", "title", "rel"]),
];

/// What it has besides of void tags.
const MORE_VOID_ROWS: [Row; 2] = [
    Row("img", &["src", "alt", "loading"]),
    Row("img", &["src", "alt", "title", "loading"]),
];

/// The values of `align`.
const ALIGNMENTS: [&str; 3] = ["left", "right", "center"];

/// Attributes without a text: they are there or not.
const EMPTY_NAMES: [&str; 5] = [
    "disabled",
    "checked",
    "data-footnotes",
    "data-footnote-ref",
    "data-footnote-backref",
];

/// Whether a tag of this name may have this class.
#[tactic(auto, using(crate::proofs::Values::stripped))]
fn is_class(tag: &str, class: &[u8]) -> bool
    ensures { result ≡ is_class tag.now class.now }
{
    match tag {
        "code" => strip(b"language-", class).is_some(),
        "h2" => "sr-only".as_bytes() == class,
        "section" => "footnotes".as_bytes() == class,
        _ => "data-footnote-backref".as_bytes() == class,
    }
}

/// Whether a tag of this name may have this value of an attribute.
fn is_allowed(tag: &str, name: &str, value: &[u8]) -> bool
    ensures { result ≡ is_value tag.now name.now value.now }
{
    match name {
        "href" => is_permitted(&SAFE_PROTOCOL_HREF, value),
        "src" => is_permitted(&SAFE_PROTOCOL_SRC, value),
        "class" => is_class(tag, value),
        "type" => "checkbox".as_bytes() == value,
        "align" => is_one_of(&ALIGNMENTS, value),
        "loading" => "lazy".as_bytes() == value,
        _ => value.is_empty() || !is_one_of(&EMPTY_NAMES, name.as_bytes()),
    }
}

/// Whether bytes are a text that an attribute of a tag may have as its value.
#[tactic(auto, using(crate::proofs::Values::value_more))]
fn is_value(tag: &str, name: &str, value: &[u8]) -> bool
    ensures { result ≡ is_some (read_value tag.now name.now value.now) }
{
    is_text(value) && is_allowed(tag, name, value)
}

/// `"`.
const QUOTE: BytePair = BytePair {
    first: b'"',
    second: b'"',
};

/// The bytes before the first `"`, and those after it.
fn split_quoted(bytes: &[u8]) -> Option<(&[u8], &[u8])>
    ensures { quoted_of result ≡ before_quote bytes.now }
{
    let (inside, rest) = bytes.split_at(next_of(bytes, QUOTE));
    let Some((quote, after)) = rest.split_first() else {
        return None;
    };
    if *quote != b'"' {
        return None;
    }
    Some((inside, after))
}

/// The bytes after the start of an attribute of this name, if they begin with it.
fn after_start<'a>(name: &str, bytes: &'a [u8]) -> Option<&'a [u8]>
    ensures { option_copied result ≡ strip (attribute_start name.now) bytes.now }
{
    let spaced = strip(b" ", bytes)?;
    let named = strip(name.as_bytes(), spaced)?;
    strip(b"=\"", named)
}

/// The bytes after an attribute of this name in a tag, if they begin with one.
fn after_attribute<'a>(tag: &str, name: &str, bytes: &'a [u8]) -> Option<&'a [u8]>
    ensures { option_copied result ≡ after_attribute tag.now name.now bytes.now }
{
    let start = after_start(name, bytes)?;
    let (value, after) = split_quoted(start)?;
    if is_value(tag, name, value) {
        Some(after)
    } else {
        None
    }
}

/// Whether bytes in a tag are attributes of these names, followed by this ending.
fn has_attributes(tag: &str, names: &[&str], ending: &[u8], bytes: &[u8]) -> bool
    ensures { result ≡ is_some (read_attributes tag.now (names_of names.now) ending.now bytes.now) }
{
    let mut rest = bytes;
    for name in names {
        match after_attribute(tag, name, rest) {
            Some(after) => rest = after,
            None => return false,
        }
    }
    rest == ending
}

/// Whether a tag is the one of a row, with this ending.
fn fits(row: &Row, ending: &[u8], tag: &[u8]) -> bool
    ensures { result ≡ is_some (read_row ending.now tag.now (row_of row.now)) }
{
    match strip(row.0.as_bytes(), tag) {
        Some(rest) => has_attributes(row.0, row.1, ending, rest),
        None => false,
    }
}

/// Returns the name of a tag, if it is the one of a row, with this ending.
fn tag_name<'a>(rows: &'a [Row], ending: &[u8], tag: &[u8]) -> Option<&'a [u8]>
    ensures { option_copied result ≡ option_map (λ t. t.name) (read_tag (map row_of rows.now) ending.now tag.now) }
{
    for row in rows {
        if fits(row, ending, tag) {
            return Some(row.0.as_bytes());
        }
    }
    None
}

/// Where the rows of `a` start.
const A_ROWS: usize = 31;

/// Names of frequent start tags without attributes.
const FREQUENT: [&str; 14] = [
    "p", "li", "code", "em", "strong", "ul", "td", "tr", "pre", "h2", "h3", "h1", "ol", "h4",
];

/// Returns whether a tag is a frequent start tag without attributes, so that it is its own name.
/// That takes half the time of a walk over all rows.
pub fn is_frequent(tag: &[u8]) -> bool
    ensures { result ≡ is_frequent tag.now }
{
    is_one_of(&FREQUENT, tag)
}

fn is_one_of(names: &[&str], tag: &[u8]) -> bool
    ensures { result ≡ list_any (λ n. bytes_eq n.now tag.now) names.now }
{
    for name in names {
        if name.as_bytes() == tag {
            return true;
        }
    }
    false
}

/// The name of a start tag, if it is one of the basic table.
fn basic_name(tag: &[u8]) -> Option<&'static [u8]>
    ensures { option_copied result ≡ option_map (λ t. t.name) (read_tag start_rows [] tag.now) }
{
    if tag.starts_with(b"a") {
        return tag_name(&START_ROWS[A_ROWS..], b"", tag);
    }
    tag_name(&START_ROWS, b"", tag)
}

/// Returns the name of a start tag, if it is one of the table.
pub fn start_name(table: TagTable, tag: &[u8]) -> Option<&'static [u8]>
    ensures { option_copied result ≡ option_map (λ t. t.name) (read_tag (start_rows_of table) [] tag.now) }
{
    let basic = basic_name(tag);
    match table {
        TagTable::Basic => basic,
        TagTable::Extended => {
            if basic.is_some() {
                basic
            } else {
                tag_name(&MORE_START_ROWS, b"", tag)
            }
        }
    }
}

/// Whether a tag is a void tag of the basic table.
fn is_basic_void(tag: &[u8]) -> bool
    ensures { result ≡ is_some (read_tag void_rows void_end tag.now) }
{
    tag_name(&VOID_ROWS, b" /", tag).is_some()
}

/// Returns whether a tag is a void tag of the table.
pub fn is_void(table: TagTable, tag: &[u8]) -> bool
    ensures { result ≡ is_some (read_tag (void_rows_of table) void_end tag.now) }
{
    let basic = is_basic_void(tag);
    match table {
        TagTable::Basic => basic,
        TagTable::Extended => basic || tag_name(&MORE_VOID_ROWS, b" /", tag).is_some(),
    }
}
