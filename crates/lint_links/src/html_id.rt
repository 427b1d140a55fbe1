//! The attributes that make a tag of raw HTML the end of links.
use lint_document::Span;
use lint_document::document::is_white;

/// The value of the attribute `id` or `name` that starts at an index of a line of raw HTML, if one does.
pub(crate) fn id_at(html: &[u8], index: usize) -> Option<Span> {
    let is_apart = match index.checked_sub(1) {
        Some(before) => is_white(*html.get(before)?),
        None => true,
    };
    if !is_apart {
        return None;
    }
    let after_name = after_name(html.get(index..)?)?;
    let after_sign = after_white(after_name).strip_prefix(b"=")?;
    value_of(html.len(), after_white(after_sign))
}

/// What follows the name of the attribute.
fn after_name(html: &[u8]) -> Option<&[u8]> {
    let size = if starts_with_word(html, b"id") {
        2
    } else if starts_with_word(html, b"name") {
        4
    } else {
        return None;
    };
    html.get(size..)
}

/// Whether bytes start with a word, whose letters may be capitals.
fn starts_with_word(bytes: &[u8], word: &[u8]) -> bool {
    match bytes.get(..word.len()) {
        Some(start) => start.eq_ignore_ascii_case(word),
        None => false,
    }
}

fn after_white(html: &[u8]) -> &[u8] {
    let size = html.iter().take_while(|byte| is_white(**byte)).count();
    match html.get(size..) {
        Some(rest) => rest,
        None => &[],
    }
}

/// Where the value is that begins what is left of a line of this size.
fn value_of(size: usize, html: &[u8]) -> Option<Span> {
    let quote = *html.first()?;
    let is_quoted = matches!(quote, b'"' | b'\'');
    let value = if is_quoted { html.get(1..)? } else { html };
    let length = value
        .iter()
        .take_while(|byte| !ends_value(is_quoted, quote, **byte))
        .count();
    let start = size.saturating_sub(value.len());
    Some(Span {
        start,
        end: start.saturating_add(length),
    })
}

/// Whether a byte ends a value, which is quoted or not.
fn ends_value(is_quoted: bool, quote: u8, byte: u8) -> bool {
    if is_quoted {
        byte == quote
    } else {
        is_white(byte) || matches!(byte, b'>' | b'/')
    }
}
