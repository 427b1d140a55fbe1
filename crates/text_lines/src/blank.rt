//! Spaces and tabs (CommonMark 2.1).
ghost use Rattle.std.specs.Prelude.{◌≡◌, ◌-◌, drop, take, length};
ghost use Rattle.std.specs.List.{prefix_len, suffix_len};
ghost use Rattle.definition_text.specs.Columns.{is_white, is_blank, whole, trim};

use text_bytes::{is_space_or_tab, white_size};

/// Whether a text holds only spaces and tabs.
pub fn is_blank(text: &str) -> bool
    ensures { result ≡ is_blank (whole text.now) }
{
    text_bytes::is_blank(text.as_bytes())
}

/// A text without the spaces and tabs at both ends.
pub fn trim(text: &str) -> &str
    ensures { result.now ≡ trim text.now }
{
    trim_end(trim_start(text))
}

fn trim_start(text: &str) -> &str
    ensures { result.now ≡ drop (prefix_len is_white text.now) text.now }
{
    &text[white_size(text.as_bytes())..]
}

fn trim_end(text: &str) -> &str
    ensures { result.now ≡ take (length text.now - suffix_len is_white text.now) text.now }
{
    let bytes = text.as_bytes();
    let mut end = bytes.len();
    while end > 0 && is_space_or_tab(bytes[end - 1]) {
        end -= 1;
    }
    &text[..end]
}
