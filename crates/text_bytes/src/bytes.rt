//! Tests of bytes and texts.
ghost use Rattle.std.specs.Prelude.{◌≡◌, length, nat_le, true};
ghost use Rattle.std.specs.List.{list_all, list_any};
ghost use Rattle.definition_text.specs.Bytes.{same_caselessly, holds, without_slash};
ghost use Rattle.definition_text.specs.Columns.{is_white, is_blank};
ghost use Rattle.definition_text.specs.Content.{is_space, may_escape};

/// Returns whether a byte is a space or a tab (CommonMark 2.1).
pub fn is_space_or_tab(byte: u8) -> bool
    ensures { result ≡ is_white byte }
{
    byte == b' ' || byte == b'\t'
}

/// Returns whether a byte is a space, a tab, CR or LF (CommonMark 2.1).
pub fn is_space(byte: u8) -> bool
    ensures { result ≡ is_space byte }
{
    matches!(byte, b' ' | b'\t' | b'\n' | b'\r')
}

/// Whether there are only spaces and tabs.
pub fn is_blank(bytes: &[u8]) -> bool
    ensures { result ≡ is_blank bytes.now }
{
    bytes.iter().all(|b| is_space_or_tab(*b))
}

/// Whether a byte is a backslash that may escape the next one. `escaped` says that it is escaped
/// itself.
pub fn may_escape(escaped: bool, byte: u8) -> bool
    ensures { result ≡ may_escape escaped byte }
{
    byte == b'\\' && !escaped
}

/// Whether two texts are equal, ignoring ASCII case.
fn same_caselessly(one: &[u8], other: &[u8]) -> bool
    ensures { result ≡ same_caselessly one.now other.now }
{
    one.eq_ignore_ascii_case(other)
}

/// Bytes without the slash that they may begin with.
pub fn without_slash(bytes: &[u8]) -> &[u8]
    ensures { result.now ≡ without_slash bytes.now }
{
    if bytes.starts_with(b"/") {
        &bytes[1..]
    } else {
        bytes
    }
}

/// Returns whether bytes contain a text.
pub fn holds(text: &[u8], bytes: &[u8]) -> bool
    ensures { result ≡ holds text.now bytes.now }
{
    for i in 0..bytes.len() {
        if bytes[i..].starts_with(text) {
            return true;
        }
    }
    false
}

/// Returns whether a text is one of these, ignoring ASCII case.
pub fn is_one_of(texts: &[&str], text: &[u8]) -> bool
    ensures { result ≡ list_any (λ n. same_caselessly n.now text.now) texts.now }
{
    texts.iter().any(|n| same_caselessly(n.as_bytes(), text))
}

/// Returns whether a text is one of these, ignoring ASCII case. Each of them has at most `longest`
/// bytes, so a longer text is none.
pub fn is_short_one_of(texts: &[&str], longest: usize, text: &[u8]) -> bool
    requires { list_all (λ n. nat_le (length n.now) longest) texts.now ≡ true }
    ensures { result ≡ list_any (λ n. same_caselessly n.now text.now) texts.now }
{
    text.len() <= longest && is_one_of(texts, text)
}
