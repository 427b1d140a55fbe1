//! URLs as they are printed in attributes.
//!
//! A URL keeps letters, digits, `! # $ & ' ( ) * + , - . / : ; = ? @ _ ~` and escapes: `%` and two
//! letters or digits. Each other byte becomes `%` and its two upper case hexadecimal digits. Then
//! the URL is printed as text.
ghost use Rattle.std.specs.Prelude.{◌≡◌, ◌++◌, [], ◌∷◌, ◌+◌, ◌-◌, ◌<◌, ◌≤◌, IfNone, IfOk, IfErr, OnOk, MatchOption, drop, length, map, string_bytes, take};
ghost use Rattle.std.specs.Char.{is_ascii_uppercase};
ghost use Rattle.std.specs.List.{list_any, prefix_len};
ghost use Rattle.std.specs.Option.{option_copied};
ghost use Rattle.std.specs.Str.{IsCharBoundary, bytes_eq};
ghost use Rattle.markdown_options.specs.Messages.{IsOutOfMemory};
ghost use Rattle.definition_text.specs.Bytes.{lower};
ghost use Rattle.definition_page.specs.Destinations.{is_relative, is_rooted};
ghost use Rattle.definition_page.specs.Urls.{is_kept, is_url_byte, ends_escape, sanitize, sanitized_with, in_protocol, ends_protocol, protocol, permits};
ghost use Rattle.html_escape.specs.Tools.{is_plain_byte, url_byte};

use markdown_options::Message;
use percent_encoding::percent_encode_byte;
use std::alloc::{AllocError, Allocator};
use text_search::{ByteClass, run_of};

/// The bytes that are printed as they are, whatever follows them. The bits are of the
/// upper halves from 2 to 7.
const PLAIN: ByteClass = ByteClass {
    lower: [
        46, 63, 62, 63, 63, 62, 62, 63, 63, 63, 63, 23, 21, 23, 53, 31,
    ],
    upper: [0, 0, 1, 2, 4, 8, 16, 32, 0, 0, 0, 0, 0, 0, 0, 0],
};

/// Returns a URL as it is printed in an attribute, whatever its protocol. The only error is
/// `out of memory`.
pub fn sanitize<A: Allocator>(alloc: A, value: &str) -> Result<String<A>, Message>
    ensures text { IfOk result (λ text. string_bytes text ≡ sanitize value.now) }
    ensures memory { IfErr result IsOutOfMemory }
{
    let mut out = String::with_capacity(alloc, value.len())?;
    push_sanitized(&mut out, value)?;
    Ok(out)
}

/// Returns a URL as it is printed in an attribute, if it has no protocol or one of these. Otherwise
/// it returns the empty text. The protocols are in lower case; a URL's may be in any case. The only
/// error is `out of memory`.
pub fn sanitize_with_protocols<A: Allocator>(
    alloc: A,
    value: &str,
    protocols: &[&str],
) -> Result<String<A>, Message>
    ensures text { IfOk result (λ text. string_bytes text ≡ sanitized_with (map (λ p. p.now) protocols.now) value.now) }
    ensures memory { IfErr result IsOutOfMemory }
{
    let mut out = String::with_capacity(alloc, value.len())?;
    push_sanitized_with_protocols(&mut out, value, protocols)?;
    Ok(out)
}

/// Appends a URL as it is printed in an attribute, if it has no protocol or one of these. Otherwise
/// it appends nothing. The protocols are in lower case.
pub fn push_sanitized_with_protocols<A: Allocator>(
    out: &mut String<A>,
    url: &str,
    protocols: &[&str],
) -> Result<(), AllocError>
    ensures { OnOk result (string_bytes out.new ≡ string_bytes out.old ++ sanitized_with (map (λ p. p.now) protocols.now) url.now) }
{
    let start = out.len();
    push_sanitized(out, url)?;
    if !is_permitted(protocols, &out.as_bytes()[start..]) {
        out.truncate(start);
    }
    Ok(())
}

/// Returns whether a URL has no protocol, or one of these. The protocols are in lower case.
pub fn is_permitted(protocols: &[&str], url: &[u8]) -> bool
    ensures { result ≡ permits (map (λ p. p.now) protocols.now) url.now }
{
    match protocol(url) {
        None => true,
        Some(name) => is_one_of(protocols, name),
    }
}

/// Returns whether a URL is a relative path: not empty, without a protocol, and not begun by `/`,
/// `#` or `?`.
pub fn is_relative(url: &[u8]) -> bool
    ensures { result ≡ is_relative url.now }
{
    match url {
        [] => false,
        [first, ..] => !is_rooted(*first) && protocol(url).is_none(),
    }
}

fn is_rooted(byte: u8) -> bool
    ensures { result ≡ is_rooted byte }
{
    matches!(byte, b'/' | b'#' | b'?')
}

/// The bytes before the first `:` of a URL, if no `?`, `#` or `/` is among them.
fn protocol(url: &[u8]) -> Option<&[u8]>
    ensures { option_copied result ≡ protocol url.now }
{
    let end = protocol_len(url);
    if end < url.len() && url[end] == b':' {
        Some(&url[..end])
    } else {
        None
    }
}

/// How many bytes are before the first `:`, `?`, `#` or `/`.
fn protocol_len(url: &[u8]) -> usize
    ensures { result ≡ prefix_len in_protocol url.now }
{
    url.iter().take_while(|b| !ends_protocol(**b)).count()
}

fn ends_protocol(byte: u8) -> bool
    ensures { result ≡ ends_protocol byte }
{
    matches!(byte, b':' | b'?' | b'#' | b'/')
}

/// Whether a name, in lower case, is one of these.
fn is_one_of(protocols: &[&str], name: &[u8]) -> bool
    ensures { result ≡ list_any (λ p. bytes_eq p.now (lower name.now)) protocols.now }
{
    protocols.iter().any(|p| is_lower(p.as_bytes(), name))
}

/// Whether a name, in lower case, is this protocol. The protocol then has no letter in upper case.
fn is_lower(protocol: &[u8], name: &[u8]) -> bool
    ensures { result ≡ bytes_eq protocol.now (lower name.now) }
{
    protocol.eq_ignore_ascii_case(name) && !has_uppercase(protocol)
}

fn has_uppercase(bytes: &[u8]) -> bool
    ensures { result ≡ list_any is_ascii_uppercase bytes.now }
{
    bytes.iter().any(|b| b.is_ascii_uppercase())
}

/// Appends a URL as it is printed in an attribute, whatever its protocol.
pub fn push_sanitized<A: Allocator>(out: &mut String<A>, url: &str) -> Result<(), AllocError>
    ensures { OnOk result (string_bytes out.new ≡ string_bytes out.old ++ sanitize url.now) }
{
    let bytes = url.as_bytes();
    let mut start = 0;
    let mut at = after_plain(bytes, 0);
    while at < bytes.len() {
        if let Some(printed) = replacement(bytes[at], &bytes[at + 1..]) {
            push_slice(out, url, start, at)?;
            out.push_str(printed)?;
            start = at + 1;
        }
        at = after_plain(bytes, at + 1);
    }
    push_slice(out, url, start, bytes.len())
}

/// The place after the plain bytes from a place on.
fn after_plain(bytes: &[u8], at: usize) -> usize
    requires { at ≤ length bytes.now }
    ensures end { result ≡ at + prefix_len is_plain_byte (drop at bytes.now) }
    ensures within { result ≤ length bytes.now }
{
    at + plain_size(&bytes[at..])
}

/// How many plain bytes come first.
fn plain_size(bytes: &[u8]) -> usize
    ensures size { result ≡ prefix_len is_plain_byte bytes.now }
    ensures within { result ≤ length bytes.now }
{
    run_of(bytes, PLAIN)
}

/// Appends a part of a text, which begins and ends between characters unless it is empty.
fn push_slice<A: Allocator>(
    out: &mut String<A>,
    text: &str,
    start: usize,
    end: usize,
) -> Result<(), AllocError>
    requires order { start ≤ end }
    requires start { start < end → IsCharBoundary text.now start }
    requires end { start < end → IsCharBoundary text.now end }
    ensures { OnOk result (string_bytes out.new ≡ string_bytes out.old ++ take (end - start) (drop start text.now)) }
{
    if start == end {
        return Ok(());
    }
    out.push_str(&text[start..end])
}

/// The text that replaces a byte of a URL before others, if it is replaced.
fn replacement(byte: u8, after: &[u8]) -> Option<&'static str>
    ensures printed { MatchOption result (url_byte byte after.now ≡ byte ∷ []) (λ printed. url_byte byte after.now ≡ printed.now) }
    ensures ascii { IfNone result (byte < 128) }
{
    if byte == b'&' {
        Some("&amp;")
    } else if is_kept(byte, after) {
        None
    } else {
        Some(percent_encode_byte(byte))
    }
}

/// Whether a byte before others is kept.
fn is_kept(byte: u8, after: &[u8]) -> bool
    ensures { result ≡ is_kept byte after.now }
{
    is_url_byte(byte) || (byte == b'%' && ends_escape(after))
}

fn is_url_byte(byte: u8) -> bool
    ensures { result ≡ is_url_byte byte }
{
    byte.is_ascii_alphanumeric()
        || matches!(
            byte,
            b'!' | b'#'..=b'$' | b'&'..=b'/' | b':'..=b';' | b'=' | b'?'..=b'@' | b'_' | b'~'
        )
}

/// Whether the `%` before these bytes begins an escape.
fn ends_escape(after: &[u8]) -> bool
    ensures { result ≡ ends_escape after.now }
{
    match after {
        [first, second, ..] => first.is_ascii_alphanumeric() && second.is_ascii_alphanumeric(),
        _ => false,
    }
}
