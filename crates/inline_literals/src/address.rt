//! Email addresses in a run of text (GFM 6.9).
//!
//!     address   ::= protocol? user '@' host
//!     protocol  ::= ('mailto:' | 'xmpp:'), not after a letter or digit
//!     user      ::= (letter | digit | '+' | '-' | '.' | '_')+, not after '/'
//!     host      ::= host_byte+, with a dot, and a letter at its end
//!     host_byte ::= letter | digit | '-' | '_' | '.' before a letter or digit | '/' after 'xmpp:'
ghost use Rattle.std.specs.Prelude.{◌≡◌, ◌^◌, ◌+◌, ◌-◌, ◌<◌, ◌≤◌, true, drop, length, map, slice_index, IfSome, MatchOption};
ghost use Rattle.std.specs.List.{suffix_len};
ghost use Rattle.std.specs.Option.{option_map};
ghost use Rattle.definition_inline.specs.Inline.{Data};
ghost use Rattle.definition_inline.specs.GfmAutolinkLiteral.{address_at, address_of, ends_with_letter_or_digit};
ghost use Rattle.definition_inline.specs.GfmAutolinkLiteral.{ends_with_protocol, host_size, is_host, is_host_code};
ghost use Rattle.definition_inline.specs.GfmAutolinkLiteral.{begins_with_letter_or_digit, is_user_byte, protocol_size, user_size, with_addresses};
ghost use Rattle.inline_literals.specs.Addresses.{address_view, found_parts, IsAddress, IsFound};

use inline_leaves::LiteralKind;
use inline_links::part::from;

/// An email address in a text.
#[derive(Clone, Copy, Debug, PartialEq, Eq)]
pub struct FoundAddress {
    /// What it leads to: its text where it begins with a protocol, and otherwise `mailto:` and that.
    pub kind: LiteralKind,
    /// The byte offset at which it begins.
    pub start: usize,
    /// The byte offset at which it ends.
    pub end: usize,
}

/// An address around an `@`.
#[derive(Clone, Copy)]
struct Address {
    kind: LiteralKind,
    /// How many bytes it has before the `@`.
    before: usize,
    /// How many bytes it has after the `@`.
    after: usize,
}

/// The first email address in a run of text, if there is one (GFM 6.9).
pub fn first_address(text: &[u8]) -> Option<FoundAddress>
    ensures parts { MatchOption result (with_addresses text.now ≡ map Data text.now) (λ found. with_addresses text.now ≡ found_parts text.now found) }
    ensures place { IfSome result (IsFound text.now) }
{
    for (at, b) in text.iter().enumerate() {
        if *b == b'@' {
            if let Some(found) = address_at(&text[..at], from(text, at + 1)) {
                return Some(FoundAddress {
                    kind: found.kind,
                    start: at - found.before,
                    end: at + 1 + found.after,
                });
            }
        }
    }
    None
}

/// The email address around an `@` between these texts (GFM 6.9).
fn address_at(before: &[u8], after: &[u8]) -> Option<Address>
    ensures read { option_map address_view result ≡ address_at before.now after.now }
    ensures place { IfSome result (λ found. IsAddress before.now after.now found.before found.after) }
{
    let user = user_size(before);
    if user < 1 {
        return None;
    }
    let protocol = protocol_size(&before[..before.len() - user]);
    let host = host_size(protocol == 5, after);
    if !is_host(&after[..host]) {
        return None;
    }
    Some(address_of(user, protocol, host))
}

/// An address whose user, protocol and host have so many bytes.
fn address_of(user: usize, protocol: usize, host: usize) -> Address
    requires { user + protocol < 2 ^ 64 }
    ensures { address_view result ≡ address_of user protocol host }
{
    let kind = if protocol == 0 {
        LiteralKind::Email
    } else {
        LiteralKind::Protocol
    };
    Address {
        kind,
        before: user + protocol,
        after: host,
    }
}

/// A byte before an `@` (GFM 6.9).
fn is_user_byte(byte: u8) -> bool
    ensures { result ≡ is_user_byte byte }
{
    byte.is_ascii_alphanumeric() || b"+-._".contains(&byte)
}

/// How many bytes right before an `@` belong to an address (GFM 6.9).
fn user_size(before: &[u8]) -> usize
    ensures size { result ≡ user_size before.now }
    ensures within { result ≤ length before.now }
    ensures first { 0 < result → slice_index before.now (length before.now - result) < 128 }
{
    let size = user_bytes(before);
    if before[..before.len() - size].ends_with(b"/") {
        0
    } else {
        size
    }
}

/// How many bytes that may stand before an `@` come last.
fn user_bytes(before: &[u8]) -> usize
    ensures size { result ≡ suffix_len is_user_byte before.now }
    ensures within { result ≤ length before.now }
    ensures first { 0 < result → slice_index before.now (length before.now - result) < 128 }
{
    let mut start = before.len();
    while start > 0 && is_user_byte(before[start - 1]) {
        start -= 1;
    }
    before.len() - start
}

/// How many bytes the protocol has that a text ends with, if it does (GFM 6.9).
fn protocol_size(text: &[u8]) -> usize
    ensures size { result ≡ protocol_size text.now }
    ensures within { result ≤ length text.now }
    ensures first { 0 < result → slice_index text.now (length text.now - result) < 128 }
{
    if ends_with_protocol(b"mailto:", text) {
        7
    } else if ends_with_protocol(b"xmpp:", text) {
        5
    } else {
        0
    }
}

/// Whether a text ends with a protocol, and no letter or digit stands before that (GFM 6.9).
fn ends_with_protocol(protocol: &[u8], text: &[u8]) -> bool
    ensures value { result ≡ ends_with_protocol protocol.now text.now }
    ensures within { result ≡ true → length protocol.now ≤ length text.now }
    ensures same { result ≡ true → drop (length text.now - length protocol.now) text.now ≡ protocol.now }
{
    text.ends_with(protocol) && !ends_with_letter_or_digit(&text[..text.len() - protocol.len()])
}

/// Whether the last byte of a text is a letter or a digit.
fn ends_with_letter_or_digit(text: &[u8]) -> bool
    ensures { result ≡ ends_with_letter_or_digit text.now }
{
    !text.is_empty() && text[text.len() - 1].is_ascii_alphanumeric()
}

/// Whether the first byte of a text is a letter or a digit.
fn begins_with_letter_or_digit(text: &[u8]) -> bool
    ensures { result ≡ begins_with_letter_or_digit text.now }
{
    !text.is_empty() && text[0].is_ascii_alphanumeric()
}

/// Whether a byte after an `@` belongs to the address, before these (GFM 6.9).
fn is_host_byte(is_xmpp: bool, byte: u8, after: &[u8]) -> bool
    ensures { result ≡ is_host_code is_xmpp byte after.now }
{
    byte.is_ascii_alphanumeric()
        || b"-_".contains(&byte)
        || (byte == b'.' && begins_with_letter_or_digit(after))
        || (is_xmpp && byte == b'/')
}

/// How many bytes after an `@` belong to the address (GFM 6.9).
fn host_size(is_xmpp: bool, text: &[u8]) -> usize
    ensures size { result ≡ host_size is_xmpp text.now }
    ensures within { result ≤ length text.now }
{
    for (i, b) in text.iter().enumerate() {
        if !is_host_byte(is_xmpp, *b, &text[i + 1..]) {
            return i;
        }
    }
    text.len()
}

/// Whether there is a dot, and a letter at the end (GFM 6.9).
fn is_host(text: &[u8]) -> bool
    ensures value { result ≡ is_host text.now }
    ensures last { result ≡ true → (0 < length text.now) × (slice_index text.now (length text.now - 1) < 128) }
{
    text.contains(&b'.') && text[text.len() - 1].is_ascii_alphabetic()
}
