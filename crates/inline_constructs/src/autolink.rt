//! Autolinks (CommonMark 6.5).
//!
//!     autolink ::= '<' (uri | email) '>'
//!     uri      ::= scheme ':' uri_byte*
//!     scheme   ::= letter scheme_byte{1,31}
//!     email    ::= email_byte+ '@' domain
//!     domain   ::= label ('.' label)*
//!     label    ::= letter_or_digit ((letter_or_digit | '-'){0,61} letter_or_digit)?
ghost use Rattle.std.specs.Prelude.{◌≡◌, IfSome, drop};
ghost use Rattle.std.specs.Option.{option_map};
ghost use Rattle.definition_inline.specs.Autolink.{autolink_at, autolink_after, closed_autolink, uri_end, email_end, domain_end, is_domain, is_domain_label};
ghost use Rattle.definition_text.specs.Content.{content_codes};
ghost use Rattle.inline_leaves.specs.Leaves.{found_leaf, IsPlain, LeavesRest};
ghost use Rattle.inline_constructs.specs.Leaves.{address_leaf, codes_after, IsAddress};

use crate::byte_class::{ByteClass, prefix_size};
use inline_leaves::cut::{cut_after, text_between};
use inline_leaves::{Leaf, LeafPart};
use inline_links::part::from;
use markdown_options::Constructs;
use markdown_options::constants::{AUTOLINK_DOMAIN_SIZE_MAX, AUTOLINK_SCHEME_SIZE_MAX};
use text_bytes::begins_with_letter;

/// A URI or an email address.
#[derive(Clone, Copy)]
struct Address {
    email: bool,
    /// How many bytes it has.
    size: usize,
}

/// An autolink (CommonMark 6.5).
pub(crate) fn autolink_at<'a>(on: &Constructs, content: &'a str) -> Option<Leaf<'a>>
    ensures read { found_leaf content.now result ≡ autolink_at on.now (content_codes content.now) }
    ensures place { LeavesRest content.now result }
{
    let bytes = content.as_bytes();
    if !on.autolink || !bytes.starts_with(b"<") {
        return None;
    }
    let Some(found) = find_address(from(bytes, 1)) else {
        return None;
    };
    let end = 1 + found.size;
    Some(Leaf {
        part: LeafPart::Autolink {
            email: found.email,
            text: text_between(content, 1, end),
        },
        after: cut_after(content, end + 1),
    })
}

/// The URI or the email address that bytes begin with, if a `>` follows it.
fn find_address(bytes: &[u8]) -> Option<Address>
    ensures read { address_leaf bytes.now result ≡ autolink_after (content_codes bytes.now) }
    ensures place { IfSome result (λ found. IsAddress bytes.now found.size) }
{
    match address_of_size(false, uri_size(bytes), bytes) {
        Some(found) => Some(found),
        None => address_of_size(true, email_size(bytes), bytes),
    }
}

/// An address of this size, if there is one and a `>` follows it.
fn address_of_size(email: bool, size: Option<usize>, bytes: &[u8]) -> Option<Address>
    requires { IfSome size (λ size. IsPlain bytes.now size) }
    ensures read { address_leaf bytes.now result ≡ closed_autolink email (content_codes bytes.now) (codes_after bytes.now size) }
    ensures place { IfSome result (λ found. IsAddress bytes.now found.size) }
{
    let Some(size) = size else {
        return None;
    };
    if from(bytes, size).starts_with(b">") {
        Some(Address { email, size })
    } else {
        None
    }
}

/// How many bytes an absolute URI has: a scheme, `:`, and other bytes (CommonMark 6.5).
fn uri_size(bytes: &[u8]) -> Option<usize>
    ensures read { option_map (λ size. drop size bytes.now) result ≡ uri_end bytes.now }
    ensures place { IfSome result (λ size. IsPlain bytes.now size) }
{
    let scheme = prefix_size(ByteClass::Scheme, bytes);
    if scheme < 2 || scheme > AUTOLINK_SCHEME_SIZE_MAX || !begins_with_letter(bytes) {
        return None;
    }
    let rest = from(bytes, scheme);
    if !rest.starts_with(b":") {
        return None;
    }
    Some(scheme + 1 + prefix_size(ByteClass::Uri, from(rest, 1)))
}

/// How many bytes an email address has: one or more, `@`, and a domain (CommonMark 6.5).
fn email_size(bytes: &[u8]) -> Option<usize>
    ensures read { option_map (λ size. drop size bytes.now) result ≡ email_end bytes.now }
    ensures place { IfSome result (λ size. IsPlain bytes.now size) }
{
    let name = prefix_size(ByteClass::Email, bytes);
    let rest = from(bytes, name);
    if name < 1 || !rest.starts_with(b"@") {
        return None;
    }
    let Some(domain) = domain_size(from(rest, 1)) else {
        return None;
    };
    Some(name + 1 + domain)
}

/// How many bytes a domain has.
fn domain_size(bytes: &[u8]) -> Option<usize>
    ensures read { option_map (λ size. drop size bytes.now) result ≡ domain_end bytes.now }
    ensures place { IfSome result (λ size. IsPlain bytes.now size) }
{
    let size = prefix_size(ByteClass::Domain, bytes);
    if is_domain(&bytes[..size]) {
        Some(size)
    } else {
        None
    }
}

/// Labels with dots between (CommonMark 6.5).
fn is_domain(text: &[u8]) -> bool
    ensures { result ≡ is_domain text.now }
{
    text.split(|b| *b == b'.')
        .all(|label| is_domain_label(label))
}

/// A label of a domain: 1 to 63 bytes, no `-` at either end (CommonMark 6.5).
fn is_domain_label(label: &[u8]) -> bool
    ensures { result ≡ is_domain_label label.now }
{
    if label.is_empty() || label.len() > AUTOLINK_DOMAIN_SIZE_MAX {
        return false;
    }
    label[0] != b'-' && label[label.len() - 1] != b'-'
}
