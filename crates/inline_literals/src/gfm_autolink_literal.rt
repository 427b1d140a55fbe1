//! Links that `www.` or a protocol begins (GFM 6.9).
//!
//!     literal ::= start name
//!     start   ::= 'www.' after nothing, white space or one of '(*_[]~'
//!               | ('http://' | 'https://') after anything but a letter
ghost use Rattle.std.specs.Prelude.{◌≡◌, ◌<◌, ◌≤◌, ◌+◌, Some, IfErr, IfOk, IfSome, codes, drop, length, slice_index};
ghost use Rattle.std.specs.Option.{option_map};
ghost use Rattle.definition_text.specs.Content.{content_codes};
ghost use Rattle.definition_text.specs.InlineCode.{is_continuation};
ghost use Rattle.definition_inline.specs.GfmAutolinkLiteral.{begins_caselessly, literal_at};
ghost use Rattle.definition_inline.specs.GfmAutolinkLiteral.{literal_name, literal_start_at, may_precede_protocol, may_precede_www};
ghost use Rattle.inline_content.specs.View.{view_at};
ghost use Rattle.inline_leaves.specs.Leaves.{found_leaf, size_before, LeavesRest};
ghost use Rattle.inline_links.specs.Codes.{IsRest};
ghost use Rattle.inline_literals.specs.Literals.{begins_domain, begins_name, begins_other, domain_size};
ghost use Rattle.inline_literals.specs.Literals.{may_begin, size_after, start_view, AreInVain, IsNameEnd, KnowsNames, StartsLiteral};

use crate::name::{goes_beyond, has_no_parenthesis, last_low_line, name_size};
use crate::names_in_vain::NamesInVain;
use inline_content::{Content, first_kind};
use inline_leaves::cut::{cut_after, rest_from, text_before};
use inline_leaves::{Leaf, LeafPart, LiteralKind};
use markdown_options::{Constructs, Kind, Tables};

/// What begins a literal.
#[derive(Clone, Copy)]
struct LiteralStart {
    kind: LiteralKind,
    /// How many bytes it has.
    size: usize,
}

/// A literal that is no email address, at a rest of a content (GFM 6.9), where these are its names
/// that are known to begin in vain.
pub fn literal_at<'a, T: Tables>(
    on: &Constructs,
    tables: &T,
    content: Content<'_>,
    known: &mut NamesInVain,
    rest: &'a str,
) -> Option<Leaf<'a>>
    requires rest { IsRest content.text.now rest.now }
    requires codes { content_codes rest.now ≡ drop (size_before content.text.now rest.now) (content_codes content.text.now) }
    requires known { KnowsNames (T.punctuation_of tables.now) content.text.now known.old }
    ensures known { KnowsNames (T.punctuation_of tables.now) content.entry.text.now known.new }
    ensures read { found_leaf rest.now result ≡ literal_at on.now (view_at (T.punctuation_of tables.now) content.entry rest.now) }
    ensures place { LeavesRest rest.now result }
{
    if !on.gfm_autolink_literal || !may_begin(rest.as_bytes()) {
        return None;
    }
    let Some(start) = start_at(content.previous(rest), rest.as_bytes()) else {
        return None;
    };
    let after = cut_after(rest, start.size);
    let Some(size) = size_at(tables, content, known, after) else {
        return None;
    };
    let end = start.size + size;
    Some(Leaf {
        part: LeafPart::Literal {
            kind: start.kind,
            text: text_before(rest, end),
        },
        after: rest_from(rest, end),
    })
}

/// Whether `ww` or `ht` comes first, in either case: only then a literal may begin (GFM 6.9).
fn may_begin(bytes: &[u8]) -> bool
    ensures { result ≡ may_begin bytes.now }
{
    begins_caselessly(b"ww", bytes) || begins_caselessly(b"ht", bytes)
}

/// How many bytes the name has that begins at a rest of a content, where it may stand there (GFM
/// 6.9). One that is known to begin in vain isn't read.
fn size_at<T: Tables>(
    tables: &T,
    content: Content<'_>,
    known: &mut NamesInVain,
    after: &str,
) -> Option<usize>
    requires rest { IsRest content.text.now after.now }
    requires known { KnowsNames (T.punctuation_of tables.now) content.text.now known.old }
    ensures known { KnowsNames (T.punctuation_of tables.now) content.entry.text.now known.new }
    ensures read { result ≡ size_after (T.punctuation_of tables.now) after.now }
    ensures place { IfSome result (IsNameEnd after.now) }
{
    if known.has(after) {
        return None;
    }
    match size_after(tables, after) {
        Ok(size) => Some(size),
        Err(more) => {
            *known = NamesInVain::from_rest(after, more);
            None
        }
    }
}

/// How many bytes the name after the start of a literal has, where it may stand there (GFM 6.9), or
/// else at how many places after its first one no other name may stand.
fn size_after<T: Tables>(tables: &T, after: &str) -> Result<usize, usize>
    ensures read { IfOk result (λ size. size_after (T.punctuation_of tables.now) after.now ≡ Some size) }
    ensures place { IfOk result (IsNameEnd after.now) }
    ensures within { IfErr result (λ more. more ≤ length after.now) }
    ensures vain { IfErr result (AreInVain (T.punctuation_of tables.now) after.now) }
{
    if !begins_name(tables, after) {
        return Err(0);
    }
    let bytes = after.as_bytes();
    let domain = domain_in_name(tables, after);
    match last_low_line(&bytes[..domain]) {
        Some(at) if has_no_parenthesis(&bytes[..at]) => Err(at),
        Some(_) => Err(0),
        None => Ok(name_size(bytes)),
    }
}

/// How many bytes the domain has in the name after the start of a literal (GFM 6.9). What comes
/// after it is read only as far as is needed to tell that the name doesn't end before.
fn domain_in_name<T: Tables>(tables: &T, after: &str) -> usize
    ensures size { result ≡ domain_size (T.punctuation_of tables.now) (length (literal_name (content_codes after.now))) after.now }
    ensures within { result ≤ length after.now }
{
    let bytes = after.as_bytes();
    let domain = domain_size(tables, after, bytes.len());
    if goes_beyond(bytes, domain) {
        return domain;
    }
    let size = name_size(bytes);
    if size < domain { size } else { domain }
}

/// Whether the first character after the start of a literal may stand there: it is no whitespace,
/// punctuation or control character (GFM 6.9).
fn begins_name<T: Tables>(tables: &T, after: &str) -> bool
    ensures { result ≡ begins_name (T.punctuation_of tables.now) after.now }
{
    if after.is_empty() {
        return false;
    }
    let first = after.as_bytes()[0];
    begins_other(tables, after) && !(first < 32 || first == 127)
}

/// Whether a character comes first that is neither whitespace nor punctuation.
fn begins_other<T: Tables>(tables: &T, text: &str) -> bool
    ensures { result ≡ begins_other (T.punctuation_of tables.now) text.now }
{
    match first_kind(tables, Kind::Whitespace, text) {
        Kind::Other => true,
        Kind::Whitespace | Kind::Punctuation => false,
    }
}

/// How many bytes the domain has among the first ones of a text, so many (GFM 6.9).
fn domain_size<T: Tables>(tables: &T, text: &str, size: usize) -> usize
    requires { size ≤ length text.now }
    ensures size { result ≡ domain_size (T.punctuation_of tables.now) size text.now }
    ensures within { result ≤ size }
{
    for i in 0..size {
        if !begins_domain(tables, text, i) {
            return i;
        }
    }
    size
}

/// Whether the byte at a place belongs to a domain, with those after it.
fn begins_domain<T: Tables>(tables: &T, text: &str, at: usize) -> bool
    requires { at < length text.now }
    ensures { result ≡ begins_domain (T.punctuation_of tables.now) (slice_index text.now at) (drop (at + 1) text.now) }
{
    let byte = text.as_bytes()[at];
    if is_continuation(byte) || b"-._".contains(&byte) {
        return true;
    }
    begins_other(tables, &text[at..])
}

/// A byte of a character after its first.
fn is_continuation(byte: u8) -> bool
    ensures { result ≡ is_continuation byte }
{
    128 <= byte && byte < 192
}

/// What a literal begins with, after this byte of its line (GFM 6.9).
fn start_at(previous: Option<u8>, bytes: &[u8]) -> Option<LiteralStart>
    ensures read { option_map start_view result ≡ literal_start_at previous bytes.now }
    ensures front { IfSome result (λ start. StartsLiteral bytes.now start.size) }
{
    if may_precede_www(previous) && begins_caselessly(b"www.", bytes) {
        return Some(LiteralStart {
            kind: LiteralKind::Www,
            size: 4,
        });
    }
    if !may_precede_protocol(previous) {
        return None;
    }
    if begins_caselessly(b"http://", bytes) {
        return Some(LiteralStart {
            kind: LiteralKind::Protocol,
            size: 7,
        });
    }
    if begins_caselessly(b"https://", bytes) {
        return Some(LiteralStart {
            kind: LiteralKind::Protocol,
            size: 8,
        });
    }
    None
}

/// Whether `www.` may begin a literal after this byte of its line (GFM 6.9).
fn may_precede_www(previous: Option<u8>) -> bool
    ensures { result ≡ may_precede_www previous }
{
    match previous {
        None => true,
        Some(byte) => byte == b' ' || byte == b'\t' || b"(*_[]~".contains(&byte),
    }
}

/// Whether a protocol may begin a literal after this byte of its line (GFM 6.9).
fn may_precede_protocol(previous: Option<u8>) -> bool
    ensures { result ≡ may_precede_protocol previous }
{
    match previous {
        None => true,
        Some(byte) => !byte.is_ascii_alphabetic(),
    }
}

/// Whether bytes begin with a text, in either case.
fn begins_caselessly(text: &[u8], bytes: &[u8]) -> bool
    ensures value { result ≡ begins_caselessly text.now bytes.now }
{
    bytes.len() >= text.len() && bytes[..text.len()].eq_ignore_ascii_case(text)
}
