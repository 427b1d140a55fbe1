//! A page with raw HTML as text in elements without a name, to one in which listed tags are tags.
ghost use Rattle.std.specs.Prelude.{◌≡◌, ◌++◌, ◌<◌, ◌≤◌, ℕ, List, IfOk, IfSome, OnOk, codes, length, string_bytes, true};
ghost use Rattle.std.specs.List.{prefix_len};
ghost use Rattle.definition_text.specs.Bytes.{begins_with, is_letter_or_digit};
ghost use Rattle.definition_inline.specs.CharacterReference.{Names};
ghost use Rattle.definition_inline.specs.GfmAutolinkLiteral.{ends_with};
ghost use Rattle.markdown_compile_options.specs.declared.configuration.CompileOptions.{CompileOptions};
ghost use Rattle.definition_html.specs.Listed.{listed, with_listed};
ghost use Rattle.html_listed.specs.Laws.{HasOneListedReading, HaveSafeProtocols, IsMixedPage};
ghost use Rattle.html_listed.specs.MarkedPage.{IsMarkedPage};
ghost use Rattle.html_listed.specs.Mixed.{tags_of};
ghost use Rattle.definition_html.specs.State.{says, with_room, entered, left, all_ended};
ghost use Rattle.html_safe_page.specs.SafePage.{IsSafePageBy};
ghost use Rattle.html_safe_page.specs.declared.table.TagTable.{TagTable};
ghost use Rattle.html_sanitizer.specs.Elements.{IsOwnTag, IsPlain, first_name, in_brackets, own_printed, parts_after};
ghost use Rattle.html_sanitizer.specs.Page.{page_state};

use crate::elements::{push_elements, push_read, split_inside, split_tag, split_text};
use crate::page::Page;
use crate::sanitized::push_raw;
use markdown_compile_options::CompileOptions;
use markdown_options::Tables;
use std::alloc::{AllocError, Allocator};

/// Returns a page with the listed tags of its raw HTML as tags. Raw HTML stands in the page as text
/// in elements without a name, such as `<>&lt;b&gt;</>`; those with nothing but line endings between
/// them are read as one. It prints what it prints by `sanitized_html`, with these differences:
///
/// - A tag of the page's own stays as it is. Raw elements end before the page's own element that they
///   are in.
/// - Before an own element begins, raw elements that can't hold it end.
/// - A closing tag ends no element that the page's own element around it is in.
///
/// The page is taken as it is: a tag of its own that no safe page has is printed, too. So it has to
/// come from a printer of safe pages.
///
/// Time is linear in the page. The only error is out of memory.
pub fn listed_html<A: Allocator + Clone, T: Tables>(
    alloc: A,
    page: &str,
    options: &CompileOptions,
    tables: &T,
) -> Result<String<A>, AllocError>
    ensures page { IfOk result (λ html. string_bytes html ≡ listed (T.reference_of tables.now) options.now page.now) }
    ensures listed { HaveSafeProtocols options.now → (table : TagTable) → IsMarkedPage table page.now
        → IfOk result (λ html. HasOneListedReading table (string_bytes html)) }
    ensures standing { HaveSafeProtocols options.now → (table : TagTable) → (marked : IsMarkedPage table page.now)
        → IfOk result (λ html. IsMixedPage table (tags_of marked.0) (string_bytes html)) }
    ensures unmarked { (table : TagTable) → IsSafePageBy table page.now → IfOk result (λ html. string_bytes html ≡ page.now) }
{
    let mut out = Page::new(alloc.clone()?)?;
    let mut rest = push_plain(&mut out, &alloc, page)?;
    while !rest.is_empty() {
        let after = push_tag(&mut out, alloc.clone()?, options, tables, rest)?;
        rest = push_plain(&mut out, &alloc, after)?;
    }
    out.end_all()?;
    Ok(out.out)
}

/// Returns a page as it is printed by these options, with its raw HTML by the list where they keep it:
/// [`listed_html`], or the page itself.
pub fn with_listed<A: Allocator + Clone, T: Tables>(
    alloc: A,
    page: String<A>,
    options: &CompileOptions,
    tables: &T,
) -> Result<String<A>, AllocError>
    ensures page { IfOk result (λ html. string_bytes html ≡ with_listed (T.reference_of tables.now) options.now (string_bytes page)) }
{
    if options.keeps_listed_html() {
        return listed_html(alloc, page.as_str(), options, tables);
    }
    Ok(page)
}

/// Appends text and tags of the page's own, up to an element without a name, or to a tag where raw
/// elements are open. Returns what follows.
fn push_plain<'a, A: Allocator + Clone>(
    page: &mut Page<A>,
    alloc: &A,
    text: &'a str,
) -> Result<&'a str, AllocError>
    ensures printed { IfOk result (λ rest. (names : Names) (options : CompileOptions)
        → parts_after names options (page_state page.new) rest.now ≡ parts_after names options (page_state page.old) text.now) }
    ensures tag { IfOk result (λ rest. (length rest.now ≡ 0 → ⊥) → begins_with (codes "<") rest.now ≡ true) }
    ensures shorter { IfOk result (λ rest. length rest.now ≤ length text.now) }
{
    let rest = pass_plain(page, alloc, text)?;
    page.out.push_str(&text[..text.len() - rest.len()])?;
    Ok(rest)
}

/// Enters and leaves the elements of a text that [`push_plain`] appends. Returns what follows.
fn pass_plain<'a, A: Allocator + Clone>(
    page: &mut Page<A>,
    alloc: &A,
    text: &'a str,
) -> Result<&'a str, AllocError>
    ensures plain { IfOk result (λ rest. IsPlain (page_state page.old) (page_state page.new) text.now rest.now) }
    ensures shorter { IfOk result (λ rest. length rest.now ≤ length text.now) }
{
    let mut rest = split_text(text).1;
    while page.level.names.is_empty() {
        let Some((inside, after)) = split_own(rest) else {
            return Ok(rest);
        };
        pass_own(page, alloc, inside)?;
        rest = split_text(after).1;
    }
    Ok(rest)
}

/// What stands in the tag of the page's own that a text begins with, and what follows its `>`.
fn split_own(text: &str) -> Option<(&str, &str)>
    ensures { IfSome result (λ p. IsOwnTag text.now p.0.now p.1.now) }
{
    let tag = text.strip_prefix('<')?;
    let (inside, end) = split_inside(tag);
    let after = end.strip_prefix('>')?;
    if inside.is_empty() {
        return None;
    }
    Some((inside, after))
}

/// Enters or leaves the element of a tag of the page's own, where no raw element is open.
fn pass_own<A: Allocator + Clone>(
    page: &mut Page<A>,
    alloc: &A,
    inside: &str,
) -> Result<(), AllocError>
    requires { length page.old.level.names.items ≡ 0 }
    ensures { OnOk result ((run : List ℕ)
        → says (run ++ in_brackets inside.now) (page_state page.new) ≡ own_printed (says run (page_state page.old)) inside.now) }
{
    if is_end(inside) {
        page.leave();
        return Ok(());
    }
    if is_void(inside) {
        return Ok(());
    }
    page.enter(alloc.clone()?, first_name(inside))?;
    Ok(())
}

/// Prints what begins with `<`: a tag of the page's own, or raw HTML. Returns what follows.
fn push_tag<'a, A: Allocator + Clone, T: Tables>(
    page: &mut Page<A>,
    alloc: A,
    options: &CompileOptions,
    tables: &T,
    rest: &'a str,
) -> Result<&'a str, AllocError>
    requires { begins_with (codes "<") rest.now ≡ true }
    ensures printed { IfOk result (λ after. parts_after (T.reference_of tables.now) options.now (page_state page.new) after.now
        ≡ parts_after (T.reference_of tables.now) options.now (page_state page.old) rest.now) }
    ensures shorter { IfOk result (λ after. length after.now < length rest.now) }
{
    if rest.as_bytes().starts_with(b"<>") {
        return push_marked(page, alloc, options, tables, rest);
    }
    let Some(text) = rest.strip_prefix('<') else {
        return Ok("");
    };
    let (inside, after) = split_tag(text);
    push_own(page, alloc, inside)?;
    Ok(after)
}

/// Prints the raw HTML of the elements without a name at the start of a page. Returns what follows.
fn push_marked<'a, A: Allocator + Clone, T: Tables>(
    page: &mut Page<A>,
    alloc: A,
    options: &CompileOptions,
    tables: &T,
    rest: &'a str,
) -> Result<&'a str, AllocError>
    requires { begins_with (codes "<>") rest.now ≡ true }
    ensures printed { IfOk result (λ after. parts_after (T.reference_of tables.now) options.now (page_state page.new) after.now
        ≡ parts_after (T.reference_of tables.now) options.now (page_state page.old) rest.now) }
    ensures shorter { IfOk result (λ after. length after.now < length rest.now) }
{
    let mut text = String::new(alloc.clone()?);
    let after = push_elements(&mut text, rest)?;
    let mut html = String::new(alloc.clone()?);
    push_read(&mut html, text.as_str())?;
    push_raw(page, alloc, options, tables, html.as_str())?;
    Ok(after)
}

// ---- tags of the page's own

/// Prints a tag of the page's own, by what stands between its `<` and `>`.
fn push_own<A: Allocator>(page: &mut Page<A>, alloc: A, inside: &str) -> Result<(), AllocError>
    ensures { OnOk result (page_state page.new ≡ own_printed (page_state page.old) inside.now) }
{
    if is_end(inside) {
        return push_end(page, inside);
    }
    if is_void(inside) {
        return push_void(page, inside);
    }
    push_start(page, alloc, inside)
}

/// Whether a tag is an end tag, by what stands in it.
fn is_end(inside: &str) -> bool
    ensures { result ≡ begins_with (codes "/") inside.now }
{
    inside.as_bytes().starts_with(b"/")
}

/// Whether a tag is that of a void element.
fn is_void(inside: &str) -> bool
    ensures { result ≡ ends_with (codes " /") inside.now }
{
    inside.as_bytes().ends_with(b" /")
}

fn push_end<A: Allocator>(page: &mut Page<A>, inside: &str) -> Result<(), AllocError>
    ensures { OnOk result (page_state page.new ≡ says (in_brackets inside.now) (left (all_ended (page_state page.old)))) }
{
    page.end_all()?;
    page.leave();
    push_in_brackets(&mut page.out, inside)
}

fn push_void<A: Allocator>(page: &mut Page<A>, inside: &str) -> Result<(), AllocError>
    ensures { OnOk result (page_state page.new ≡ says (in_brackets inside.now) (with_room (first_name inside.now) (page_state page.old))) }
{
    page.make_room(first_name(inside))?;
    push_in_brackets(&mut page.out, inside)
}

fn push_start<A: Allocator>(page: &mut Page<A>, alloc: A, inside: &str) -> Result<(), AllocError>
    ensures { OnOk result (page_state page.new
        ≡ entered (first_name inside.now) (says (in_brackets inside.now) (with_room (first_name inside.now) (page_state page.old)))) }
{
    push_void(page, inside)?;
    page.enter(alloc, first_name(inside))
}

/// Appends `<`, this text and `>`.
fn push_in_brackets<A: Allocator>(out: &mut String<A>, inside: &str) -> Result<(), AllocError>
    ensures { OnOk result (string_bytes out.new ≡ string_bytes out.old ++ in_brackets inside.now) }
{
    out.push_str("<")?;
    out.push_str(inside)?;
    out.push_str(">")
}

/// The letters and digits at the start of a text.
fn first_name(text: &str) -> &str
    ensures { result.now ≡ first_name text.now }
{
    text.split_at(name_size(text.as_bytes())).0
}

fn name_size(bytes: &[u8]) -> usize
    ensures { result ≡ prefix_len is_letter_or_digit bytes.now }
{
    bytes
        .iter()
        .take_while(|b| b.is_ascii_alphanumeric())
        .count()
}
