//! Any HTML to a page of the list.
ghost use Rattle.std.specs.Prelude.{◌≡◌, ◌++◌, ◌∷◌, IfOk, OnOk, codes, string_bytes, true};
ghost use Rattle.std.specs.List.{position_or_len};
ghost use Rattle.definition_text.specs.Ascii.{less_than};
ghost use Rattle.definition_text.specs.Bytes.{begins_with};
ghost use Rattle.definition_text.specs.Encode.{encode};
ghost use Rattle.definition_html.specs.Listed.{sanitized};
ghost use Rattle.html_listed.specs.Laws.{HaveSafeProtocols, IsSanitized};
ghost use Rattle.inline_links.specs.Codes.{IsRest, IsShorterRest};
ghost use Rattle.markdown_options.specs.Defaults.{default_constructs};
ghost use Rattle.html_sanitizer.specs.Page.{page_state};
ghost use Rattle.html_sanitizer.specs.Sanitized.{page_after, after_marks, before_marks, is_mark, IsMarked};

use crate::page::Page;
use crate::raw::{Scratch, push_html, push_reference};
use crate::urls::Buffers;
use html_escape::push_encoded;
use inline_constructs::searches::Searches;
use inline_leaves::LeafPart;
use markdown_compile_options::CompileOptions;
use markdown_options::{Constructs, Tables};
use std::alloc::{AllocError, Allocator};
use text_search::{BytePair, next_of};

/// `<` and `&`.
const MARKS: BytePair = BytePair {
    first: b'<',
    second: b'&',
};

/// Returns a page that keeps of any HTML the elements and attributes of a list. `html_listed` has
/// the list and the rules.
///
/// - A listed tag is printed with its listed attributes. A URL has a permitted protocol or none, by
///   `options`.
/// - A comment is left out, and a tag that has no place here. Elements that are open at the end are
///   ended.
/// - Any other raw HTML is printed as text.
/// - A character reference is printed as the text that it stands for, if `tables` have its name.
///
/// NUL becomes U+FFFD. Time is linear in the HTML. The only error is out of memory.
pub fn sanitized_html<A: Allocator + Clone, T: Tables>(
    alloc: A,
    html: &str,
    options: &CompileOptions,
    tables: &T,
) -> Result<String<A>, AllocError>
    ensures page { IfOk result (λ page. string_bytes page ≡ sanitized (T.reference_of tables.now) options.now html.now) }
    ensures listed { HaveSafeProtocols options.now → IfOk result (λ page. IsSanitized (string_bytes page)) }
{
    let mut page = Page::new(alloc.clone()?)?;
    push_raw(&mut page, alloc, options, tables, html)?;
    page.end_all()?;
    Ok(page.out)
}

/// Prints raw HTML.
pub(crate) fn push_raw<A: Allocator + Clone, T: Tables>(
    page: &mut Page<A>,
    alloc: A,
    options: &CompileOptions,
    tables: &T,
    html: &str,
) -> Result<(), AllocError>
    ensures { OnOk result (page_state page.new ≡ page_after (T.reference_of tables.now) options.now (page_state page.old) html.now) }
{
    let on = Constructs::default();
    let mut scratch = Scratch {
        written: Vec::new(alloc.clone()?),
        buffers: Buffers {
            text: String::new(alloc.clone()?),
            url: String::new(alloc.clone()?),
            other: String::new(alloc.clone()?),
        },
    };
    let mut searches = Searches::new(alloc, html);
    let mut rest = push_text(&mut page.out, html)?;
    while !rest.is_empty() {
        let after = push_part(
            page,
            &mut scratch,
            &mut searches,
            &on,
            options,
            tables,
            rest,
        )?;
        rest = push_text(&mut page.out, after)?;
    }
    Ok(())
}

/// Appends the text before the first `<` or `&`. Returns what follows.
fn push_text<'a, A: Allocator>(out: &mut String<A>, text: &'a str) -> Result<&'a str, AllocError>
    ensures printed { OnOk result (string_bytes out.new ≡ string_bytes out.old ++ encode (before_marks text.now)) }
    ensures rest { IfOk result (λ rest. rest.now ≡ after_marks text.now) }
{
    let (before, rest) = text.split_at(text_size(text.as_bytes()));
    push_encoded(out, before)?;
    Ok(rest)
}

/// How many bytes are before the first `<` or `&`.
fn text_size(bytes: &[u8]) -> usize
    ensures { result ≡ position_or_len is_mark bytes.now }
{
    next_of(bytes, MARKS)
}

/// Prints what begins with `<` or `&`. Returns what follows.
fn push_part<'a, A: Allocator + Clone, T: Tables>(
    page: &mut Page<A>,
    scratch: &mut Scratch<'a, A>,
    searches: &mut Searches<'a, A>,
    on: &Constructs,
    options: &CompileOptions,
    tables: &T,
    rest: &'a str,
) -> Result<&'a str, AllocError>
    requires on { on.now ≡ default_constructs }
    requires rest { IsRest searches.old.content.now rest.now }
    requires marked { IsMarked rest.now }
    ensures content { searches.new.content ≡ searches.old.content }
    ensures printed { IfOk result (λ after. page_after (T.reference_of tables.now) options.now (page_state page.new) after.now
        ≡ page_after (T.reference_of tables.now) options.now (page_state page.old) rest.now) }
    ensures shorter { IfOk result (λ after. IsShorterRest rest.now after.now) }
{
    if let Some(after) = rest.strip_prefix('&') {
        let next = push_reference(&mut page.out, &mut scratch.buffers.text, tables, after)?;
        return Ok(next);
    }
    let Some(found) = searches.html_text_at(on, rest) else {
        let next = push_sign(&mut page.out, rest)?;
        return Ok(next);
    };
    let LeafPart::Html(html) = found.part else {
        return Ok("");
    };
    push_html(page, scratch, options, tables, html)?;
    Ok(found.after)
}

/// Appends the `<` that a text begins with. Returns what follows.
fn push_sign<'a, A: Allocator>(out: &mut String<A>, text: &'a str) -> Result<&'a str, AllocError>
    requires { begins_with (codes "<") text.now ≡ true }
    ensures printed { OnOk result (string_bytes out.new ≡ string_bytes out.old ++ codes "&lt;") }
    ensures rest { IfOk result (λ rest. text.now ≡ less_than ∷ rest.now) }
{
    let Some(after) = text.strip_prefix('<') else {
        return Ok("");
    };
    out.push_str("&lt;")?;
    Ok(after)
}
