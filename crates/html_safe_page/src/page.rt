//! Whether a page is safe.
ghost use Rattle.std.specs.Prelude.{◌≡◌, ◌↔◌, IfOk, IsTrue};
ghost use Rattle.html_safe_page.specs.SafePage.{IsSafePage, IsSafePageBy, OneReading};
ghost use Rattle.html_safe_page.specs.declared.table.TagTable.{TagTable};
ghost use Rattle.html_safe_page.specs.declared.table.TagTable.TheVariants.{Basic};
ghost use Rattle.html_safe_page.specs.Closed.{Closure};
ghost use Rattle.html_safe_page.specs.Machine.{split_tag, follows, if_goes_on, after_tag};
ghost use Rattle.html_safe_page.specs.Place.{IsUnsafePlace};
ghost use Rattle.html_safe_page.specs.Views.{open_names, quoted_of, if_next};

use crate::letters::after_letters;
use crate::table::TagTable;
use crate::tags::{is_frequent, is_void, start_name};
use std::alloc::{AllocError, Allocator};
use text_search::{BytePair, next_of};

/// A page has at most one reading by a table.
pub fn one_reading_law()
    ensures { OneReading }
{}

/// Texts, line endings, void tags, elements, and several safe pages in a row are safe pages. So is
/// a safe page that is inserted before a tag of another one.
pub fn closure_law()
    ensures { (table : TagTable) → Closure table }
{}

/// `>` and `<`.
const TAG_ENDS: BytePair = BytePair {
    first: b'>',
    second: b'<',
};

/// The bytes of a tag before its `>`, and what follows that.
fn split_tag(bytes: &[u8]) -> Option<(&[u8], &[u8])>
    ensures { quoted_of result ≡ split_tag bytes.now }
{
    let (inside, rest) = bytes.split_at(next_of(bytes, TAG_ENDS));
    let Some((end, after)) = rest.split_first() else {
        return None;
    };
    if *end != b'>' {
        return None;
    }
    Some((inside, after))
}

/// Opens or closes an element by its tag. Returns false if the tag isn't allowed here.
fn follow<'a, A: Allocator>(
    table: TagTable,
    names: &mut Vec<&'a [u8], A>,
    tag: &'a [u8],
) -> Result<bool, AllocError>
    ensures { IfOk result (λ goes_on. follows table tag.now (open_names names.old.items) ≡ if_goes_on goes_on (open_names names.new.items)) }
{
    if tag.starts_with(b"/") {
        return Ok(match names.pop() {
            Some(name) => &tag[1..] == name,
            None => false,
        });
    }
    if is_frequent(tag) {
        names.push(tag)?;
        return Ok(true);
    }
    if let Some(name) = start_name(table, tag) {
        names.push(name)?;
        return Ok(true);
    }
    Ok(is_void(table, tag))
}

/// What follows the tag at the start, if it is allowed here. Opens or closes its element.
fn after_tag<'a, A: Allocator>(
    table: TagTable,
    names: &mut Vec<&'a [u8], A>,
    bytes: &'a [u8],
) -> Result<Option<&'a [u8]>, AllocError>
    ensures { IfOk result (λ next. after_tag table bytes.now (open_names names.old.items) ≡ if_next next (open_names names.new.items)) }
{
    let Some((first, after)) = bytes.split_first() else {
        return Ok(None);
    };
    if *first != b'<' {
        return Ok(None);
    }
    let Some((tag, next)) = split_tag(after) else {
        return Ok(None);
    };
    if !follow(table, names, tag)? {
        return Ok(None);
    }
    Ok(Some(next))
}

/// Returns the offset, in bytes, of the first place where a page isn't safe, or `None` if it is.
///
/// The place is that of the first letter, reference or tag that can't follow what is before it, or
/// the end of the page if elements are left open. So the bytes before it are the longest beginning
/// of the page that end tags make a safe page.
///
/// Time is linear in the page. Memory is taken for the list of open tags. The only error is out of
/// memory.
pub fn unsafe_place<A: Allocator>(alloc: A, page: &str) -> Result<Option<usize>, AllocError>
    ensures { IfOk result (IsUnsafePlace Basic page.now) }
{
    unsafe_place_by(alloc, TagTable::Basic, page)
}

/// Like `unsafe_place`, with the tags of this table.
pub fn unsafe_place_by<A: Allocator>(
    alloc: A,
    table: TagTable,
    page: &str,
) -> Result<Option<usize>, AllocError>
    ensures { IfOk result (IsUnsafePlace table page.now) }
{
    let mut names = Vec::new(alloc);
    let mut rest = after_letters(page.as_bytes());
    while !rest.is_empty() {
        let Some(next) = after_tag(table, &mut names, rest)? else {
            return Ok(Some(page.len().saturating_sub(rest.len())));
        };
        rest = after_letters(next);
    }
    if names.is_empty() {
        Ok(None)
    } else {
        Ok(Some(page.len()))
    }
}

/// Returns whether a page is safe. `specs/SafePage.antt` defines that. A safe page has only
///
/// - bytes other than `&`, `"`, `<` and `>`;
/// - the references `&amp;`, `&quot;`, `&lt;` and `&gt;`;
/// - tags of a fixed table, each void or closed, whose `href` and `src` have a permitted protocol
///   or none. Other values are fixed, but for those of `id`, `start`, `alt`, `title` and names with
///   `aria-`, and what follows `language-` in the `class` of `code`.
///
/// Headings have no `id` here, links no `rel`, and images no `loading`: see `is_safe_page_by`.
///
/// Time is linear in the page. Memory is taken for the list of open tags. The only error is out of
/// memory.
pub fn is_safe_page<A: Allocator>(alloc: A, page: &str) -> Result<bool, AllocError>
    ensures { IfOk result (λ safe. IsTrue safe ↔ IsSafePage page.now) }
{
    is_safe_page_by(alloc, TagTable::Basic, page)
}

/// Like `is_safe_page`, with the tags of this table.
pub fn is_safe_page_by<A: Allocator>(
    alloc: A,
    table: TagTable,
    page: &str,
) -> Result<bool, AllocError>
    ensures { IfOk result (λ safe. IsTrue safe ↔ IsSafePageBy table page.now) }
{
    Ok(unsafe_place_by(alloc, table, page)?.is_none())
}
