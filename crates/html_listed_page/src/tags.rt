//! The tags of a listed page, by what stands between their `<` and `>`.
ghost use Rattle.std.specs.Prelude.{◌≡◌, ◌↔◌, ◌++◌, [], ℕ, List, IfOk, IsTrue, OnOk, string_bytes};
ghost use Rattle.definition_text.specs.Ascii.{space, greater_than};
ghost use Rattle.html_safe_page.specs.SafePage.{is_tag_of};
ghost use Rattle.html_safe_page.specs.Table.{start_rows_of, void_rows_of};
ghost use Rattle.html_listed.specs.ListedPage.{is_listed_tag, is_listed_start, is_listed_void, is_start, is_void};
ghost use Rattle.html_listed_page.specs.Tags.{IsCut, IsTagOf, empty_element, lacks, void_tag};

use crate::attributes::has_attributes;
use html_listed::listing::{VOID_NAMES, is_in, is_listed};
use html_safe_page::{TagTable, is_safe_page_by};
use std::alloc::{AllocError, Allocator};

/// The name of a tag, and what follows it.
fn split_name(tag: &str) -> (&str, &str)
    ensures { IsCut space tag.now result.0.now result.1.now }
{
    match tag.find(' ') {
        Some(place) => tag.split_at(place),
        None => (tag, ""),
    }
}

/// The name of a tag.
pub(crate) fn name_of(tag: &str) -> &str
    ensures { (rest : List ℕ) × IsCut space tag.now result.now rest }
{
    split_name(tag).0
}

/// Whether a tag has a name and attributes of the list.
fn is_listed_tag<A: Allocator>(alloc: &A, tag: &str) -> Result<bool, AllocError>
    ensures { IfOk result (λ yes. IsTrue yes ↔ IsTagOf is_listed_tag [] tag.now) }
{
    let (name, attributes) = split_name(tag);
    if !is_listed(name) {
        return Ok(false);
    }
    has_attributes(alloc, name, attributes)
}

/// Whether the list has a start tag.
fn is_listed_start<A: Allocator>(alloc: &A, tag: &str) -> Result<bool, AllocError>
    ensures { IfOk result (λ yes. IsTrue yes ↔ IsTagOf is_listed_start [] tag.now) }
{
    if is_in(&VOID_NAMES, name_of(tag)) {
        return Ok(false);
    }
    is_listed_tag(alloc, tag)
}

/// Whether the list has a void tag, by what stands before its ` /`.
fn is_listed_void<A: Allocator>(alloc: &A, tag: &str) -> Result<bool, AllocError>
    ensures { IfOk result (λ yes. IsTrue yes ↔ IsTagOf is_listed_void [] tag.now) }
{
    if !is_in(&VOID_NAMES, name_of(tag)) {
        return Ok(false);
    }
    is_listed_tag(alloc, tag)
}

/// Appends the element of a start tag with nothing in it.
fn push_element<A: Allocator>(out: &mut String<A>, tag: &str, name: &str) -> Result<(), AllocError>
    ensures { OnOk result (string_bytes out.new ≡ string_bytes out.old ++ empty_element tag.now name.now) }
{
    out.push_str("<")?;
    out.push_str(tag)?;
    out.push_str("></")?;
    out.push_str(name)?;
    out.push_str(">")
}

/// Appends a void tag, by what stands before its ` /`.
fn push_void<A: Allocator>(out: &mut String<A>, tag: &str) -> Result<(), AllocError>
    ensures { OnOk result (string_bytes out.new ≡ string_bytes out.old ++ void_tag tag.now) }
{
    out.push_str("<")?;
    out.push_str(tag)?;
    out.push_str(" />")
}

/// Whether the table has a start tag. Its element with nothing in it is a safe page then.
fn is_safe_start<A: Allocator>(alloc: &A, table: TagTable, tag: &str) -> Result<bool, AllocError>
    requires { IsTrue (lacks greater_than tag.now) }
    ensures { IfOk result (λ yes. IsTrue yes ↔ IsTagOf (is_tag_of (start_rows_of table)) [] tag.now) }
{
    let mut element = String::new(alloc);
    push_element(&mut element, tag, name_of(tag))?;
    is_safe_page_by(alloc, table, element.as_str())
}

/// Whether the table has a void tag. It is a safe page then.
fn is_safe_void<A: Allocator>(alloc: &A, table: TagTable, tag: &str) -> Result<bool, AllocError>
    requires { IsTrue (lacks greater_than tag.now) }
    ensures { IfOk result (λ yes. IsTrue yes ↔ IsTagOf (is_tag_of (void_rows_of table)) [] tag.now) }
{
    let mut page = String::new(alloc);
    push_void(&mut page, tag)?;
    is_safe_page_by(alloc, table, page.as_str())
}

/// Whether the list or the table has a start tag.
pub(crate) fn is_start<A: Allocator>(
    alloc: &A,
    table: TagTable,
    tag: &str,
) -> Result<bool, AllocError>
    requires { IsTrue (lacks greater_than tag.now) }
    ensures { IfOk result (λ yes. IsTrue yes ↔ IsTagOf (is_start table) [] tag.now) }
{
    if is_listed_start(alloc, tag)? {
        return Ok(true);
    }
    is_safe_start(alloc, table, tag)
}

/// Whether the list or the table has a void tag, by what stands before its ` /`.
pub(crate) fn is_void<A: Allocator>(
    alloc: &A,
    table: TagTable,
    tag: &str,
) -> Result<bool, AllocError>
    requires { IsTrue (lacks greater_than tag.now) }
    ensures { IfOk result (λ yes. IsTrue yes ↔ IsTagOf (is_void table) [] tag.now) }
{
    if is_listed_void(alloc, tag)? {
        return Ok(true);
    }
    is_safe_void(alloc, table, tag)
}
