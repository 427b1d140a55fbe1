//! Whether a page is a listed page.
ghost use Rattle.std.specs.Prelude.{◌↔◌, ◌∷◌, IfOk, IsTrue};
ghost use Rattle.definition_text.specs.Ascii.{slash, greater_than};
ghost use Rattle.html_safe_page.specs.Views.{open_names};
ghost use Rattle.html_safe_page.specs.declared.table.TagTable.{TagTable};
ghost use Rattle.html_listed.specs.ListedPage.{IsListedPage};
ghost use Rattle.html_listed_page.specs.Rest.{Leads};
ghost use Rattle.html_listed_page.specs.Tags.{lacks};

use crate::tags::{is_start, is_void, name_of};
use crate::text::is_text;
use html_safe_page::TagTable;
use std::alloc::{AllocError, Allocator};

/// Ends the innermost element by an end tag. Returns false if it has another name.
fn end_element<'a, A: Allocator>(names: &mut Vec<&'a str, A>, name: &str) -> bool
    requires { IsTrue (lacks greater_than name.now) }
    ensures { (table : TagTable) → Leads table result (slash ∷ name.now) (open_names names.old.items) (open_names names.new.items) }
{
    match names.pop() {
        Some(open) => name == open,
        None => false,
    }
}

/// Begins or ends an element by a tag. Returns false if the tag can't stand here.
fn follow<'a, A: Allocator, B: Allocator>(
    alloc: &A,
    table: TagTable,
    names: &mut Vec<&'a str, B>,
    tag: &'a str,
) -> Result<bool, AllocError>
    requires { IsTrue (lacks greater_than tag.now) }
    ensures { IfOk result (λ goes_on. Leads table goes_on tag.now (open_names names.old.items) (open_names names.new.items)) }
{
    if let Some(name) = tag.strip_prefix('/') {
        return Ok(end_element(names, name));
    }
    if let Some(inside) = tag.strip_suffix(" /") {
        return is_void(alloc, table, inside);
    }
    let starts = is_start(alloc, table, tag)?;
    if !starts {
        return Ok(false);
    }
    names.push(name_of(tag))?;
    Ok(true)
}

/// Returns whether a page is a safe page by a table that may have tags of the list, too.
///
/// `html_listed` says what such a page is: each of its tags is in the table, or has a name of the
/// list and some of its attributes, in the order of the list, with a permitted protocol or none in
/// `href` and `src`. Each element ends by its end tag, and other text is letters and references.
///
/// Time is linear in the page. Memory is taken for the list of open elements, and for a tag that
/// only the table has. The only error is out of memory.
pub fn is_listed_page<A: Allocator>(
    alloc: A,
    table: TagTable,
    page: &str,
) -> Result<bool, AllocError>
    ensures { IfOk result (λ yes. IsTrue yes ↔ IsListedPage table page.now) }
{
    let mut names = Vec::new(&alloc);
    let mut rest = page;
    while let Some((letters, after)) = rest.split_once('<') {
        let reads = is_text(&alloc, letters)?;
        if !reads {
            return Ok(false);
        }
        let Some((tag, next)) = after.split_once('>') else {
            return Ok(false);
        };
        let goes_on = follow(&alloc, table, &mut names, tag)?;
        if !goes_on {
            return Ok(false);
        }
        rest = next;
    }
    if !names.is_empty() {
        return Ok(false);
    }
    is_text(&alloc, rest)
}
