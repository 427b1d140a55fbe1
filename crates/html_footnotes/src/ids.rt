//! Ids of headings, of footnotes and of their calls.
//!
//!     heading  ::= prefix slug, unless the slug is empty or a footnote may have this id
//!     footnote ::= prefix 'fn-' label
//!     call     ::= prefix 'fnref-' label ('-' count)?, with a count from the second call on
ghost use Rattle.std.specs.Prelude.{◌≡◌, ◌++◌, ◌||◌, ℕ, List, codes};
ghost use Rattle.std.specs.List.{flat_map};
ghost use Rattle.definition_text.specs.Bytes.{begins_with};
ghost use Rattle.definition_page.specs.Destinations.{heading_prefix};
ghost use Rattle.definition_page.specs.GfmLabelStartFootnote.{call_id, count_says, footnote_id, id_prefix};
ghost use Rattle.definition_page.specs.HeadingIds.{id_attributes, is_note_id, tag_with_id};
ghost use Rattle.definition_page.specs.OptionTexts.{text_or};
ghost use Rattle.definition_page.specs.Tags.{attribute_bytes, bare_tag, start_tag};
ghost use Rattle.html_bytes.specs.InlineHtml.{say_bytes};
ghost use Rattle.html_escape.specs.Prints.{Prints};

use html_escape::{push_encoded, push_sanitized};
use markdown_compile_options::CompileOptions;
use std::alloc::{AllocError, Allocator};

/// A text of the options, or this one.
pub fn text_or<'a>(text: &'a Option<String>, default: &'a str) -> &'a str
    ensures { result.now ≡ text_or text.now default.now }
{
    match text {
        None => default,
        Some(text) => text.as_str(),
    }
}

/// What ids begin with.
fn id_prefix(compile: &CompileOptions) -> &str
    ensures { result.now ≡ id_prefix compile.now }
{
    text_or(&compile.gfm_footnote_clobber_prefix, "user-content-")
}

/// Prints the id of a footnote.
pub(crate) fn push_footnote_id<A: Allocator>(
    out: &mut String<A>,
    compile: &CompileOptions,
    label: &str,
) -> Result<(), AllocError>
    ensures { Prints result out.old out.new (say_bytes (footnote_id compile.now label.now)) }
{
    push_encoded(out, id_prefix(compile))?;
    out.push_str("fn-")?;
    push_sanitized(out, label)
}

/// Prints the id of a call, which is the `count`th of its footnote.
pub(crate) fn push_call_id<A: Allocator>(
    out: &mut String<A>,
    compile: &CompileOptions,
    label: &str,
    count: usize,
) -> Result<(), AllocError>
    ensures { Prints result out.old out.new (say_bytes (call_id compile.now label.now count)) }
{
    push_encoded(out, id_prefix(compile))?;
    out.push_str("fnref-")?;
    push_sanitized(out, label)?;
    push_id_count(out, count)
}

/// Prints what tells the calls of one footnote apart.
fn push_id_count<A: Allocator>(out: &mut String<A>, count: usize) -> Result<(), AllocError>
    ensures { Prints result out.old out.new (say_bytes (count_says count)) }
{
    if count <= 1 {
        return Ok(());
    }
    write!(out, "-{count}")
}

/// What the ids of headings begin with, if headings have ids.
pub fn heading_prefix(compile: &CompileOptions) -> &str
    ensures { result.now ≡ heading_prefix compile.now }
{
    if compile.heading_ids {
        text_or(&compile.heading_id_prefix, "")
    } else {
        ""
    }
}

/// Prints the start tag of a heading. `id` is the prefix of ids of headings and a slug.
pub(crate) fn push_named_tag<A: Allocator>(
    out: &mut String<A>,
    compile: &CompileOptions,
    name: &str,
    id: &str,
) -> Result<(), AllocError>
    ensures { (slug : List ℕ) → id.now ≡ heading_prefix compile.now ++ slug →
        Prints result out.old out.new (start_tag (tag_with_id compile.now slug (bare_tag name.now))) }
{
    out.push_str("<")?;
    out.push_str(name)?;
    push_named_id(out, compile, id)?;
    out.push_str(">")
}

/// Prints the id of a heading, unless its slug is empty or a footnote may have this id.
fn push_named_id<A: Allocator>(
    out: &mut String<A>,
    compile: &CompileOptions,
    id: &str,
) -> Result<(), AllocError>
    ensures { (slug : List ℕ) → id.now ≡ heading_prefix compile.now ++ slug →
        Prints result out.old out.new (flat_map attribute_bytes (id_attributes compile.now slug)) }
{
    if id.len() == heading_prefix(compile).len() || is_note_id(compile, id) {
        return Ok(());
    }
    out.push_str(" id=\"")?;
    push_encoded(out, id)?;
    out.push_str("\"")
}

/// Whether a footnote, a call or the heading of the footnotes may have this id.
fn is_note_id(compile: &CompileOptions, id: &str) -> bool
    ensures { result ≡ is_note_id compile.now id.now }
{
    id == "footnote-label" || is_made_id(id_prefix(compile).as_bytes(), id.as_bytes())
}

/// Whether an id is made as those of footnotes and calls are: from this prefix, `fn-` or `fnref-`, and a label.
fn is_made_id(prefix: &[u8], id: &[u8]) -> bool
    ensures { result ≡ (begins_with (prefix.now ++ codes "fn-") id.now || begins_with (prefix.now ++ codes "fnref-") id.now) }
{
    if !id.starts_with(prefix) {
        return false;
    }
    let label = &id[prefix.len()..];
    label.starts_with(b"fn-") || label.starts_with(b"fnref-")
}
