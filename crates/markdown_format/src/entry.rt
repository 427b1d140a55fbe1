//! From a text to the same text in another form.
ghost use Rattle.std.specs.Prelude.{◌≡◌, ◌≤◌, IfOk, IfErr, length, string_bytes};
ghost use Rattle.markdown_compile_options.specs.Mdx.{HasNoMdx};
ghost use Rattle.markdown_options.specs.Messages.{IsOutOfMemory};
ghost use Rattle.markdown_definition.specs.Html.{html};
ghost use Rattle.markdown_tables.specs.Builtin.{builtin_tables};
ghost use Rattle.format_pages.specs.SameDocument.{IsSameDocument};

use crate::passes::{first_edits, formatted};
use format_pages::{ByOptions, Known, read_by};
use format_rules::Style;
use markdown::{SIZE_MAX, fits};
use markdown_compile_options::Options;
use markdown_options::Message;
use std::alloc::Global;

/// Formats a text. The result is the same document: its page is the page of the text, with the same options,
/// with every construct on, and by CommonMark; frontmatter, footnotes, definitions and the infos of fences are
/// the same, too. What the options don't have on isn't formatted.
///
/// The text must have at most `SIZE_MAX` bytes. No construct of MDX may be on, which
/// `Options::has_mdx` tests. If the page leaves out or escapes raw HTML or URLs, changes of these can't be
/// seen on it: `CompileOptions::allow_dangerous_html` and `allow_dangerous_protocol` keep them. The only
/// error is `out of memory`.
pub fn format(
    alloc: Global,
    value: &str,
    style: &Style,
    options: &Options,
) -> Result<String, Message>
    requires size { length value.now ≤ SIZE_MAX }
    requires without_mdx { HasNoMdx options.now }
    ensures page { IfOk result (λ formatted.
        html builtin_tables (string_bytes formatted) options.now ≡ html builtin_tables value.now options.now) }
    ensures document { IfOk result (λ formatted. IsSameDocument (string_bytes formatted) value.now options.now) }
    ensures size { IfOk result (λ formatted. length (string_bytes formatted) ≤ SIZE_MAX) }
    ensures memory { IfErr result IsOutOfMemory }
{
    let read = read_by(alloc, value, options)?;
    let edits = first_edits(alloc, value, read, style)?;
    if edits.is_empty() {
        return Ok(String::from_str(alloc, value)?);
    }
    let known = Known::of(alloc, value, options)?;
    let reader = ByOptions {
        alloc,
        options,
        known: &known,
    };
    match formatted(alloc, &reader, value, style, edits)? {
        Some(found) if fits(&found) => Ok(found),
        _ => Ok(String::from_str(alloc, value)?),
    }
}
