//! A text to its events, and these to the page that they spell.
ghost use Rattle.std.specs.Prelude.{◌≡◌, ◌≤◌, IfErr, IfOk, false, length, string_bytes};
ghost use Rattle.markdown_compile_options.specs.RawHtml.{keeps_listed_html};
ghost use Rattle.markdown_options.specs.Mdx.{has_mdx};
ghost use Rattle.markdown_definition.specs.Html.{html};
ghost use Rattle.definition_page.specs.TextTables.{text_tables};
ghost use Rattle.event_check.specs.declared.error.CompileError.TheVariants.{Memory};
ghost use Rattle.markdown_html.specs.Page.{IsPageOfEvents};
ghost use Rattle.html_listed.specs.Laws.{HasOneListedReading};
ghost use Rattle.laws_safe_page.specs.SafeHtml.{AreSafe, HasOneReadingBy, table_of};

use compile_html::compile_checked;
use event_check::{Checked, CompileError};
use markdown_compile_options::Options;
use markdown_options::Tables;
use parse_events::{SIZE_MAX, parse};
use std::alloc::Allocator;

/// Returns the HTML of a text by way of its events: `parse`, and then `compile_checked`. It is the page
/// of the text by all options.
///
/// The text must have at most `SIZE_MAX` bytes, and no construct of MDX may be on. The only error is
/// out of memory. The list isn't checked after `parse`, which returns only lists in the grammar.
pub fn to_html_by_events<T: Tables, A: Allocator + Clone>(
    alloc: A,
    value: &str,
    options: &Options,
    tables: &T,
) -> Result<String<A>, CompileError>
    requires size { length value.now ≤ SIZE_MAX }
    requires without_mdx { has_mdx options.now.parse.constructs ≡ false }
    ensures memory { IfErr result (λ error. error ≡ Memory) }
    ensures same { IfOk result (λ page.
        string_bytes page ≡ html (text_tables (T.reference_of tables.now) (T.punctuation_of tables.now)) value.now options.now) }
    ensures page { IfOk result (λ page. IsPageOfEvents (T.reference_of tables.now) options.now.compile value.now (string_bytes page)) }
    ensures safe { AreSafe options.now.compile → keeps_listed_html options.now.compile ≡ false
        → IfOk result (λ page. HasOneReadingBy (table_of options.now.compile) (string_bytes page)) }
    ensures listed { AreSafe options.now.compile → IfOk result (λ page. HasOneListedReading (table_of options.now.compile) (string_bytes page)) }
{
    let Ok((events, _)) = parse(alloc.clone()?, value, &options.parse, tables) else {
        return Err(CompileError::Memory);
    };
    let checked = Checked::new(&events, value.as_bytes(), tables);
    let page = compile_checked(alloc, checked, &options.compile)?;
    Ok(page)
}
