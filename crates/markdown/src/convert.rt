//! From a text to HTML.
//!
//! The calls promise five laws: safe pages, quoted, listed and escaped texts, other line endings.
//! docs/LAWS.md explains them. `specs/PageLaws.antt` states the last four, with their premises.
ghost use Rattle.std.specs.Prelude.{◌≡◌, ◌/◌, ◌*◌, ◌^◌, ◌-◌, ◌≤◌, ◌↔◌, IsTrue, IfOk, IfErr, false, length, string_bytes};
ghost use Rattle.markdown_compile_options.specs.Mdx.{HasNoMdx};
ghost use Rattle.markdown_compile_options.specs.RawHtml.{keeps_listed_html};
ghost use Rattle.markdown_options.specs.Messages.{IsOutOfMemory};
ghost use Rattle.markdown_compile_options.specs.Defaults.{default_options};
ghost use Rattle.markdown_definition.specs.Html.{html};
ghost use Rattle.html_contents.specs.Texts.{tables_by};
ghost use Rattle.html_bytes.specs.Html.{marked_html, text_ending};
ghost use Rattle.html_listed.specs.Laws.{HasOneListedReading};
ghost use Rattle.laws_safe_page.specs.SafeHtml.{AreSafe, HasOneReading, HasOneReadingBy, table_of};
ghost use Rattle.markdown.specs.PageLaws.{QuotesPage, SaysEscapedLine, EndsPage, ListsPage};
ghost use Rattle.markdown_tables.specs.Builtin.{builtin_tables};

use block_parser::{BlockRows, block_rows};
use block_targets::{definition_contents, document_definitions, document_footnotes};
use html_contents::Texts;
use html_page::print_rows;
use html_sanitizer::with_listed;
use markdown_compile_options::Options;
use markdown_devices::SIZE_MAX;
use markdown_options::{Kind, LineEnding, Message, Tables};
use markdown_tables::Builtin;
use std::alloc::{AllocError, Allocator};
use text_lines::{next_line, without_mark};

/// Returns whether a text is short enough to be converted: it has at most `usize::MAX / 8` bytes.
pub fn fits(value: &str) -> bool
    ensures number { IsTrue result ↔ (8 * length value.now ≤ 2 ^ 64 - 1) }
    ensures size { IsTrue result ↔ (length value.now ≤ SIZE_MAX) }
{
    value.len() <= SIZE_MAX
}

/// Converts a text to HTML, with the default options and the built-in tables.
///
/// The text must have at most `usize::MAX / 8` bytes, which [`fits`] tests. The page is safe, with
/// exactly one reading (see `is_safe_page`). The only error is `out of memory`.
pub fn to_html<A: Allocator + Clone>(alloc: A, value: &str) -> Result<String<A>, Message>
    requires size { length value.now ≤ SIZE_MAX }
    ensures page { IfOk result (λ page. string_bytes page ≡ html builtin_tables value.now default_options) }
    ensures safe { IfOk result (λ page. HasOneReading (string_bytes page)) }
    ensures quotes { IfOk result (λ page. QuotesPage builtin_tables default_options value.now (string_bytes page)) }
    ensures escaped { IfOk result (λ page. SaysEscapedLine default_options value.now (string_bytes page)) }
    ensures endings { IfOk result (λ page. EndsPage builtin_tables default_options value.now (string_bytes page)) }
    ensures lists { IfOk result (λ page. ListsPage builtin_tables default_options value.now (string_bytes page)) }
    ensures memory { IfErr result IsOutOfMemory }
{
    to_html_with_options(alloc, value, &Options::default())
}

/// Converts a text to HTML, with the built-in tables.
///
/// The text must have at most `usize::MAX / 8` bytes, which [`fits`] tests. No construct of MDX may
/// be on, which `Options::has_mdx` tests. Under safe options, such as the default ones, the page is
/// safe, with exactly one reading (see `is_safe_page`; with ids of headings, a `rel` of links or lazy
/// images, see `is_safe_page_by`). If raw HTML is kept by the list (`allow_listed_html`), it has
/// exactly one reading as a safe page with tags of the list. The only error is `out of memory`.
pub fn to_html_with_options<A: Allocator + Clone>(
    alloc: A,
    value: &str,
    options: &Options,
) -> Result<String<A>, Message>
    requires size { length value.now ≤ SIZE_MAX }
    requires without_mdx { HasNoMdx options.now }
    ensures page { IfOk result (λ page. string_bytes page ≡ html builtin_tables value.now options.now) }
    ensures safe { IfOk result (λ page. AreSafe options.now.compile → keeps_listed_html options.now.compile ≡ false
        → HasOneReadingBy (table_of options.now.compile) (string_bytes page)) }
    ensures listed { IfOk result (λ page. AreSafe options.now.compile → HasOneListedReading (table_of options.now.compile) (string_bytes page)) }
    ensures quotes { IfOk result (λ page. QuotesPage builtin_tables options.now value.now (string_bytes page)) }
    ensures escaped { IfOk result (λ page. SaysEscapedLine options.now value.now (string_bytes page)) }
    ensures endings { IfOk result (λ page. EndsPage builtin_tables options.now value.now (string_bytes page)) }
    ensures lists { IfOk result (λ page. ListsPage builtin_tables options.now value.now (string_bytes page)) }
    ensures memory { IfErr result IsOutOfMemory }
{
    to_html_with_tables(alloc, value, options, &Builtin)
}

/// Converts a text to HTML, with the caller's tables of character references and punctuation.
///
/// The text must have at most `usize::MAX / 8` bytes, which [`fits`] tests. No construct of MDX may
/// be on, which `Options::has_mdx` tests. Under safe options, such as the default ones, the page is
/// safe, with exactly one reading (see `is_safe_page`; with ids of headings, a `rel` of links or lazy
/// images, see `is_safe_page_by`). If raw HTML is kept by the list (`allow_listed_html`), it has
/// exactly one reading as a safe page with tags of the list. The only error is `out of memory`.
pub fn to_html_with_tables<T: Tables, A: Allocator + Clone>(
    alloc: A,
    value: &str,
    options: &Options,
    tables: &T,
) -> Result<String<A>, Message>
    requires size { length value.now ≤ SIZE_MAX }
    requires without_mdx { HasNoMdx options.now }
    ensures page { IfOk result (λ page.
        string_bytes page ≡ html (tables_by T.Tables tables.now) value.now options.now) }
    ensures safe { IfOk result (λ page. AreSafe options.now.compile → keeps_listed_html options.now.compile ≡ false
        → HasOneReadingBy (table_of options.now.compile) (string_bytes page)) }
    ensures listed { IfOk result (λ page. AreSafe options.now.compile → HasOneListedReading (table_of options.now.compile) (string_bytes page)) }
    ensures quotes { IfOk result (λ page.
        QuotesPage (tables_by T.Tables tables.now) options.now value.now (string_bytes page)) }
    ensures escaped { IfOk result (λ page. SaysEscapedLine options.now value.now (string_bytes page)) }
    ensures endings { IfOk result (λ page.
        EndsPage (tables_by T.Tables tables.now) options.now value.now (string_bytes page)) }
    ensures lists { IfOk result (λ page.
        ListsPage (tables_by T.Tables tables.now) options.now value.now (string_bytes page)) }
    ensures memory { IfErr result IsOutOfMemory }
{
    let (before, text) = without_mark(value);
    let page = page_after(alloc.clone()?, before, text, options, tables)?;
    let html = with_listed(alloc, page, &options.compile, tables)?;
    Ok(html)
}

/// The page of a text whose byte order mark is removed, after a character of a kind, as it is
/// printed: raw HTML that is kept by the list stands on it as text in elements without a name.
fn page_after<'a, T: Tables, A: Allocator + Clone>(
    alloc: A,
    before: Kind,
    text: &'a str,
    options: &'a Options,
    tables: &'a T,
) -> Result<String<A>, AllocError>
    requires size { length text.now ≤ SIZE_MAX }
    requires without_mdx { HasNoMdx options.now }
    ensures { IfOk result (λ page.
        string_bytes page ≡ marked_html (tables_by T.Tables tables.now) before text.now options.now) }
{
    let blocks = block_rows(alloc.clone()?, before, text, &options.parse.constructs)?;
    let ending = default_ending(text, options.compile.default_line_ending);
    let contents = definition_contents(alloc.clone()?, &blocks.rows, &blocks.pieces)?;
    let definitions = document_definitions(alloc.clone()?, &contents)?;
    let may_define = options.parse.constructs.gfm_footnote_definition;
    let footnotes = document_footnotes(alloc.clone()?, may_define, &blocks.rows, &blocks.pieces)?;
    let texts = Texts {
        options,
        tables,
        labels: &definitions.labels,
        footnotes: &footnotes.labels,
        links: &definitions.links,
    };
    let room = room(text.len());
    let BlockRows { rows, pieces } = blocks;
    print_rows(alloc, room, ending, &texts, rows, pieces)
}

/// The initial capacity of a page, in bytes: the size of the text, and some for tags and
/// references. So few pages grow. Unused bytes are never touched.
fn room(len: usize) -> usize
    requires { len ≤ SIZE_MAX }
{
    len + len / 4 + 64
}

/// The first line ending of the text, or the other one if it has none.
fn default_ending(text: &str, other: LineEnding) -> LineEnding
    ensures { (options : Options) → options.compile.default_line_ending ≡ other → result ≡ text_ending options text.now }
{
    let (_, ending, _) = next_line(text);
    ending.unwrap_or(other)
}
