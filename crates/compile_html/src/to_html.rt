//! A list of events to HTML.
ghost use Rattle.std.specs.Prelude.{◌≡◌, List, IfErr, IfOk, OnOk, false, string_bytes, unwrap_or};
ghost use Rattle.markdown_compile_options.specs.RawHtml.{keeps_listed_html};
ghost use Rattle.definition_text.specs.Lines.{first_line, without_mark};
ghost use Rattle.event_meaning.specs.Spelled.{default_ending, html_of_events, page_of};
ghost use Rattle.html_listed.specs.Laws.{HasOneListedReading};
ghost use Rattle.laws_safe_page.specs.SafeHtml.{AreSafe, HasOneReadingBy, table_of};
ghost use Rattle.definition_inline.specs.Definition.{Definition};
ghost use Rattle.definition_page.specs.BlockPieces.{document_pieces};
ghost use Rattle.definition_page.specs.InlinePieces.{Meaning};
ghost use Rattle.definition_page.specs.Layout.{page_layout};
ghost use Rattle.compile_blocks.specs.Meant.{IsMeant};
ghost use Rattle.compile_raw.specs.Sound.{AreSound};
ghost use Rattle.event_faults.specs.Faults.{fault};
ghost use Rattle.event_grammar.specs.Trees.{Nodes, events_of};
ghost use Rattle.compile_html.specs.Containers.{HoldLists};
ghost use Rattle.compile_html.specs.Numbers.{HaveNumbers};
ghost use Rattle.event_check.specs.Matches.{MatchesGrammar};
ghost use Rattle.event_check.specs.Checked.{Refuses};
ghost use Rattle.event_check.specs.declared.error.CompileError.TheVariants.{Memory};

use crate::printer::Printer;
use compile_blocks::Source;
use compile_written::{footnote_labels, loose_lists, read_definitions};
use engine_events::event::Event;
use event_check::{Checked, CompileError, check_events};
use html_sanitizer::with_listed;
use markdown_compile_options::CompileOptions;
use markdown_options::{Constructs, LineEnding, Tables};
use std::alloc::{AllocError, Allocator};
use text_search::{BytePair, next_of};

/// The bytes that begin an ending: LF and CR.
const ENDS: BytePair = BytePair {
    first: b'\n',
    second: b'\r',
};

/// Returns the HTML of the page that a list of events of a text spells (docs/EVENTS.md). Fails with
/// the first fault of a list that isn't in the grammar, or out of memory.
pub fn compile<T: Tables, A: Allocator + Clone>(
    alloc: A,
    events: &[Event],
    bytes: &[u8],
    options: &CompileOptions,
    tables: &T,
) -> Result<String<A>, CompileError>
    ensures right { OnOk result (MatchesGrammar (T.reference_of tables.now) bytes.now events.now) }
    ensures passes { MatchesGrammar (T.reference_of tables.now) bytes.now events.now → IfErr result (λ error. error ≡ Memory) }
    ensures fault { IfErr result (λ error. Refuses error (fault (T.reference_of tables.now) bytes.now events.now)) }
    ensures page { IfOk result (λ html. string_bytes html ≡ html_of_events (T.reference_of tables.now) options.now bytes.now events.now) }
    ensures safe { AreSafe options.now → keeps_listed_html options.now ≡ false → IfOk result (λ html. HasOneReadingBy (table_of options.now) (string_bytes html)) }
    ensures listed { AreSafe options.now → IfOk result (λ html. HasOneListedReading (table_of options.now) (string_bytes html)) }
{
    let checked = check_events(alloc.clone()?, events, bytes, tables)?;
    let html = compile_checked(alloc, checked, options)?;
    Ok(html)
}

/// Returns the HTML of the page that a checked list of events spells. Fails out of memory.
///
/// It is for tools that print one list several times, or check it themselves: [`compile`] is
/// [`check_events`] and this.
pub fn compile_checked<T: Tables, A: Allocator + Clone>(
    alloc: A,
    checked: Checked<'_, T>,
    options: &CompileOptions,
) -> Result<String<A>, AllocError>
    ensures page { let names = T.reference_of checked.entry.tables.now in
        MatchesGrammar names checked.entry.bytes.now checked.entry.events.now →
        IfOk result (λ html. string_bytes html ≡ html_of_events names options.now checked.entry.bytes.now checked.entry.events.now) }
    ensures safe { MatchesGrammar (T.reference_of checked.entry.tables.now) checked.entry.bytes.now checked.entry.events.now → AreSafe options.now →
        keeps_listed_html options.now ≡ false → IfOk result (λ html. HasOneReadingBy (table_of options.now) (string_bytes html)) }
    ensures listed { MatchesGrammar (T.reference_of checked.entry.tables.now) checked.entry.bytes.now checked.entry.events.now → AreSafe options.now →
        IfOk result (λ html. HasOneListedReading (table_of options.now) (string_bytes html)) }
{
    let events = checked.events();
    let bytes = checked.bytes();
    let tables = checked.tables();
    let defined = read_definitions(alloc.clone()?, bytes, tables, events)?;
    let links = defined.links()?;
    let footnotes = footnote_labels(alloc.clone()?, bytes, events)?;
    let on = Constructs::default();
    let source = Source {
        checked,
        options,
        tables,
        on: &on,
        labels: &defined.labels,
        links: &links,
        footnotes: &footnotes,
    };
    let page = print(alloc.clone()?, &source)?;
    let html = with_listed(alloc, page, options, tables)?;
    Ok(html)
}

/// Prints the page of a list by what is known of it: raw HTML that is kept by the list stands on it as
/// text in elements without a name.
fn print<T: Tables, A: Allocator + Clone>(
    alloc: A,
    source: &Source<'_, T, A>,
) -> Result<String<A>, AllocError>
    ensures { (m : Meaning) (ds : List Definition) (ns : Nodes) →
        let names = T.reference_of source.now.tables.now in
        let bytes = source.now.checked.bytes.now in
        IsMeant names source.now ds m → source.now.checked.events.now ≡ events_of ns → AreSound bytes ns → HoldLists bytes ns → HaveNumbers bytes ns →
        IfOk result (λ html. string_bytes html ≡ page_layout m.compile (default_ending m.compile bytes) (document_pieces m (page_of names bytes ns))) }
{
    let events = source.checked.events();
    let bytes = source.checked.bytes();
    let loose = loose_lists(alloc.clone()?, bytes, events)?;
    let ending = default_ending(bytes, source.options.default_line_ending);
    let mut printer = Printer::new(alloc, room(bytes.len()), ending, loose)?;
    printer.events(source)?;
    let Printer { leaves, .. } = printer;
    leaves.finish(source.options)
}

/// The first line ending of the text, or the other one if it has none.
fn default_ending(bytes: &[u8], other: LineEnding) -> LineEnding
    ensures { result ≡ unwrap_or (first_line (without_mark bytes.now)).ending other }
{
    let end = next_of(bytes, ENDS);
    if end >= bytes.len() {
        other
    } else if bytes[end] == b'\n' {
        LineEnding::LineFeed
    } else if end + 1 < bytes.len() && bytes[end + 1] == b'\n' {
        LineEnding::CarriageReturnLineFeed
    } else {
        LineEnding::CarriageReturn
    }
}

/// The initial capacity of a page, in bytes: the size of the text, and some for tags and
/// references.
fn room(size: usize) -> usize {
    size.saturating_add(size / 4).saturating_add(64)
}
