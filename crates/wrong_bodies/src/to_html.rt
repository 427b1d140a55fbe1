//! A list of events to HTML.
ghost use Rattle.std.specs.Prelude.{◌≡◌, IfErr, IfOk, OnOk, false, string_bytes};
ghost use Rattle.markdown_compile_options.specs.RawHtml.{keeps_listed_html};
ghost use Rattle.event_meaning.specs.Spelled.{html_of_events};
ghost use Rattle.html_listed.specs.Laws.{HasOneListedReading};
ghost use Rattle.laws_safe_page.specs.SafeHtml.{AreSafe, HasOneReadingBy, table_of};
ghost use Rattle.event_faults.specs.Faults.{fault};
ghost use Rattle.event_check.specs.Matches.{MatchesGrammar};
ghost use Rattle.event_check.specs.Checked.{Refuses};
ghost use Rattle.event_check.specs.declared.error.CompileError.TheVariants.{Memory};

use engine_events::Event;
use event_check::CompileError;
use markdown_compile_options::CompileOptions;
use markdown_options::Tables;
use std::alloc::Allocator;

/// `compile_html::compile`: a list that is refused has no page.
pub fn compile<T: Tables, A: Allocator + Clone>(
    alloc: A,
    events: &[Event],
    bytes: &[u8],
    options: &CompileOptions,
    tables: &T,
) -> Result<String<A>, CompileError>
    ensures right { OnOk result (MatchesGrammar (T.reference_of tables.now) bytes.now events.now) }
    ensures passes { MatchesGrammar (T.reference_of tables.now) bytes.now events.now → IfErr result (λ error. error ≡ Memory) }
    ensures fault { IfErr result (λ error. Refuses error (fault (T.reference_of tables.now) bytes.now events.now)) }
    ensures page { IfOk result (λ html. string_bytes html ≡ html_of_events (T.reference_of tables.now) options.now bytes.now events.now) }
    ensures safe { AreSafe options.now → keeps_listed_html options.now ≡ false → IfOk result (λ html. HasOneReadingBy (table_of options.now) (string_bytes html)) }
    ensures listed { AreSafe options.now → IfOk result (λ html. HasOneListedReading (table_of options.now) (string_bytes html)) }
{
    compile_html::compile(alloc, events, bytes, options, tables)
}
