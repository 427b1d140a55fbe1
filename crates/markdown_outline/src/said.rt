//! What a text says, by its events.
ghost use Rattle.std.specs.Prelude.{◌≡◌, ◌++◌, [], OnOk, false, string_bytes};
ghost use Rattle.event_grammar.specs.Trees.{Nodes, events_of};
ghost use Rattle.event_meaning.specs.Texts.{inlines_of};
ghost use Rattle.inline_labels.specs.Table.{HasLabels};
ghost use Rattle.compile_strings.specs.Columns.{AreCounted};
ghost use Rattle.compile_raw.specs.Sound.{AreSound};
ghost use Rattle.html_heading_text.specs.HeadingLines.{heading_lines};

use compile_rows::{Columns, SpelledStrings, TextEvents, text_rows};
use engine_events::event::Event;
use html_heading_text::push_heading_lines;
use markdown_options::Tables;
use std::alloc::{AllocError, Allocator};

/// Appends what the text of these events says. `room` is overwritten.
pub(crate) fn push_said<T: Tables, A: Allocator + Clone>(
    alloc: A,
    out: &mut String<A>,
    room: &mut String<A>,
    columns: &mut Columns,
    texts: &TextEvents<'_, T, A>,
    events: &[Event],
) -> Result<(), AllocError>
    requires { AreCounted texts.now.bytes.now columns.old }
    ensures counted { AreCounted texts.now.bytes.now columns.new }
    ensures said { (kids : Nodes) → let names = T.reference_of texts.now.tables.now in let bytes = texts.now.bytes.now in
        texts.now.linked ≡ false → HasLabels texts.now.definitions.now [] → AreSound bytes kids → events.now ≡ events_of kids →
        OnOk result (string_bytes out.new ≡ string_bytes out.old ++ heading_lines (inlines_of names bytes false kids)) }
{
    let strings = SpelledStrings::read(alloc.clone()?, texts, columns, events)?;
    let rows = text_rows(alloc, texts, &strings, events)?;
    push_heading_lines(out, room, &rows)
}
