//! Link reference definitions (CommonMark 4.7).
//!
//!     definition ::= label ':' white destination (white title)?
ghost use Rattle.std.specs.Prelude.{◌≡◌, List, OnOk, Option, true, ℕ};
ghost use Rattle.definition_text.specs.Content.{content_codes};
ghost use Rattle.definition_inline.specs.Definition.{Definition as LinkDefinition};
ghost use Rattle.engine_events.specs.declared.event.Name.TheVariants.{DefinitionDestination, DefinitionLabel, DefinitionMarker, DefinitionTitle};
ghost use Rattle.parse_output.specs.Children.{holds_lines, may_enter};
ghost use Rattle.parse_lines.specs.InContent.{IsWhole, StandsInContent, Stop};
ghost use Rattle.parse_lines.specs.Open.{still_open};
ghost use Rattle.parse_links.specs.Definition.{EndsWithTitle, FillsDefinition, FillsEnd, FillsPlace, IsDefinition, IsTarget};
ghost use Rattle.parse_links.specs.Definition.{SpellsDefinition, SpellsEnd, SpellsPlace, WritesParts};

use crate::destination::push_destination;
use crate::names::{DEFINITION, LABEL};
use crate::quoted::push_quoted;
use crate::resource::{last, without_last};
use crate::white::push_white;
use engine_events::event::Name;
use inline_links::destination::destination;
use inline_links::label::label;
use inline_links::space::white;
use inline_links::title::title as title_at;
use markdown_options::{Constructs, Tables};
use parse_lines::Walk;
use parse_lines::cut::bytes_from;
use std::alloc::{AllocError, Allocator};

/// The parts of a definition that a text is, which begins with its label. White space at its end isn't
/// written.
pub fn push_definition<T: Tables, A: Allocator>(
    walk: &mut Walk<'_, A>,
    on: &Constructs,
    tables: &T,
    text: &str,
) -> Result<(), AllocError>
    requires label { may_enter (still_open walk.old) DefinitionLabel ≡ true }
    requires marker { may_enter (still_open walk.old) DefinitionMarker ≡ true }
    requires destination { may_enter (still_open walk.old) DefinitionDestination ≡ true }
    requires title { may_enter (still_open walk.old) DefinitionTitle ≡ true }
    requires lines { holds_lines (still_open walk.old) ≡ true }
    ensures open { OnOk result (still_open walk.new ≡ still_open walk.old) }
    ensures written { OnOk result ((bytes : List ℕ) (d : LinkDefinition) (stop : Stop) → IsDefinition (content_codes text.now) d
        → StandsInContent bytes text.now stop walk.old → IsWhole walk.old
        → let names = T.reference_of tables.now in
        WritesParts on.now names bytes text.now (SpellsDefinition on.now names bytes d) FillsDefinition stop walk.old walk.new) }
{
    let Some(found) = label(text.as_bytes()) else {
        return Ok(());
    };
    push_quoted(
        walk,
        on,
        tables,
        &LABEL,
        without_last(text, found.rest.len()),
    )?;
    walk.text(Name::DefinitionMarker, 1)?;
    let rest = push_white(walk, bytes_from(found.rest, 1))?;
    push_target(walk, on, tables, last(text, rest.len()))
}

/// The destination, and the title if there is one.
#[tactic(auto, unfolding(parse_output::specs::Children::may_hold, parse_output::specs::Children::has_string))]
fn push_target<T: Tables, A: Allocator>(
    walk: &mut Walk<'_, A>,
    on: &Constructs,
    tables: &T,
    text: &str,
) -> Result<(), AllocError>
    requires destination { may_enter (still_open walk.old) DefinitionDestination ≡ true }
    requires title { may_enter (still_open walk.old) DefinitionTitle ≡ true }
    requires lines { holds_lines (still_open walk.old) ≡ true }
    ensures open { OnOk result (still_open walk.new ≡ still_open walk.old) }
    ensures written { OnOk result ((bytes place : List ℕ) (title : Option (List ℕ)) (stop : Stop) → IsTarget (content_codes text.now) place title
        → StandsInContent bytes text.now stop walk.old → IsWhole walk.old
        → let names = T.reference_of tables.now in
        WritesParts on.now names bytes text.now (SpellsPlace on.now names bytes place title) FillsPlace stop walk.old walk.new) }
{
    let Some(place) = destination(text.as_bytes(), None) else {
        return Ok(());
    };
    push_destination(
        walk,
        on,
        tables,
        &DEFINITION,
        without_last(text, place.rest.len()),
    )?;
    push_title(walk, on, tables, last(text, place.rest.len()))
}

/// The title after white space, if there is one.
#[tactic(auto, unfolding(parse_output::specs::Children::may_hold, parse_output::specs::Children::has_string))]
fn push_title<T: Tables, A: Allocator>(
    walk: &mut Walk<'_, A>,
    on: &Constructs,
    tables: &T,
    text: &str,
) -> Result<(), AllocError>
    requires title { may_enter (still_open walk.old) DefinitionTitle ≡ true }
    requires lines { holds_lines (still_open walk.old) ≡ true }
    ensures open { OnOk result (still_open walk.new ≡ still_open walk.old) }
    ensures written { OnOk result ((bytes : List ℕ) (title : Option (List ℕ)) (stop : Stop) → EndsWithTitle title (content_codes text.now)
        → StandsInContent bytes text.now stop walk.old → IsWhole walk.old
        → let names = T.reference_of tables.now in
        WritesParts on.now names bytes text.now (SpellsEnd on.now names bytes title) FillsEnd stop walk.old walk.new) }
{
    let Some(found) = title_at(white(text.as_bytes())) else {
        return Ok(());
    };
    let rest = push_white(walk, text.as_bytes())?;
    let title = without_last(last(text, rest.len()), found.rest.len());
    push_quoted(walk, on, tables, &DEFINITION.title, title)
}
