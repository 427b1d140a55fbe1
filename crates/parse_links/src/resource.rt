//! Resources (CommonMark 6.3).
//!
//!     resource ::= '(' white (destination (white title)? white)? ')'
ghost use Rattle.std.specs.Prelude.{◌≡◌, ◌≢◌, ◌<◌, ◌+◌, ◌^◌, ◌∷◌, ◌++◌, IfOk, List, OnOk, Some, length, slice_index, true, ℕ};
ghost use Rattle.definition_text.specs.Ascii.{less_than, right_parenthesis};
ghost use Rattle.std.specs.Str.{IsCharBoundary};
ghost use Rattle.definition_text.specs.Content.{Part, content_codes};
ghost use Rattle.definition_inline.specs.Destination.{destination_at};
ghost use Rattle.definition_inline.specs.Resource.{after_destination, resource_at, resource_inside};
ghost use Rattle.definition_inline.specs.Space.{after_white};
ghost use Rattle.definition_inline.specs.Title.{title_at};
ghost use Rattle.engine_events.specs.declared.event.Name.TheVariants.{Resource, ResourceDestination, ResourceTitle};
ghost use Rattle.parse_output.specs.Children.{holds_lines, may_enter};
ghost use Rattle.parse_lines.specs.InContent.{IsWhole, StandsInContent, Stop};
ghost use Rattle.parse_lines.specs.Open.{still_open};
ghost use Rattle.inline_links.specs.View.{resource_of};
ghost use Rattle.parse_links.specs.Tails.{FillsTail, FillsTarget, FillsTitle, SpellsResource, SpellsTarget, SpellsTitle, WritesPlace, WritesTail};

use crate::destination::push_destination;
use crate::names::RESOURCE;
use crate::quoted::push_quoted;
use crate::white::push_white;
use engine_events::event::Name;
use inline_links::resource::LinkResource;
use markdown_options::{Constructs, Tables};
use parse_lines::Walk;
use parse_lines::cut::{bytes_from, first, from, up_to};
use std::alloc::{AllocError, Allocator};

/// A resource that a text begins with, as it was found there.
#[tactic(auto, using(parse_output::proofs::Classes::enters_in, parse_output::proofs::Classes::lines_in), unfolding(parse_output::specs::Children::may_hold, parse_output::specs::Children::has_lines))]
pub fn push_resource<T: Tables, A: Allocator>(
    walk: &mut Walk<'_, A>,
    on: &Constructs,
    tables: &T,
    text: &str,
    found: &LinkResource<'_>,
) -> Result<(), AllocError>
    requires child { may_enter (still_open walk.old) Resource ≡ true }
    ensures open { OnOk result (still_open walk.new ≡ still_open walk.old) }
    ensures written { OnOk result ((bytes : List ℕ) (stop : Stop) → Some (resource_of found.now) ≡ resource_at (content_codes text.now)
        → StandsInContent bytes text.now stop walk.old → IsWhole walk.old
        → let names = T.reference_of tables.now in let Spells = SpellsResource on.now names bytes (resource_of found.now) in
        WritesTail on.now names bytes text.now Spells FillsTail (content_codes found.now.rest.now) stop walk.old walk.new) }
{
    walk.enter(Name::Resource)?;
    walk.text(Name::ResourceMarker, 1)?;
    let inside = push_white(walk, bytes_from(text.as_bytes(), 1))?;
    push_inside(walk, on, tables, last(text, inside.len()), found)?;
    walk.text(Name::ResourceMarker, 1)?;
    walk.exit(Name::Resource)
}

/// What a resource holds, up to its closing parenthesis.
#[tactic(auto, unfolding(parse_output::specs::Children::may_hold, parse_output::specs::Children::has_string))]
fn push_inside<T: Tables, A: Allocator>(
    walk: &mut Walk<'_, A>,
    on: &Constructs,
    tables: &T,
    text: &str,
    found: &LinkResource<'_>,
) -> Result<(), AllocError>
    requires destination { may_enter (still_open walk.old) ResourceDestination ≡ true }
    requires title { may_enter (still_open walk.old) ResourceTitle ≡ true }
    requires lines { holds_lines (still_open walk.old) ≡ true }
    ensures open { OnOk result (still_open walk.new ≡ still_open walk.old) }
    ensures written { OnOk result ((bytes : List ℕ) (stop : Stop) → Some (resource_of found.now) ≡ resource_inside (content_codes text.now)
        → StandsInContent bytes text.now stop walk.old → IsWhole walk.old
        → let names = T.reference_of tables.now in let Spells = SpellsTarget on.now names bytes (resource_of found.now) in
        WritesTail on.now names bytes text.now Spells FillsTarget (right_parenthesis ∷ content_codes found.now.rest.now) stop walk.old walk.new) }
{
    if first(text.as_bytes()) == b')' {
        return Ok(());
    }
    push_target(walk, on, tables, text, found)
}

/// A destination, and a title if there is one, with the white space after them.
#[tactic(auto, unfolding(parse_output::specs::Children::may_hold, parse_output::specs::Children::has_string))]
fn push_target<T: Tables, A: Allocator>(
    walk: &mut Walk<'_, A>,
    on: &Constructs,
    tables: &T,
    text: &str,
    found: &LinkResource<'_>,
) -> Result<(), AllocError>
    requires destination { may_enter (still_open walk.old) ResourceDestination ≡ true }
    requires title { may_enter (still_open walk.old) ResourceTitle ≡ true }
    requires lines { holds_lines (still_open walk.old) ≡ true }
    ensures open { OnOk result (still_open walk.new ≡ still_open walk.old) }
    ensures written { OnOk result ((bytes : List ℕ) (place : Part) (stop : Stop) → destination_at (Some 32) (content_codes text.now) ≡ Some place
        → Some (resource_of found.now) ≡ after_destination place → StandsInContent bytes text.now stop walk.old → IsWhole walk.old
        → let names = T.reference_of tables.now in let Spells = SpellsTarget on.now names bytes (resource_of found.now) in
        WritesTail on.now names bytes text.now Spells FillsTarget (right_parenthesis ∷ content_codes found.now.rest.now) stop walk.old walk.new) }
{
    let rest = push_place(walk, on, tables, text, found.destination)?;
    match found.title {
        Some(title) => push_title(walk, on, tables, last(text, rest.len()), title),
        None => Ok(()),
    }
}

/// A destination, and the white space after it. Answers what follows.
#[tactic(auto, unfolding(parse_output::specs::Children::may_hold, parse_output::specs::Children::has_string))]
fn push_place<'t, T: Tables, A: Allocator>(
    walk: &mut Walk<'_, A>,
    on: &Constructs,
    tables: &T,
    text: &'t str,
    destination: &[u8],
) -> Result<&'t [u8], AllocError>
    requires destination { may_enter (still_open walk.old) ResourceDestination ≡ true }
    requires lines { holds_lines (still_open walk.old) ≡ true }
    ensures open { OnOk result (still_open walk.new ≡ still_open walk.old) }
    ensures written { IfOk result (λ rest. (bytes : List ℕ) (place : Part) (stop : Stop) → destination_at (Some 32) (content_codes text.now) ≡ Some place
        → content_codes destination.now ≡ place.text → StandsInContent bytes text.now stop walk.old → IsWhole walk.old
        → WritesPlace on.now (T.reference_of tables.now) bytes place text.now rest.now stop walk.old walk.new) }
{
    let size = destination_size(text.as_bytes(), destination.len());
    push_destination(walk, on, tables, &RESOURCE, up_to(text, size))?;
    push_white(walk, bytes_from(text.as_bytes(), size))
}

/// A title, and the white space after it.
fn push_title<T: Tables, A: Allocator>(
    walk: &mut Walk<'_, A>,
    on: &Constructs,
    tables: &T,
    text: &str,
    title: &[u8],
) -> Result<(), AllocError>
    requires title { may_enter (still_open walk.old) ResourceTitle ≡ true }
    requires lines { holds_lines (still_open walk.old) ≡ true }
    ensures open { OnOk result (still_open walk.new ≡ still_open walk.old) }
    ensures written { OnOk result ((bytes : List ℕ) (read : Part) (stop : Stop) → title_at (content_codes text.now) ≡ Some read
        → content_codes title.now ≡ read.text → StandsInContent bytes text.now stop walk.old → IsWhole walk.old
        → let names = T.reference_of tables.now in let Spells = SpellsTitle on.now names bytes read.text in
        WritesTail on.now names bytes text.now Spells FillsTitle (after_white read.rest) stop walk.old walk.new) }
{
    let size = title.len().saturating_add(2);
    push_quoted(walk, on, tables, &RESOURCE.title, up_to(text, size))?;
    let _rest = push_white(walk, bytes_from(text.as_bytes(), size))?;
    Ok(())
}

/// How many bytes a destination has that bytes begin with, by those without its brackets.
fn destination_size(bytes: &[u8], size: usize) -> usize
    ensures angle { slice_index bytes.now 0 ≡ less_than → size + 2 < 2 ^ 64 → result ≡ size + 2 }
    ensures bare { slice_index bytes.now 0 ≢ less_than → result ≡ size }
{
    if first(bytes) == b'<' {
        size.saturating_add(2)
    } else {
        size
    }
}

/// The last bytes of a text, so many.
pub fn last(text: &str, count: usize) -> &str
    ensures { (front rest : List ℕ) → text.now ≡ front ++ rest → count ≡ length rest → IsCharBoundary text.now (length front) → result.now ≡ rest }
{
    from(text, text.len().saturating_sub(count))
}

/// A text without its last bytes, so many.
pub fn without_last(text: &str, count: usize) -> &str
    ensures { (front rest : List ℕ) → text.now ≡ front ++ rest → count ≡ length rest → IsCharBoundary text.now (length front) → result.now ≡ front }
{
    up_to(text, text.len().saturating_sub(count))
}
