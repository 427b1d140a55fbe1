//! Full and collapsed references (CommonMark 6.3).
//!
//!     reference ::= label | '[]' | nothing
ghost use Rattle.std.specs.Prelude.{◌≡◌, List, MatchOption, OnOk, true, ℕ};
ghost use Rattle.definition_text.specs.Content.{content_codes};
ghost use Rattle.definition_inline.specs.Label.{label_at};
ghost use Rattle.engine_events.specs.declared.event.Name.TheVariants.{Reference};
ghost use Rattle.parse_output.specs.Children.{may_enter};
ghost use Rattle.parse_lines.specs.InContent.{IsWhole, StandsInContent, Stop};
ghost use Rattle.parse_lines.specs.Open.{still_open};
ghost use Rattle.parse_links.specs.Tails.{FillsTail, FrontsReference, IsShortcut, SpellsReference, WritesTail, after_reference, is_collapsed};

use crate::names::REFERENCE;
use crate::quoted::push_quoted;
use crate::resource::without_last;
use inline_links::label::label;
use markdown_options::{Constructs, Tables};
use parse_lines::Walk;
use parse_lines::cut::{bytes_from, first, up_to};
use std::alloc::{AllocError, Allocator};

/// The reference that a text begins with, if it does.
pub fn push_link_reference<T: Tables, A: Allocator>(
    walk: &mut Walk<'_, A>,
    on: &Constructs,
    tables: &T,
    text: &str,
) -> Result<(), AllocError>
    requires child { may_enter (still_open walk.old) Reference ≡ true }
    ensures open { OnOk result (still_open walk.new ≡ still_open walk.old) }
    ensures written { OnOk result ((bytes : List ℕ) (stop : Stop) → StandsInContent bytes text.now stop walk.old → IsWhole walk.old
        → let names = T.reference_of tables.now in let content = content_codes text.now in let label = label_at content in
        WritesTail on.now names bytes text.now (SpellsReference bytes label) FillsTail (after_reference label content) stop walk.old walk.new) }
{
    let Some(reference) = reference_front(text) else {
        return Ok(());
    };
    push_quoted(walk, on, tables, &REFERENCE, reference)
}

/// The label or the two brackets that a text begins with.
fn reference_front(text: &str) -> Option<&str>
    ensures { MatchOption result (IsShortcut text.now) (λ front. FrontsReference text.now front.now) }
{
    match label(text.as_bytes()) {
        Some(part) => Some(without_last(text, part.rest.len())),
        None => {
            if is_collapsed(text.as_bytes()) {
                Some(up_to(text, 2))
            } else {
                None
            }
        }
    }
}

/// Whether two brackets come first.
fn is_collapsed(bytes: &[u8]) -> bool
    ensures { result ≡ is_collapsed bytes.now }
{
    first(bytes) == b'[' && first(bytes_from(bytes, 1)) == b']'
}
