//! Strings between two markers: titles, labels, and destinations in angle brackets (CommonMark 4.7 and
//! 6.3).
ghost use Rattle.std.specs.Prelude.{◌≡◌, ◌∷◌, ◌++◌, ◌<◌, [], List, OnOk, true, ℕ};
ghost use Rattle.event_tokens.specs.Tokens.{is_token};
ghost use Rattle.parse_output.specs.Children.{has_string, may_enter, may_hold};
ghost use Rattle.parse_lines.specs.InContent.{IsWhole, StandsInContent, Stop};
ghost use Rattle.parse_lines.specs.Open.{still_open};
ghost use Rattle.parse_strings.specs.Strings.{AreCutApart};
ghost use Rattle.parse_links.specs.Quoted.{IsMark, WritesHeld, WritesQuoted, are_own};

use engine_events::event::Name;
use markdown_options::{Constructs, Tables};
use parse_lines::Walk;
use parse_lines::cut::{from, up_to};
use parse_strings::push_string;
use std::alloc::{AllocError, Allocator};

/// The name of what is between two markers and has a string in it, that of its markers, and that of
/// the string.
#[derive(Clone, Copy)]
pub struct Quoted {
    pub outer: Name,
    pub marker: Name,
    pub string: Name,
    ghost holds_marker: { may_hold outer marker ≡ true },
    ghost holds_string: { may_hold outer string ≡ true },
    ghost holds_parts: { has_string string ≡ true },
    ghost own: { are_own outer marker string ≡ true },
}

/// A string with a marker of one byte before it and one after it.
#[tactic(auto, using(parse_output::proofs::Marks::same_self, parse_output::proofs::Classes::enters_in, parse_output::proofs::Classes::string_in, parse_output::proofs::Rows::held_row))]
pub fn push_quoted<T: Tables, A: Allocator>(
    walk: &mut Walk<'_, A>,
    on: &Constructs,
    tables: &T,
    quoted: &Quoted,
    text: &str,
) -> Result<(), AllocError>
    requires child { may_enter (still_open walk.old) quoted.now.outer ≡ true }
    ensures open { OnOk result (still_open walk.new ≡ still_open walk.old) }
    ensures written { OnOk result ((bytes string content : List ℕ) (opening closing : ℕ) (stop : Stop) → text.now ≡ opening ∷ (string ++ closing ∷ [])
        → IsMark opening → IsMark closing → is_token quoted.now.marker (opening ∷ []) ≡ true → is_token quoted.now.marker (closing ∷ []) ≡ true
        → StandsInContent bytes (text.now ++ content) stop walk.old → IsWhole walk.old
        → let names = T.reference_of tables.now in let q = quoted.now in
        WritesQuoted on.now names bytes q.outer q.marker q.string string text.now content stop walk.old walk.new) }
{
    walk.enter(quoted.outer)?;
    walk.text(quoted.marker, 1)?;
    push_held(walk, on, tables, quoted, inside(text))?;
    walk.text(quoted.marker, 1)?;
    walk.exit(quoted.outer)
}

/// The string, if it isn't empty.
#[tactic(auto, using(parse_output::proofs::Marks::same_self, parse_output::proofs::Classes::enters_in, parse_output::proofs::Classes::string_in, parse_output::proofs::Rows::string_row))]
fn push_held<T: Tables, A: Allocator>(
    walk: &mut Walk<'_, A>,
    on: &Constructs,
    tables: &T,
    quoted: &Quoted,
    string: &str,
) -> Result<(), AllocError>
    requires child { may_enter (still_open walk.old) quoted.now.string ≡ true }
    ensures open { OnOk result (still_open walk.new ≡ still_open walk.old) }
    ensures written { OnOk result ((bytes content : List ℕ) (stop : Stop) → AreCutApart string.now content
        → StandsInContent bytes (string.now ++ content) stop walk.old → IsWhole walk.old
        → WritesHeld on.now (T.reference_of tables.now) bytes quoted.now.string string.now content stop walk.old walk.new) }
{
    if string.is_empty() {
        return Ok(());
    }
    walk.enter(quoted.string)?;
    push_string(walk, on, tables, string)?;
    walk.exit(quoted.string)
}

/// A text without its first and its last byte.
pub fn inside(text: &str) -> &str
    ensures { (string : List ℕ) (opening closing : ℕ) → text.now ≡ opening ∷ (string ++ closing ∷ []) → opening < 128 → closing < 128 → result.now ≡ string }
{
    let front = up_to(text, text.len().saturating_sub(1));
    from(front, 1)
}
