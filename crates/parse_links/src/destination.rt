//! Destinations (CommonMark 6.3).
//!
//!     destination ::= '<' string '>' | string
ghost use Rattle.std.specs.Prelude.{◌≡◌, ◌<◌, ◌++◌, List, OnOk, length, true, ℕ};
ghost use Rattle.parse_output.specs.Children.{may_enter};
ghost use Rattle.parse_lines.specs.InContent.{IsWhole, StandsInContent, Stop};
ghost use Rattle.parse_lines.specs.Open.{still_open};
ghost use Rattle.parse_strings.specs.Strings.{AreCutApart};
ghost use Rattle.parse_links.specs.Quoted.{WritesRaw};
ghost use Rattle.parse_links.specs.Destination.{IsPlace, WritesDestination, WritesInner};

use crate::names::Names;
use crate::quoted::push_quoted;
use markdown_options::{Constructs, Tables};
use parse_lines::Walk;
use parse_lines::cut::first;
use parse_strings::push_string;
use std::alloc::{AllocError, Allocator};

/// A destination, with its delimiters.
#[tactic(auto, using(parse_output::proofs::Marks::same_self, parse_output::proofs::Classes::enters_in, parse_output::proofs::Classes::string_in, parse_output::proofs::Rows::held_row))]
pub fn push_destination<T: Tables, A: Allocator>(
    walk: &mut Walk<'_, A>,
    on: &Constructs,
    tables: &T,
    names: &Names,
    text: &str,
) -> Result<(), AllocError>
    requires child { may_enter (still_open walk.old) names.now.destination ≡ true }
    ensures open { OnOk result (still_open walk.new ≡ still_open walk.old) }
    ensures written { OnOk result ((bytes string content : List ℕ) (stop : Stop) → IsPlace string text.now
        → StandsInContent bytes (text.now ++ content) stop walk.old → IsWhole walk.old
        → WritesDestination on.now (T.reference_of tables.now) bytes names.now string text.now content stop walk.old walk.new) }
{
    walk.enter(names.destination)?;
    push_inner(walk, on, tables, names, text)?;
    walk.exit(names.destination)
}

/// The same between angle brackets, or without.
fn push_inner<T: Tables, A: Allocator>(
    walk: &mut Walk<'_, A>,
    on: &Constructs,
    tables: &T,
    names: &Names,
    text: &str,
) -> Result<(), AllocError>
    requires literal { may_enter (still_open walk.old) names.now.literal.outer ≡ true }
    requires raw { may_enter (still_open walk.old) names.now.raw ≡ true }
    ensures open { OnOk result (still_open walk.new ≡ still_open walk.old) }
    ensures written { OnOk result ((bytes string content : List ℕ) (stop : Stop) → IsPlace string text.now
        → StandsInContent bytes (text.now ++ content) stop walk.old → IsWhole walk.old
        → WritesInner on.now (T.reference_of tables.now) bytes names.now string text.now content stop walk.old walk.new) }
{
    if first(text.as_bytes()) == b'<' {
        push_quoted(walk, on, tables, &names.literal, text)
    } else {
        push_raw(walk, on, tables, names, text)
    }
}

/// A destination without brackets.
#[tactic(auto, using(parse_output::proofs::Rows::string_parts))]
fn push_raw<T: Tables, A: Allocator>(
    walk: &mut Walk<'_, A>,
    on: &Constructs,
    tables: &T,
    names: &Names,
    text: &str,
) -> Result<(), AllocError>
    requires child { may_enter (still_open walk.old) names.now.raw ≡ true }
    ensures open { OnOk result (still_open walk.new ≡ still_open walk.old) }
    ensures written { OnOk result ((bytes content : List ℕ) (stop : Stop) → AreCutApart text.now content → 0 < length text.now
        → StandsInContent bytes (text.now ++ content) stop walk.old → IsWhole walk.old
        → let known = T.reference_of tables.now in
        WritesRaw on.now known bytes names.now.raw names.now.literal.string text.now content stop walk.old walk.new) }
{
    walk.enter(names.raw)?;
    walk.enter(names.literal.string)?;
    push_string(walk, on, tables, text)?;
    walk.exit(names.literal.string)?;
    walk.exit(names.raw)
}
