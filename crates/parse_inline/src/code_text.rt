//! Code spans (CommonMark 6.1), and math, which is the same with dollars.
//!
//!     raw ::= run text run, of the same size
ghost use Rattle.std.specs.Prelude.{◌≡◌, ◌<◌, ◌≤◌, ◌∷◌, [], ℕ, List, OnOk, false, length, true, unwrap_or};
ghost use Rattle.std.specs.Str.{IsUtf8};
ghost use Rattle.markdown_options.specs.declared.configuration.Constructs.{Constructs};
ghost use Rattle.definition_inline.specs.CharacterReference.{Names};
ghost use Rattle.definition_inline.specs.CodeText.{run_of};
ghost use Rattle.definition_text.specs.Runs.{run as run_size};
ghost use Rattle.parse_output.specs.Children.{has_lines, may_enter, may_hold};
ghost use Rattle.definition_text.specs.InlineCode.{InlineCode};
ghost use Rattle.parse_inline.specs.Leaves.{Anywhere, WritesLeaves};
ghost use Rattle.parse_inline.specs.Lines.{are_raw_names, is_raw_marker, raw_leaf};
ghost use Rattle.parse_lines.specs.InContent.{IsWhole, StandsInContent, Stop};
ghost use Rattle.parse_lines.specs.Open.{still_open};
ghost use Rattle.parse_written.specs.Bytes.{IsRawInBytes};

use crate::lines::push_lines;
use engine_events::event::Name;
use inline_links::part::from;
use parse_lines::Walk;
use parse_lines::cut::bytes_up_to;
use std::alloc::{AllocError, Allocator};
use text_bytes::run;
use text_search::{BytePair, next_of};

/// Raw text between two runs of a byte, by names of which the first may hold the others.
#[derive(Clone, Copy)]
pub(crate) struct Raw {
    marker: u8,
    text: Name,
    sequence: Name,
    chunk: Name,
    ghost holds_sequence: { may_hold text sequence ≡ true },
    ghost holds_chunk: { may_hold text chunk ≡ true },
    ghost may_go_on: { has_lines text ≡ true },
    ghost names: { are_raw_names marker text sequence chunk ≡ true },
    ghost mark: { is_raw_marker marker ≡ true },
}

pub(crate) const CODE: Raw = Raw {
    marker: b'`',
    text: Name::CodeText,
    sequence: Name::CodeTextSequence,
    chunk: Name::CodeTextData,
};

pub(crate) const MATH: Raw = Raw {
    marker: b'$',
    text: Name::MathText,
    sequence: Name::MathTextSequence,
    chunk: Name::MathTextData,
};

/// Raw text that bytes begin with. It ends at the next run of as many: a row has what is printed of it,
/// which may be shorter.
#[tactic(auto, using(crate::proofs::Rules::in_raw))]
pub(crate) fn push_raw<A: Allocator>(
    walk: &mut Walk<'_, A>,
    raw: &Raw,
    bytes: &[u8],
) -> Result<(), AllocError>
    requires child { may_enter (still_open walk.old) raw.now.text ≡ true }
    ensures open { OnOk result (still_open walk.new ≡ still_open walk.old) }
    ensures written { OnOk result ((on : Constructs) (names : Names) (text printed : List ℕ) (to : List InlineCode) (stop : Stop) → IsRawInBytes raw.now.marker printed bytes.now to
        → IsUtf8 bytes.now → StandsInContent text bytes.now stop walk.old → IsWhole walk.old
        → WritesLeaves on names text bytes.now Anywhere (raw_leaf raw.now.text printed ∷ []) to stop walk.old walk.new) }
{
    let size = run(raw.marker, bytes);
    let inside = from(bytes, size);
    let end = from_run(raw.marker, size, inside);
    let text = bytes_up_to(inside, inside.len().saturating_sub(end.len()));
    walk.enter(raw.text)?;
    walk.text(raw.sequence, size)?;
    push_lines(walk, raw.chunk, text, false)?;
    walk.text(raw.sequence, size)?;
    walk.exit(raw.text)
}

/// The bytes from the first run of exactly so many of a byte on. None, if there is no such run.
pub fn from_run(marker: u8, size: usize, bytes: &[u8]) -> &[u8]
    ensures { 0 < size → result.now ≡ unwrap_or (run_of marker size false bytes.now) [] }
{
    let mut rest = from_byte(marker, bytes);
    let mut found = run(marker, rest);
    while found != size && found > 0 {
        rest = from_byte(marker, from(rest, found));
        found = run(marker, rest);
    }
    rest
}

/// The bytes from the first of these on. None, if there is no such byte.
fn from_byte(marker: u8, bytes: &[u8]) -> &[u8]
    ensures same { (size : ℕ) → 0 < size → run_of marker size false result.now ≡ run_of marker size false bytes.now }
    ensures first { run_size marker result.now ≡ 0 → result.now ≡ [] }
    ensures shorter { length result.now ≤ length bytes.now }
{
    let marks = BytePair {
        first: marker,
        second: marker,
    };
    from(bytes, next_of(bytes, marks))
}
