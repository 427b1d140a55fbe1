//! Raw text of lines (CommonMark 6.1 and 6.6).
ghost use Rattle.std.specs.Prelude.{◌≡◌, ◌++◌, ◌<◌, IfOk, List, OnOk, length, true, ℕ};
ghost use Rattle.std.specs.List.{position_or_len};
ghost use Rattle.std.specs.Str.{IsUtf8};
ghost use Rattle.definition_text.specs.Lines.{ends_line};
ghost use Rattle.definition_inline.specs.CharacterReference.{Names};
ghost use Rattle.parse_output.specs.Children.{holds_lines, may_enter};
ghost use Rattle.parse_inline.specs.Lines.{AreCutBetween, IsChunk, WritesLine, WritesLines};
ghost use Rattle.parse_lines.specs.InContent.{StandsInContent, Stop};
ghost use Rattle.parse_lines.specs.Open.{still_open};

use engine_events::event::Name;
use inline_leaves::line_ending::ending_at;
use parse_lines::Walk;
use parse_lines::cut::bytes_from;
use std::alloc::{AllocError, Allocator};
use text_bytes::white_size;
use text_search::{BytePair, next_of};

/// The bytes that begin an ending: LF and CR.
const ENDS: BytePair = BytePair {
    first: b'\n',
    second: b'\r',
};

/// Bytes by a name, and the endings between their lines. White space after an ending may stand apart.
pub(crate) fn push_lines<A: Allocator>(
    walk: &mut Walk<'_, A>,
    name: Name,
    bytes: &[u8],
    indented: bool,
) -> Result<(), AllocError>
    requires child { may_enter (still_open walk.old) name ≡ true }
    requires lines { holds_lines (still_open walk.old) ≡ true }
    ensures open { OnOk result (still_open walk.new ≡ still_open walk.old) }
    ensures written { OnOk result ((names : Names) (text content : List ℕ) (stop : Stop) → IsChunk name → IsUtf8 bytes.now → AreCutBetween bytes.now content
        → StandsInContent text (bytes.now ++ content) stop walk.old → WritesLines names text name indented bytes.now content stop walk.old walk.new) }
{
    let mut rest = bytes;
    while !rest.is_empty() {
        let size = push_line(walk, name, rest, indented)?;
        rest = bytes_from(rest, size.max(1));
    }
    Ok(())
}

/// An ending, or what comes before one. Answers its size.
#[tactic(auto, using(parse_output::proofs::Classes::lines_may))]
fn push_line<A: Allocator>(
    walk: &mut Walk<'_, A>,
    name: Name,
    bytes: &[u8],
    indented: bool,
) -> Result<usize, AllocError>
    requires child { may_enter (still_open walk.old) name ≡ true }
    requires lines { holds_lines (still_open walk.old) ≡ true }
    ensures open { OnOk result (still_open walk.new ≡ still_open walk.old) }
    ensures written { IfOk result (λ size. (names : Names) (text content : List ℕ) (stop : Stop) → IsChunk name → 0 < length bytes.now
        → IsUtf8 bytes.now → AreCutBetween bytes.now content → StandsInContent text (bytes.now ++ content) stop walk.old
        → WritesLine names text name indented size bytes.now content stop walk.old walk.new) }
{
    let Some(found) = ending_at(bytes) else {
        let size = line_size(bytes);
        walk.text(name, size)?;
        return Ok(size);
    };
    walk.content_ending(Name::LineEnding, found.size)?;
    if !indented {
        return Ok(found.size);
    }
    let white = white_size(bytes_from(bytes, found.size));
    walk.text(Name::SpaceOrTab, white)?;
    Ok(found.size.saturating_add(white))
}

/// How many bytes come before the first LF or CR.
fn line_size(bytes: &[u8]) -> usize
    ensures { result ≡ position_or_len ends_line bytes.now }
{
    next_of(bytes, ENDS)
}
