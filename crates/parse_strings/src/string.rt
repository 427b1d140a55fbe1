//! Strings, in which only escapes and references are read (CommonMark 2.4 and 2.5).
ghost use Rattle.std.specs.Prelude.{◌≡◌, ◌<◌, ◌++◌, IfOk, List, None, OnOk, length, true, ℕ};
ghost use Rattle.std.specs.List.{prefix_len};
ghost use Rattle.std.specs.Str.{IsUtf8};
ghost use Rattle.markdown_options.specs.declared.configuration.Constructs.{Constructs};
ghost use Rattle.definition_text.specs.Content.{content_codes};
ghost use Rattle.definition_inline.specs.CharacterEscape.{escape_at};
ghost use Rattle.definition_inline.specs.CharacterReference.{Names, reference_at};
ghost use Rattle.engine_events.specs.declared.event.Name.TheVariants.{Data};
ghost use Rattle.parse_output.specs.Children.{holds_string, may_enter};
ghost use Rattle.parse_lines.specs.Open.{still_open};
ghost use Rattle.parse_lines.specs.InContent.{IsWhole, StandsInContent, Stop};
ghost use Rattle.parse_strings.specs.Strings.{AreCutApart, NoLeaf, WritesStringIn, WritesStringPart, is_ink};

use crate::character_escape::push_escape;
use crate::character_reference::push_reference;
use engine_events::event::Name;
use inline_leaves::character_escape::escape_at;
use inline_leaves::character_reference::reference_at;
use inline_leaves::line_ending::ending_at;
use markdown_options::{Constructs, Tables};
use parse_lines::Walk;
use parse_lines::cut::{bytes_from, from};
use std::alloc::{AllocError, Allocator};
use text_bytes::white_size;
use text_search::{ByteSet, next_of};

/// The bytes in which something may begin: a backslash, `&`, LF, CR, a space and a tab.
const STARTS: ByteSet = ByteSet {
    first: [
        b' ', 2, 3, 4, 5, 6, b'&', 8, 9, b'\t', b'\n', 12, b'\\', b'\r', 15, 0,
    ],
    second: [1, 2, 3, 4, 5, 6, 7, 8, 9, 10, 11, 12, 13, 14, 15, 0],
};

/// A string, which comes next in a content.
pub fn push_string<T: Tables, A: Allocator>(
    walk: &mut Walk<'_, A>,
    on: &Constructs,
    tables: &T,
    string: &str,
) -> Result<(), AllocError>
    requires string { holds_string (still_open walk.old) ≡ true }
    ensures open { OnOk result (still_open walk.new ≡ still_open walk.old) }
    ensures written { OnOk result ((text content : List ℕ) (stop : Stop) → AreCutApart string.now content
        → StandsInContent text (string.now ++ content) stop walk.old → IsWhole walk.old
        → WritesStringIn (T.reference_of tables.now) on.now text string.now content stop walk.old walk.new) }
{
    let mut rest = string;
    while !rest.is_empty() {
        let size = push_part(walk, on, tables, rest)?;
        rest = from(rest, size.max(1));
    }
    Ok(())
}

/// The part that a string begins with. Answers its size.
#[tactic(auto, using(parse_output::proofs::Classes::string_may))]
fn push_part<T: Tables, A: Allocator>(
    walk: &mut Walk<'_, A>,
    on: &Constructs,
    tables: &T,
    rest: &str,
) -> Result<usize, AllocError>
    requires string { holds_string (still_open walk.old) ≡ true }
    ensures open { OnOk result (still_open walk.new ≡ still_open walk.old) }
    ensures written { IfOk result (λ size. (text content : List ℕ) (stop : Stop) → 0 < length rest.now → AreCutApart rest.now content
        → StandsInContent text (rest.now ++ content) stop walk.old → IsWhole walk.old
        → WritesStringPart on.now (T.reference_of tables.now) text rest.now content size stop walk.old walk.new) }
{
    if escape_at(on, rest).is_some() {
        push_escape(walk)?;
        return Ok(2);
    }
    if let Some(found) = reference_at(on, tables, rest) {
        let size = rest.len().saturating_sub(found.after.len());
        push_reference(walk, rest.as_bytes(), size)?;
        return Ok(size);
    }
    push_white_or_data(walk, rest.as_bytes())
}

/// White space at the end of a line, a line ending and the white space after it, or data. Answers its
/// size.
#[tactic(auto, using(parse_output::proofs::Classes::string_may, parse_output::proofs::Classes::string_lines))]
fn push_white_or_data<A: Allocator>(
    walk: &mut Walk<'_, A>,
    bytes: &[u8],
) -> Result<usize, AllocError>
    requires string { holds_string (still_open walk.old) ≡ true }
    ensures open { OnOk result (still_open walk.new ≡ still_open walk.old) }
    ensures written { IfOk result (λ size. (on : Constructs) (names : Names) (text content : List ℕ) (stop : Stop) → 0 < length bytes.now
        → IsUtf8 bytes.now → escape_at on (content_codes bytes.now) ≡ None → reference_at on names (content_codes bytes.now) ≡ None
        → AreCutApart bytes.now content → StandsInContent text (bytes.now ++ content) stop walk.old → IsWhole walk.old
        → WritesStringPart on names text bytes.now content size stop walk.old walk.new) }
{
    if let Some(found) = ending_at(bytes) {
        walk.content_ending(Name::LineEnding, found.size)?;
        let white = white_size(bytes_from(bytes, found.size));
        walk.text(Name::SpaceOrTab, white)?;
        return Ok(found.size.saturating_add(white));
    }
    let white = white_size(bytes);
    if ending_at(bytes_from(bytes, white)).is_some() {
        walk.text(Name::SpaceOrTab, white)?;
        return Ok(white);
    }
    push_data(walk, bytes)
}

/// The first byte and those after it in which nothing may begin. Answers their size.
fn push_data<A: Allocator>(walk: &mut Walk<'_, A>, bytes: &[u8]) -> Result<usize, AllocError>
    requires child { may_enter (still_open walk.old) Data ≡ true }
    ensures open { OnOk result (still_open walk.new ≡ still_open walk.old) }
    ensures written { IfOk result (λ size. (on : Constructs) (names : Names) (text content : List ℕ) (stop : Stop) → 0 < length bytes.now
        → IsUtf8 bytes.now → NoLeaf on names (content_codes bytes.now) → StandsInContent text (bytes.now ++ content) stop walk.old → IsWhole walk.old
        → WritesStringPart on names text bytes.now content size stop walk.old walk.new) }
{
    let size = data_size(bytes_from(bytes, 1)).saturating_add(1);
    walk.data(size)?;
    Ok(size)
}

/// How many bytes come before the first in which something may begin.
fn data_size(bytes: &[u8]) -> usize
    ensures { result ≡ prefix_len is_ink bytes.now }
{
    next_of(bytes, STARTS)
}
