//! Ranks of headings (CommonMark 4.2 and 4.3).
ghost use Rattle.std.specs.Prelude.{◌≡◌, ◌≤◌, ◌==◌, if◌then◌else◌, true, slice_index};
ghost use Rattle.definition_inline.specs.CharacterReference.{Names};
ghost use Rattle.engine_events.specs.Names.{same_name};
ghost use Rattle.engine_events.specs.declared.event.Name.TheVariants as n;
ghost use Rattle.event_grammar.specs.Facts.{is_size};
ghost use Rattle.event_grammar.specs.Trees.{Nodes, events_of};
ghost use Rattle.compile_raw.specs.Sound.{AreSound};
ghost use Rattle.event_meaning.specs.Children.{text_in};
ghost use Rattle.markdown_outline.specs.Rank.{is_heading, page_heading, rank_of};

use compile_levels::node::kids_in;
use compile_raw::piece::piece_in;
use engine_events::event::{Event, Name};

/// Whether an event of this name is a heading.
pub(crate) fn is_heading(name: Name) -> bool
    ensures { result ≡ is_heading name }
{
    name == Name::HeadingAtx || name == Name::HeadingSetext
}

/// The rank of a heading of this name, by the events in it.
pub(crate) fn rank_of(name: Name, bytes: &[u8], inside: &[Event]) -> u8
    ensures { (names : Names) (kids : Nodes) → AreSound bytes.now kids → inside.now ≡ events_of kids →
        (same_name name n.HeadingAtx ≡ true → is_size 6 (text_in bytes.now n.HeadingAtxSequence kids) ≡ true) →
        result ≡ rank_of (page_heading names bytes.now name kids) }
{
    if name == Name::HeadingAtx {
        let sequence = piece_in(bytes, inside, Name::HeadingAtxSequence);
        return sequence_rank(sequence.len());
    }
    let underline = kids_in(inside, Name::HeadingSetextUnderline);
    let line = piece_in(bytes, underline, Name::HeadingSetextUnderlineSequence);
    underline_rank(line)
}

/// The rank of a heading by the size of its sequence, which is from 1 to 6.
fn sequence_rank(size: usize) -> u8
    ensures { 1 ≤ size → size ≤ 6 → result ≡ size }
{
    match size {
        0 | 1 => 1,
        2 => 2,
        3 => 3,
        4 => 4,
        5 => 5,
        _ => 6,
    }
}

/// The rank of a heading by its underline: 2 by hyphens.
fn underline_rank(line: &[u8]) -> u8
    ensures { result ≡ (if slice_index line.now 0 == 45 then 2 else 1) }
{
    if !line.is_empty() && line[0] == b'-' {
        2
    } else {
        1
    }
}
