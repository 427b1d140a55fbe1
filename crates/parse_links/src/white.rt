//! White space between the parts of links (CommonMark 4.7 and 6.3).
//!
//!     white  ::= spaces (ending spaces)?
//!     spaces ::= (space | tab)*
ghost use Rattle.std.specs.Prelude.{◌≡◌, IfOk, List, OnOk, true, ℕ};
ghost use Rattle.definition_text.specs.Content.{content_codes};
ghost use Rattle.definition_inline.specs.Space.{after_white};
ghost use Rattle.parse_output.specs.Children.{holds_lines};
ghost use Rattle.parse_lines.specs.InContent.{StandsInContent, Stop};
ghost use Rattle.parse_lines.specs.Open.{still_open};
ghost use Rattle.definition_text.specs.Columns.{bare};
ghost use Rattle.parse_links.specs.White.{WritesWhite};

use engine_events::event::Name;
use inline_leaves::line_ending::ending_at;
use parse_lines::Walk;
use parse_lines::cut::bytes_from;
use std::alloc::{AllocError, Allocator};
use text_bytes::white_size;

/// Spaces and tabs, with at most one line ending among them. Answers what follows.
#[tactic(auto, using(parse_output::proofs::Classes::lines_may))]
pub fn push_white<'b, A: Allocator>(
    walk: &mut Walk<'_, A>,
    bytes: &'b [u8],
) -> Result<&'b [u8], AllocError>
    requires lines { holds_lines (still_open walk.old) ≡ true }
    ensures open { OnOk result (still_open walk.new ≡ still_open walk.old) }
    ensures rest { IfOk result (λ rest. content_codes rest.now ≡ after_white (content_codes bytes.now)) }
    ensures written { IfOk result (λ rest. (text : List ℕ) (stop : Stop) → StandsInContent text bytes.now stop walk.old
        → WritesWhite text bytes.now rest.now stop walk.old walk.new) }
{
    let after = push_spaces(walk, bytes)?;
    let Some(found) = ending_at(after) else {
        return Ok(after);
    };
    walk.content_ending(Name::LineEnding, found.size)?;
    push_spaces(walk, bytes_from(after, found.size))
}

/// Spaces and tabs. Answers what follows.
#[tactic(auto, using(parse_output::proofs::Classes::lines_may))]
fn push_spaces<'b, A: Allocator>(
    walk: &mut Walk<'_, A>,
    bytes: &'b [u8],
) -> Result<&'b [u8], AllocError>
    requires lines { holds_lines (still_open walk.old) ≡ true }
    ensures open { OnOk result (still_open walk.new ≡ still_open walk.old) }
    ensures rest { IfOk result (λ rest. rest.now ≡ bare bytes.now) }
    ensures written { IfOk result (λ rest. (text : List ℕ) (stop : Stop) → StandsInContent text bytes.now stop walk.old
        → WritesWhite text bytes.now rest.now stop walk.old walk.new) }
{
    let size = white_size(bytes);
    walk.text(Name::SpaceOrTab, size)?;
    Ok(bytes_from(bytes, size))
}
