//! Email addresses in a content, and links without literals, once its spans are paired (GFM 6.9).
ghost use Rattle.std.specs.Prelude.{◌≡◌, [], ℕ, IfOk};
ghost use Rattle.definition_inline.specs.GfmAutolinkLiteral.{with_literals};
ghost use Rattle.definition_inline.specs.Inline.{Target, LinkTexts, Inlines};
ghost use Rattle.inline_rows.specs.InlineRows as seen;
ghost use Rattle.inline_rows.specs.View.{rows_view};
ghost use Rattle.inline_parser.specs.Found.{found_rows};

use crate::found::FoundRows;
use inline_addresses::{linked_rows, may_link, push_texts};
use inline_reading::Room;
use inline_rows::InlineRow;
use std::alloc::{AllocError, Allocator};

/// These rows, in which addresses are text and links may hold literals, with the addresses, and
/// without the literals in links (GFM 6.9).
pub(crate) fn rows_with_literals<'a, A: Allocator + Clone>(
    room: &'a mut Room<A>,
    rows: &'a [InlineRow<'a>],
) -> Result<FoundRows<'a, A>, AllocError>
    ensures { (leads : Target → LinkTexts) (at : ℕ → LinkTexts) (kids : Inlines) → rows_view at rows.now ≡ seen.inline_rows leads kids →
        IfOk result (λ linked. rows_view at (found_rows linked) ≡ seen.inline_rows leads (with_literals [] kids)) }
{
    if !may_link(rows) {
        return Ok(FoundRows::InRoom(rows));
    }
    room.text.clear();
    push_texts(&mut room.text, rows)?;
    let linked = linked_rows(room.alloc.clone()?, room.text.as_str(), rows)?;
    Ok(FoundRows::InList(linked))
}
