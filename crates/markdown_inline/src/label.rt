//! The text of a label that is on several lines.
ghost use Rattle.std.specs.Prelude.{◌≡◌, IfErr, IfOk, string_bytes};
ghost use Rattle.markdown_options.specs.Messages.{IsOutOfMemory};
ghost use Rattle.definition_text.specs.Content.{content_text};
ghost use Rattle.text_pieces.specs.Pieces.{piece_lines};

use markdown_options::Message;
use std::alloc::Allocator;
pub use text_pieces::Piece;
use text_pieces::join_lines;

/// Returns the text of a label (CommonMark 4.7, 6.3) from its lines, each without the prefixes of
/// containers. The endings between the lines are kept. The only error is `out of memory`.
pub fn label_text<A: Allocator>(alloc: A, lines: &[Piece<'_>]) -> Result<String<A>, Message>
    ensures text { IfOk result (λ text. string_bytes text ≡ content_text (piece_lines lines.now)) }
    ensures memory { IfErr result IsOutOfMemory }
{
    let mut text = String::new(alloc);
    join_lines(&mut text, lines)?;
    Ok(text)
}
