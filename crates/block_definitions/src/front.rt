//! The definitions at the front of a paragraph (CommonMark 4.7).
//!
//!     paragraph ::= definition* line*
//!
//! A definition ends where a line does.
ghost use Rattle.std.specs.Prelude.{◌≡◌, ◌≤◌, ◌<◌, ℕ, suc, None, false, IfSome, MatchOption, length, take};
ghost use Rattle.definition_text.specs.BlockLines.{own_lines};
ghost use Rattle.definition_text.specs.Content.{content_codes, content_of, content_text};
ghost use Rattle.definition_block.specs.Definitions.{cut_most};
ghost use Rattle.definition_inline.specs.Definition.{definition_at};
ghost use Rattle.definition_inline.specs.Space.{after_spaces};
ghost use Rattle.text_pieces.specs.ParagraphLines.{AreLines};
ghost use Rattle.text_pieces.specs.Pieces.{piece_lines, piece_line};
ghost use Rattle.definition_block.specs.Tree.{is_some_line};
ghost use Rattle.block_definitions.specs.Contents.{room, total, begins_label, begins_with_bracket};
ghost use Rattle.block_definitions.specs.Ends.{EndsAt};

use inline_links::code::next_code;
use inline_links::definition::definition;
use inline_links::spaces;
use text_pieces::Piece;

const OPENING_BRACKET: u16 = b'[' as u16;

/// Where a definition ends.
#[derive(Clone, Copy)]
pub struct DefinitionEnd {
    /// How many lines it has.
    pub lines: usize,
    /// How many bytes of the content, with the ending of its last line.
    pub bytes: usize,
}

/// Whether a definition may begin on the first of these lines.
pub fn may_begin(lines: &[Piece<'_>]) -> bool
    ensures bracket { result ≡ begins_with_bracket lines.now }
    ensures none { result ≡ false → AreLines (piece_lines lines.now) → definition_at (content_of (own_lines (piece_lines lines.now))) ≡ None }
{
    match lines.first() {
        None => false,
        Some(line) => begins_label(line.text.as_bytes()),
    }
}

/// Whether a bracket comes first after spaces and tabs.
fn begins_label(text: &[u8]) -> bool
    ensures { result ≡ begins_label (after_spaces (content_codes text.now)) }
{
    match next_code(spaces(text), 0) {
        None => false,
        Some(first) => first.code == OPENING_BRACKET,
    }
}

/// Where the definition ends that begins on the first of these lines, whose content is given.
pub fn first_definition(content: &[u8], lines: &[Piece<'_>]) -> Option<DefinitionEnd>
    ensures found { AreLines (piece_lines lines.now) → content.now ≡ content_text (piece_lines lines.now) →
        MatchOption result (definition_at (content_of (own_lines (piece_lines lines.now))) ≡ None) (λ end. EndsAt content.now (piece_lines lines.now) end) }
    ensures some { IfSome result (λ end. 0 < end.bytes) }
    ensures bytes { IfSome result (λ end. end.bytes ≤ length content.now) }
    ensures lines { IfSome result (λ end. end.lines ≤ length lines.now) }
{
    let definition = definition(content)?;
    let bytes = content.len() - definition.rest.len();
    Some(DefinitionEnd {
        lines: lines_within(lines, bytes),
        bytes,
    })
}

/// How many lines these bytes are, with their endings. The last line may have its ending outside.
fn lines_within(lines: &[Piece<'_>], bytes: usize) -> usize
    ensures count { (n : ℕ) → n < length lines.now → total (take n (piece_lines lines.now)) < bytes →
        bytes ≤ total (take (suc n) (piece_lines lines.now)) → result ≡ suc n }
    ensures within { result ≤ length lines.now }
{
    let mut left = bytes;
    for i in 0..lines.len() {
        if left == 0 {
            return i;
        }
        left = left.saturating_sub(room(lines[i]));
    }
    lines.len()
}

/// How many bytes a line has in a content, with its ending.
fn room(line: Piece<'_>) -> usize
    ensures { result ≡ room (piece_line line.entry) }
{
    let ending = match line.ending {
        Some(ending) => ending.as_str().len(),
        None => 0,
    };
    usize::from(line.owed) + line.text.len() + ending
}

/// Whether something is left of these lines, whose content is given, after the definitions at their
/// front.
pub fn has_more(content: &[u8], lines: &[Piece<'_>]) -> bool
    ensures { AreLines (piece_lines lines.now) → content.now ≡ content_text (piece_lines lines.now) →
        result ≡ is_some_line (cut_most (length lines.now) (piece_lines lines.now)).left }
{
    let mut at = 0;
    let mut first = 0;
    while let Some(end) = first_definition(&content[at..], &lines[first..]) {
        at += end.bytes;
        first += end.lines;
    }
    first < lines.len()
}
