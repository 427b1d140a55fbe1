//! Whole lines of a text, which no prefix stands before, as those of a paragraph (CommonMark 4.8).
ghost use Rattle.std.specs.Prelude.{◌≡◌, ℕ, List, IfNone, IfSome, length, take, drop};
ghost use Rattle.definition_text.specs.BlockLines.{spaced_line};
ghost use Rattle.definition_text.specs.Columns.{bytes_of, whole};
ghost use Rattle.definition_text.specs.Lines.{ending_text, text_line};
ghost use Rattle.markdown_options.specs.declared.beside.Kind.TheVariants.{Whitespace};
ghost use Rattle.definition_block.specs.Tree.{beside_line, rest_line};
ghost use Rattle.text_pieces.specs.ParagraphLines.{AreLines};
ghost use Rattle.text_pieces.specs.Pieces.{piece_line, piece_lines, whole_lines};
ghost use Rattle.block_state.specs.WholeLines.{Begins, BeginsNot, BeginsWith};

use markdown_options::{Kind, LineEnding};
use text_pieces::Piece;

/// A text as one line of a block, after white space.
pub fn whole_piece<'a>(text: &'a str, ending: Option<LineEnding>) -> Piece<'a>
    ensures line { piece_line result ≡ spaced_line text.now ending }
    ensures rest { piece_line result ≡ rest_line (whole text.now) (beside_line Whitespace (text_line text.now ending)) }
    ensures bytes { bytes_of text.now ≡ text.now }
{
    Piece {
        text,
        owed: 0,
        ending,
        before: Kind::Whitespace,
    }
}

/// The front of a text that these lines are, where it begins with them.
pub fn first_lines<'a>(text: &'a str, pieces: &[Piece<'_>]) -> Option<&'a str>
    ensures front { IfSome result (λ front. front.now ≡ take (length front.now) text.now) }
    ensures begins { IfSome result (λ front. Begins (piece_lines pieces.now) text.now (drop (length front.now) text.now)) }
    ensures whole { IfSome result (λ front. AreLines (piece_lines pieces.now) → whole_lines front.now ≡ piece_lines pieces.now) }
    ensures none { IfNone result (BeginsNot (piece_lines pieces.now) text.now) }
{
    let mut rest = text;
    for piece in pieces {
        rest = after_line(rest, *piece)?;
    }
    Some(&text[..text.len() - rest.len()])
}

/// What follows a line in a text that begins with it, as a whole line.
fn after_line<'a>(text: &'a str, piece: Piece<'_>) -> Option<&'a str>
    ensures rest { IfSome result (λ rest. BeginsWith (piece_line piece.entry) text.now rest.now) }
    ensures none { IfNone result ((rest : List ℕ) → BeginsWith (piece_line piece.entry) text.now rest → ⊥) }
{
    if piece.owed != 0 {
        return None;
    }
    if piece.before != Kind::Whitespace {
        return None;
    }
    let after = text.strip_prefix(piece.text)?;
    let rest = after.strip_prefix(ending_of(piece.ending))?;
    Some(rest)
}

/// The bytes of an ending, if there is one.
fn ending_of(ending: Option<LineEnding>) -> &'static str
    ensures { result.now ≡ ending_text ending }
{
    match ending {
        Some(ending) => ending.as_str(),
        None => "",
    }
}
