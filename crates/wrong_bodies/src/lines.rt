//! The lines of a text (CommonMark 2.1).
ghost use Rattle.std.specs.Prelude.{◌≡◌, ◌<◌, ◌≤◌, ◌+◌, ◌∷◌, length};
ghost use Rattle.definition_text.specs.Lines.{lines, first_line, text_line};

use markdown_options::LineEnding;

/// `text_lines::next_line`: CR LF is one line ending.
pub fn next_line(text: &str) -> (&str, Option<LineEnding>, &str)
    ensures first { text_line result.0.now result.1 ≡ first_line text.now }
    ensures shorter { length result.0.now + length result.2.now ≤ length text.now }
    ensures rest { 0 < length text.now → lines text.now ≡ text_line result.0.now result.1 ∷ lines result.2.now }
{
    text_lines::next_line(text)
}
