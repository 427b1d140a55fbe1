//! Frontmatter, and its opening and closing lines (in neither standard).
ghost use Rattle.state_verdicts.specs.Frontmatter.{FrontmatterClosingVerdict, FrontmatterVerdict, FrontmatterWholeVerdict};

/// At the start of a text, an attempt at frontmatter fails exactly if it is off, or the first line is
/// no fence of metadata that has an ending. Otherwise reading continues at the end of the line, with
/// its events added.
pub fn frontmatter_verdict<T, V>()
    ensures { FrontmatterVerdict T V }
{}

/// At the start of a line within frontmatter, an attempt at its closing fence goes well exactly if the
/// line is a fence of the byte that opened it, with its events and up to the end of the line.
pub fn frontmatter_closing_verdict<T, V>()
    ensures { FrontmatterClosingVerdict T V }
{}

/// At the start of a text, an attempt at frontmatter fails exactly if the definition has none.
/// Otherwise it goes well, with the events of all its lines, and stands before the lines that the
/// definition has after it.
pub fn frontmatter_whole_verdict<T, V>()
    ensures { FrontmatterWholeVerdict T V }
{}
