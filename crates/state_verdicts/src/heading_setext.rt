//! Underlines of setext headings (CommonMark 4.3).
ghost use Rattle.state_verdicts.specs.HeadingSetext.{HeadingSetextVerdict};
ghost use Rattle.state_verdicts.specs.HeadingSetextText.{HeadingSetextTextVerdict};

/// At the first byte after the indent, an attempt at an underline goes well exactly if underlines are
/// on, one may stand there, and the line is one, with its events and up to the end of the line.
pub fn heading_setext_verdict<T>()
    ensures { HeadingSetextVerdict T }
{}

/// Wherever an underline stands behind a paragraph, with none other between, the edits of its resolver
/// make a heading of both. Its text has the events of the paragraph.
pub fn heading_setext_text_verdict()
    ensures { HeadingSetextTextVerdict }
{}
