//! ATX headings (CommonMark 4.2).
ghost use Rattle.state_verdicts.specs.HeadingAtx.{HeadingAtxLineVerdict, HeadingAtxVerdict};
ghost use Rattle.state_verdicts.specs.HeadingAtxText.{HeadingAtxTextVerdict};

/// At the first byte after the indent, an attempt at an ATX heading fails exactly if headings are off
/// or the line is none. Otherwise reading continues after the opening sequence, with its events
/// added.
pub fn heading_atx_verdict<T>()
    ensures { HeadingAtxVerdict T }
{}

/// At the first byte after the indent, an attempt at an ATX heading goes well exactly if headings are
/// on and the line is one, with the events of each part of the line and up to its end.
pub fn heading_atx_line_verdict<T>()
    ensures { HeadingAtxLineVerdict T }
{}

/// Wherever the events of a heading stand, the edit of its resolver puts a text in place of some of
/// them. The text has the content that the definition has, and what is before it and after it is
/// white space and the closing run.
pub fn heading_atx_text_verdict()
    ensures { HeadingAtxTextVerdict }
{}
