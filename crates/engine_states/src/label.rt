//! Labels of links, images and footnote calls (CommonMark 6.3 and 6.4).

/// What a label belongs to.
#[derive(Clone, Copy, Debug, PartialEq, Eq)]
pub enum LabelKind {
    /// `![`: an image (CommonMark 6.4).
    Image,
    /// `[`: a link (CommonMark 6.3).
    Link,
    /// `[^`: a call of a footnote that is defined.
    GfmFootnote,
    /// `[^` of a footnote that is not defined.
    GfmUndefinedFootnote,
}

/// The start of a label, which may find its end.
#[derive(Clone, Copy, Debug, PartialEq, Eq)]
pub struct LabelStart {
    pub kind: LabelKind,
    /// The indices of the events that enter and exit the start.
    pub start: (usize, usize),
    /// Always false: `TokenizeState::start` tells which starts are inactive.
    pub inactive: bool,
}

/// A label: its start and its end.
#[derive(Clone, Copy, Debug, PartialEq, Eq)]
pub struct Label {
    pub kind: LabelKind,
    /// The indices of the events that enter and exit the start.
    pub start: (usize, usize),
    /// The indices of the events that enter and exit the end.
    pub end: (usize, usize),
}
