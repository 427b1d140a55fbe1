//! Spaces and tabs (CommonMark 2.1 and 2.2).
ghost use Rattle.state_verdicts.specs.Columns.{ColumnsLaw};
ghost use Rattle.state_verdicts.specs.SpaceOrTab.{SpaceOrTabVerdict};

/// Whatever codes are seen from a place, there are columns of the same bytes that are seen from there.
pub fn columns_law()
    ensures { ColumnsLaw }
{}

/// An attempt at spaces and tabs goes well exactly if there are some and some may be read: it goes
/// over them, but over at most as many columns as may be read.
pub fn space_or_tab_verdict<T>()
    ensures { SpaceOrTabVerdict T }
{}
