//! Footnote definitions that are off (in neither standard).
ghost use Rattle.laws_options.specs.GfmFootnoteDefinition.{FootnoteDefinitionOffLaw};

/// Where footnote definitions are off, a page is the same by any options of footnotes, if headings have no
/// ids or the ids of footnotes begin alike: a heading gets no id that a footnote may have.
pub fn footnote_definition_off_law()
    ensures { FootnoteDefinitionOffLaw }
{}
