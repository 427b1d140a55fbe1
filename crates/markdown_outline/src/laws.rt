//! What holds of each outline.
ghost use Rattle.markdown_outline.specs.Laws.{OutlinePageLaw, OutlineSlugsLaw};

/// The headings that are listed are those of the page that a list in the grammar spells, in order.
#[tactic(auto, using(crate::proofs::PageOrder::outline_page_law))]
pub fn outline_page_law()
    ensures { OutlinePageLaw }
{}

/// The slugs of an outline are those of its texts, in order.
#[tactic(auto, using(crate::proofs::OutlineSlugs::outline_slugs_law))]
pub fn outline_slugs_law()
    ensures { OutlineSlugsLaw }
{}
