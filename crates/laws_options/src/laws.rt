//! Where an option of printing makes no difference.
ghost use Rattle.laws_options.specs.Laws.{DefaultEndingLaw, IdPrefixLaw, ImageSourceLaw, TagfilterLaw};
ghost use Rattle.laws_options.specs.Laws.{UnlistedLaw};

/// Where raw HTML isn't kept by the list, the HTML of a text is its page as it is printed.
#[tactic(auto, using(crate::proofs::Unlisted::unlisted_law))]
pub fn unlisted_law()
    ensures { UnlistedLaw }
{}

/// Where dangerous HTML isn't allowed, a page is the same with the tag filter and without.
#[tactic(auto, using(crate::proofs::SamePages::tagfilter_law))]
pub fn tagfilter_law()
    ensures { TagfilterLaw }
{}

/// Where dangerous protocols are allowed, a page is the same whether any source of an image is allowed or not.
#[tactic(auto, using(crate::proofs::SamePages::image_source_law))]
pub fn image_source_law()
    ensures { ImageSourceLaw }
{}

/// Where the first line of a text has an ending, its page is the same whatever the default ending.
#[tactic(auto, using(crate::proofs::SamePages::default_ending_law))]
pub fn default_ending_law()
    ensures { DefaultEndingLaw }
{}

/// Where headings have no ids, a page is the same whatever these would begin with.
#[tactic(auto, using(crate::proofs::SamePages::id_prefix_law))]
pub fn id_prefix_law()
    ensures { IdPrefixLaw }
{}
