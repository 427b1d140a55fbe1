//! A law of slugs.
ghost use Rattle.text_slugs.specs.Laws.{SlugsDifferLaw};

/// The slugs of texts differ from one another.
#[tactic(auto, using(crate::proofs::Differ::slugs_differ_law))]
pub fn slugs_differ_law()
    ensures { SlugsDifferLaw }
{}
