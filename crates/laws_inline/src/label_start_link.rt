//! Links in links.
ghost use Rattle.laws_inline.specs.NestedLinks.{LinksHoldNoLinks};

/// No link in brackets holds another, a call of a footnote or an address that is a literal, at any
/// level of nesting; an autolink it may hold.
#[tactic(auto, using(crate::proofs::NestedLinks::links_hold_no_links))]
pub fn nested_links_law()
    ensures { LinksHoldNoLinks }
{}
