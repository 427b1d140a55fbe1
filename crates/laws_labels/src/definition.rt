//! Labels and the definitions of a document (CommonMark 4.7 and 6.3).
ghost use Rattle.laws_labels.specs.Definition.{DefinedLabelLaw, FirstDefinitionLaw, QuotedLabelLaw, ListedLabelLaw};

/// A label is one of a document's exactly if some definition of it, in whatever containers, has a
/// label with the same folded text.
#[tactic(auto, using(crate::proofs::Definitions::defined_label_law))]
pub fn defined_label_law()
    ensures { DefinedLabelLaw }
{}

/// It leads where the first such definition of the document leads.
#[tactic(auto, using(crate::proofs::Definitions::first_definition_law))]
pub fn first_definition_law()
    ensures { FirstDefinitionLaw }
{}

/// Where block quotes are on and frontmatter off, each label leads where it led once `> ` stands
/// before every line of a text without tabs.
pub fn quoted_label_law()
    ensures { QuotedLabelLaw }
{}

/// So it does where items are on and frontmatter off, once `+ ` stands before the first line of a
/// text without tabs, which isn't empty and doesn't begin with a space, and two spaces before every
/// other.
pub fn listed_label_law()
    ensures { ListedLabelLaw }
{}
