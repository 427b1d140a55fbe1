//! What a `]` forms with the label start before it (CommonMark 6.3 and 6.4).
//!
//!     end       ::= resource | full | collapsed | shortcut
//!     full      ::= label
//!     collapsed ::= '[' ']'
//!     shortcut  ::= nothing
//!
//! The first that is there counts, a full reference also where no definition has its label. For a
//! collapsed reference and a shortcut the text between the brackets is the label.
ghost use Rattle.std.specs.Prelude.{◌≡◌, ℕ, List, IfOk, IfSome, if◌then◌else◌, codes};
ghost use Rattle.definition_text.specs.Content.{content_codes};
ghost use Rattle.definition_text.specs.Bytes.{begins_with};
ghost use Rattle.inline_leaves.specs.Leaves.{size_before};
ghost use Rattle.inline_labels.specs.Table.{HasLabels};
ghost use Rattle.inline_label_ends.specs.Ends.{IsAfterEnd, EndsAs, IsReference};

use crate::text::is_label_text;
use inline_labels::LabelTable;
use inline_links::LinkTexts;
use inline_links::text::{label_of, resource_of};
use inline_rows::LinkTarget;
use std::alloc::{AllocError, Allocator};

/// What a label end forms, and the content after it.
#[derive(Clone, Copy)]
pub struct LabelEnd<'a> {
    /// What the link or the image leads to.
    pub target: LinkTarget<'a>,
    /// What follows.
    pub after: &'a str,
}

/// What stands behind a text between brackets; the rest is what follows the `]` (CommonMark 6.3).
pub fn label_end<'a, A: Allocator + Clone>(
    labels: &LabelTable<A>,
    text: &'a str,
    rest: &'a str,
) -> Result<Option<LabelEnd<'a>>, AllocError>
    ensures read { (ls : List (List ℕ)) → HasLabels labels.now ls → IfOk result (EndsAs ls text.now rest.now) }
    ensures place { IfOk result (λ found. IfSome found (λ end. IsAfterEnd rest.now end.after.now)) }
{
    if let Some(resource) = resource_of(rest) {
        return Ok(Some(LabelEnd {
            target: LinkTarget::Resource(LinkTexts {
                destination: resource.destination,
                title: resource.title,
            }),
            after: resource.rest,
        }));
    }
    if let Some(label) = label_of(rest) {
        return reference(labels, label.text, label.rest);
    }
    if is_label_text(text) {
        reference(labels, text, without_brackets(rest))
    } else {
        Ok(None)
    }
}

/// The definition with this label, if there is one, and what follows the reference.
fn reference<'a, A: Allocator + Clone>(
    labels: &LabelTable<A>,
    label: &str,
    after: &'a str,
) -> Result<Option<LabelEnd<'a>>, AllocError>
    ensures read { (ls : List (List ℕ)) → HasLabels labels.now ls → IfOk result (λ found. IsReference ls (content_codes label.now) found) }
    ensures after { IfOk result (λ found. IfSome found (λ end. end.after.now ≡ after.now)) }
{
    match labels.find(label.as_bytes())? {
        None => Ok(None),
        Some(place) => Ok(Some(LabelEnd {
            target: LinkTarget::Definition(place),
            after,
        })),
    }
}

/// What follows the brackets of a collapsed reference, if it is one (CommonMark 6.3).
fn without_brackets(rest: &str) -> &str
    ensures size { size_before rest.now result.now ≡ (if begins_with (codes "[]") (content_codes rest.now) then 2 else 0) }
    ensures place { IsAfterEnd rest.now result.now }
{
    match rest.strip_prefix("[]") {
        Some(after) => after,
        None => rest,
    }
}
