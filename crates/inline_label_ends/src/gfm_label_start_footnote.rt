//! Calls of footnotes (in neither standard).
//!
//!     call ::= '[^' label ']'
//!
//! The label is that of a footnote definition. Where it isn't, the text between the brackets is
//! that of a link, which begins with `^`.
ghost use Rattle.std.specs.Prelude.{◌≡◌, ℕ, List, IfOk, IfSome};
ghost use Rattle.std.specs.Option.{option_map};
ghost use Rattle.definition_text.specs.Content.{content_codes};
ghost use Rattle.definition_inline.specs.GfmLabelStartFootnote.{called_label, call_or_link};
ghost use Rattle.definition_inline.specs.LabelEnd.{link_or_image};
ghost use Rattle.inline_labels.specs.Table.{HasLabels};
ghost use Rattle.inline_label_ends.specs.Ends.{IsAfterFormed, IsFormed, is_among, label_among};

use crate::forms::{LabelEnd, label_end};
use crate::text::is_label_text;
use inline_labels::LabelTable;
use markdown_options::Constructs;
use std::alloc::{AllocError, Allocator};

/// What a `]` forms with the label start before it.
#[derive(Clone, Copy)]
pub enum LabelForm<'a> {
    /// A link or an image (CommonMark 6.3 and 6.4).
    Leads(LabelEnd<'a>),
    /// A call of the footnote with this label. Nothing after the `]` belongs to it.
    Calls(&'a str),
}

/// What a `]` forms after `[` and a text, where these are the labels of the document's link
/// reference definitions and of its footnote definitions: a call, or else a link while links are
/// on. The rest is what follows the `]`.
#[inline(always)]
pub fn call_or_link<'a, A: Allocator + Clone>(
    on: &Constructs,
    labels: &LabelTable<A>,
    footnotes: &LabelTable<A>,
    text: &'a str,
    rest: &'a str,
) -> Result<Option<LabelForm<'a>>, AllocError>
    ensures read { (ls notes : List (List ℕ)) → HasLabels labels.now ls → HasLabels footnotes.now notes →
        let text = content_codes text.now in
        let label = called_label on.now (is_among notes) text in
        IfOk result (λ found. IsFormed ls rest.now found (call_or_link on.now (is_among ls) text (content_codes rest.now) label)) }
    ensures place { IfOk result (λ found. IfSome found (λ formed. IsAfterFormed rest.now formed)) }
{
    if let Some(label) = called_label(on, footnotes, text)? {
        return Ok(Some(LabelForm::Calls(label)));
    }
    if on.label_start_link {
        link_or_image(labels, text, rest)
    } else {
        Ok(None)
    }
}

/// What a `]` forms after the start of a link or an image and a text; the rest is what follows the
/// `]` (CommonMark 6.3 and 6.4).
pub fn link_or_image<'a, A: Allocator + Clone>(
    labels: &LabelTable<A>,
    text: &'a str,
    rest: &'a str,
) -> Result<Option<LabelForm<'a>>, AllocError>
    ensures read { (ls : List (List ℕ)) → HasLabels labels.now ls →
        IfOk result (λ found. IsFormed ls rest.now found (link_or_image (is_among ls) (content_codes text.now) (content_codes rest.now))) }
    ensures place { IfOk result (λ found. IfSome found (λ formed. IsAfterFormed rest.now formed)) }
{
    match label_end(labels, text, rest)? {
        Some(end) => Ok(Some(LabelForm::Leads(end))),
        None => Ok(None),
    }
}

/// The label of the footnote that a text between brackets calls, if it calls one.
fn called_label<'a, A: Allocator + Clone>(
    on: &Constructs,
    footnotes: &LabelTable<A>,
    text: &'a str,
) -> Result<Option<&'a str>, AllocError>
    ensures { (notes : List (List ℕ)) → HasLabels footnotes.now notes →
        IfOk result (λ label. option_map (λ l. content_codes l.now) label ≡ called_label on.now (is_among notes) (content_codes text.now)) }
{
    if !on.gfm_label_start_footnote {
        return Ok(None);
    }
    match text.strip_prefix("^") {
        Some(label) => footnote(footnotes, label),
        None => Ok(None),
    }
}

/// A text, where it is the label of a footnote definition.
fn footnote<'a, A: Allocator + Clone>(
    footnotes: &LabelTable<A>,
    text: &'a str,
) -> Result<Option<&'a str>, AllocError>
    ensures { (notes : List (List ℕ)) → HasLabels footnotes.now notes →
        IfOk result (λ label. option_map (λ l. content_codes l.now) label ≡ label_among notes (content_codes text.now)) }
{
    if is_label_text(text) && footnotes.find(text.as_bytes())?.is_some() {
        Ok(Some(text))
    } else {
        Ok(None)
    }
}
