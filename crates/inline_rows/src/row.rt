//! A row of inline structure.
ghost use Rattle.std.specs.Prelude.{◌≡◌, ◌==◌, false, true};
ghost use Rattle.std.specs.List.{list_any};
ghost use Rattle.definition_text.specs.Ascii.{at_sign};
ghost use Rattle.definition_text.specs.Encode.{encode};

use inline_leaves::LeafPart;
use inline_links::LinkTexts;
use inline_runs::Span;

/// What a link or an image leads to (CommonMark 6.3).
#[derive(Clone, Copy)]
pub enum LinkTarget<'a> {
    /// A resource.
    Resource(LinkTexts<'a>),
    /// The definition at this place among those of the document.
    Definition(usize),
}

/// Text that is printed as it is: it has no NUL, `"`, `&`, `<` and `>`. An LF in it is a soft line break
/// (CommonMark 6.8).
#[derive(Clone, Copy)]
pub struct VerbatimText<'a> {
    /// Its bytes.
    pub text: &'a str,
    /// Whether it is known to hold no `@`, so that no email address is in it (GFM 6.9).
    pub has_no_at_sign: bool,
    pub ghost same: { encode text.now ≡ text.now },
    pub ghost bare: { has_no_at_sign ≡ true → list_any (λ b. b == at_sign) text.now ≡ false },
}

/// A construct that holds no other, as a list of events spells it. Texts give a [`LeafPart`].
#[derive(Clone, Copy)]
pub enum SpelledLeaf<'a> {
    /// The text of a code span, in which line endings are printed as they are (CommonMark 6.1).
    Code(&'a str),
    /// The text of math in a text, in which line endings are printed as they are.
    Math(&'a str),
    /// The check of a task list item, done or not (GFM 5.3).
    Check(bool),
}

/// A part that holds no other, or where one starts or ends that holds others.
#[derive(Clone, Copy)]
pub enum InlineRow<'a> {
    /// Bytes that are text.
    Text(&'a str),
    /// Bytes that are text or soft line breaks, and are printed as they are.
    Verbatim(VerbatimText<'a>),
    /// A construct that holds no other.
    Leaf(LeafPart<'a>),
    /// A construct that holds no other, as a list of events spells it.
    Spelled(SpelledLeaf<'a>),
    /// The start of what stands between two runs (CommonMark 6.2 and GFM 6.5).
    EnterSpan(Span),
    /// The start of a link (CommonMark 6.3).
    EnterLink(LinkTarget<'a>),
    /// The start of an image, whose description comes next (CommonMark 6.4).
    EnterImage(LinkTarget<'a>),
    /// A call of a footnote: the label between its brackets, as it is written. It is the label of a
    /// footnote definition of the document once both are folded.
    Call(&'a str),
    /// The end of the innermost span, link or image that is open.
    Exit,
}
