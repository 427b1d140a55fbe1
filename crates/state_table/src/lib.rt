//! The tables of the inline states and of the block states.
#![tactic(auto)]

ghost use Rattle.std.specs.Prelude.{◌≡◌};
ghost use Rattle.state_table.specs.Words.{next, retry};
ghost use Rattle.state_table.specs.Table.{inline_group};

pub mod block;
pub mod links;
pub mod steps;
pub mod white;

use markdown_engine::state::{Inline, Name, State};

/// The inline state that reads the next byte.
pub fn next(state: Inline) -> State
    ensures { result ≡ next state }
{
    State::Next(Name::Inline(state))
}

/// The inline state that reads the same byte.
pub fn retry(state: Inline) -> State
    ensures { result ≡ retry state }
{
    State::Retry(Name::Inline(state))
}

/// The groups of states, each with a crate of its own.
#[derive(Clone, Copy, Debug, PartialEq, Eq)]
pub enum Group {
    /// Constructs that hold no other, and data.
    Leaves,
    /// Autolinks and HTML.
    Html,
    /// Labels, titles, destinations, white space, and starts of labels.
    Labels,
    /// Ends of labels.
    Ends,
    /// Literals, starts of footnote calls, checks of task list items.
    Gfm,
    /// Texts and strings.
    Whole,
}

/// The group of a state.
pub fn group_of(state: Inline) -> Group
    ensures { result ≡ inline_group state }
{
    match state {
        Inline::AttentionStart | Inline::AttentionInside => Group::Leaves,
        Inline::AutolinkStart
        | Inline::AutolinkOpen
        | Inline::AutolinkSchemeOrEmailAtext
        | Inline::AutolinkSchemeInsideOrEmailAtext
        | Inline::AutolinkUrlInside
        | Inline::AutolinkEmailAtext
        | Inline::AutolinkEmailAtSignOrDot
        | Inline::AutolinkEmailLabel
        | Inline::AutolinkEmailValue => Group::Html,
        Inline::CharacterEscapeStart | Inline::CharacterEscapeInside => Group::Leaves,
        Inline::CharacterReferenceStart
        | Inline::CharacterReferenceOpen
        | Inline::CharacterReferenceNumeric
        | Inline::CharacterReferenceValue => Group::Leaves,
        Inline::GfmAutolinkLiteralProtocolStart
        | Inline::GfmAutolinkLiteralProtocolAfter
        | Inline::GfmAutolinkLiteralProtocolPrefixInside
        | Inline::GfmAutolinkLiteralProtocolSlashesInside
        | Inline::GfmAutolinkLiteralWwwStart
        | Inline::GfmAutolinkLiteralWwwAfter
        | Inline::GfmAutolinkLiteralWwwPrefixInside
        | Inline::GfmAutolinkLiteralWwwPrefixAfter
        | Inline::GfmAutolinkLiteralDomainInside
        | Inline::GfmAutolinkLiteralDomainAtPunctuation
        | Inline::GfmAutolinkLiteralDomainAfter
        | Inline::GfmAutolinkLiteralPathInside
        | Inline::GfmAutolinkLiteralPathAtPunctuation
        | Inline::GfmAutolinkLiteralPathAfter
        | Inline::GfmAutolinkLiteralTrail
        | Inline::GfmAutolinkLiteralTrailBracketAfter => Group::Gfm,
        Inline::GfmAutolinkLiteralTrailCharRefStart
        | Inline::GfmAutolinkLiteralTrailCharRefInside => Group::Gfm,
        Inline::GfmLabelStartFootnoteStart | Inline::GfmLabelStartFootnoteOpen => Group::Gfm,
        Inline::GfmTaskListItemCheckStart
        | Inline::GfmTaskListItemCheckInside
        | Inline::GfmTaskListItemCheckClose
        | Inline::GfmTaskListItemCheckAfter
        | Inline::GfmTaskListItemCheckAfterSpaceOrTab => Group::Gfm,
        Inline::HardBreakEscapeStart | Inline::HardBreakEscapeAfter => Group::Leaves,
        Inline::HtmlTextStart
        | Inline::HtmlTextOpen
        | Inline::HtmlTextDeclarationOpen
        | Inline::HtmlTextCommentOpenInside
        | Inline::HtmlTextComment
        | Inline::HtmlTextCommentClose
        | Inline::HtmlTextCommentEnd
        | Inline::HtmlTextCdataOpenInside
        | Inline::HtmlTextCdata
        | Inline::HtmlTextCdataClose
        | Inline::HtmlTextCdataEnd
        | Inline::HtmlTextDeclaration
        | Inline::HtmlTextInstruction
        | Inline::HtmlTextInstructionClose
        | Inline::HtmlTextTagCloseStart
        | Inline::HtmlTextTagClose => Group::Html,
        Inline::HtmlTextTagCloseBetween
        | Inline::HtmlTextTagOpen
        | Inline::HtmlTextTagOpenBetween
        | Inline::HtmlTextTagOpenAttributeName
        | Inline::HtmlTextTagOpenAttributeNameAfter
        | Inline::HtmlTextTagOpenAttributeValueBefore
        | Inline::HtmlTextTagOpenAttributeValueQuoted
        | Inline::HtmlTextTagOpenAttributeValueUnquoted
        | Inline::HtmlTextTagOpenAttributeValueQuotedAfter
        | Inline::HtmlTextEnd
        | Inline::HtmlTextLineEndingBefore
        | Inline::HtmlTextLineEndingAfter
        | Inline::HtmlTextLineEndingAfterPrefix => Group::Html,
        Inline::LabelEndStart
        | Inline::LabelEndAfter
        | Inline::LabelEndReferenceNotFull
        | Inline::LabelEndOk
        | Inline::LabelEndNok
        | Inline::LabelEndResourceStart
        | Inline::LabelEndResourceBefore
        | Inline::LabelEndResourceOpen
        | Inline::LabelEndResourceDestinationAfter
        | Inline::LabelEndResourceDestinationMissing
        | Inline::LabelEndResourceBetween
        | Inline::LabelEndResourceTitleAfter
        | Inline::LabelEndResourceEnd
        | Inline::LabelEndReferenceFull
        | Inline::LabelEndReferenceFullAfter
        | Inline::LabelEndReferenceFullMissing => Group::Ends,
        Inline::LabelEndReferenceCollapsed | Inline::LabelEndReferenceCollapsedOpen => Group::Ends,
        Inline::LabelStartImageStart | Inline::LabelStartImageOpen | Inline::LabelStartImageAfter =>
            Group::Labels,
        Inline::LabelStartLinkStart => Group::Labels,
        Inline::DataStart | Inline::DataAtBreak | Inline::DataInside => Group::Leaves,
        Inline::DestinationStart
        | Inline::DestinationEnclosedBefore
        | Inline::DestinationEnclosed
        | Inline::DestinationEnclosedEscape
        | Inline::DestinationRaw
        | Inline::DestinationRawEscape => Group::Labels,
        Inline::LabelStart
        | Inline::LabelAtBreak
        | Inline::LabelEolAfter
        | Inline::LabelNok
        | Inline::LabelInside
        | Inline::LabelEscape => Group::Labels,
        Inline::SpaceOrTabStart | Inline::SpaceOrTabInside | Inline::SpaceOrTabAfter =>
            Group::Labels,
        Inline::SpaceOrTabEolStart
        | Inline::SpaceOrTabEolAfterFirst
        | Inline::SpaceOrTabEolAtEol
        | Inline::SpaceOrTabEolAfterEol
        | Inline::SpaceOrTabEolAfterMore => Group::Labels,
        Inline::TitleStart
        | Inline::TitleBegin
        | Inline::TitleAtBreak
        | Inline::TitleAfterEol
        | Inline::TitleNok
        | Inline::TitleInside
        | Inline::TitleEscape => Group::Labels,
        Inline::RawTextStart
        | Inline::RawTextSequenceOpen
        | Inline::RawTextBetween
        | Inline::RawTextData
        | Inline::RawTextSequenceClose => Group::Leaves,
        Inline::StringStart | Inline::StringBefore | Inline::StringBeforeData => Group::Whole,
        Inline::TextStart
        | Inline::TextBefore
        | Inline::TextBeforeHtml
        | Inline::TextBeforeHardBreakEscape
        | Inline::TextBeforeLabelStartLink
        | Inline::TextBeforeData => Group::Whole,
    }
}
