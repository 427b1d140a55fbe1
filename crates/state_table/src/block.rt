//! The table of the block states.
ghost use Rattle.std.specs.Prelude.{◌≡◌};
ghost use Rattle.state_table.specs.BlockWords.{next, part, retry};
ghost use Rattle.state_table.specs.BlockTable.{block_group};

use markdown_engine::state::{Block, Inline, Name, State};

/// The block state that reads the next byte.
pub fn next(state: Block) -> State
    ensures { result ≡ next state }
{
    State::Next(Name::Block(state))
}

/// The block state that reads the same byte.
pub fn retry(state: Block) -> State
    ensures { result ≡ retry state }
{
    State::Retry(Name::Block(state))
}

/// An inline state that blocks share, at the same byte.
pub fn part(state: Inline) -> State
    ensures { result ≡ part state }
{
    State::Retry(Name::Inline(state))
}

/// The groups of states, each with a crate of its own.
#[derive(Clone, Copy, Debug, PartialEq, Eq)]
pub enum Group {
    /// Paragraphs and the definitions at their front.
    Content,
    /// Blocks that hold no text but their own: headings, breaks, code, math, and what lines share.
    Leaves,
    /// HTML blocks.
    Html,
    /// Tables.
    Table,
    /// Blocks of a text, and the machine that reads them.
    Flow,
    /// Prefixes of containers, and what stands at the start of a text.
    Containers,
    /// The lines of a text.
    Document,
}

/// The group of a state.
pub fn group_of(state: Block) -> Group
    ensures { result ≡ block_group state }
{
    match state {
        Block::ContentDefinitionBefore
        | Block::ContentDefinitionAfter
        | Block::ContentChunkStart
        | Block::ContentChunkInside => Group::Content,
        Block::DefinitionStart
        | Block::DefinitionBefore
        | Block::DefinitionLabelAfter
        | Block::DefinitionLabelNok
        | Block::DefinitionMarkerAfter
        | Block::DefinitionDestinationBefore
        | Block::DefinitionDestinationAfter
        | Block::DefinitionDestinationMissing
        | Block::DefinitionAfter
        | Block::DefinitionAfterWhitespace
        | Block::DefinitionTitleBefore
        | Block::DefinitionTitleBeforeMarker
        | Block::DefinitionTitleAfter
        | Block::DefinitionTitleAfterOptionalWhitespace => Group::Content,
        Block::ParagraphStart | Block::ParagraphLineStart | Block::ParagraphInside =>
            Group::Content,
        Block::BlankLineStart | Block::BlankLineAfter => Group::Leaves,
        Block::NonLazyContinuationStart | Block::NonLazyContinuationAfter => Group::Leaves,
        Block::ThematicBreakStart
        | Block::ThematicBreakBefore
        | Block::ThematicBreakAtBreak
        | Block::ThematicBreakSequence => Group::Leaves,
        Block::HeadingAtxStart
        | Block::HeadingAtxBefore
        | Block::HeadingAtxSequenceOpen
        | Block::HeadingAtxAtBreak
        | Block::HeadingAtxSequenceFurther
        | Block::HeadingAtxData => Group::Leaves,
        Block::CodeIndentedStart
        | Block::CodeIndentedAtBreak
        | Block::CodeIndentedInside
        | Block::CodeIndentedAfter
        | Block::CodeIndentedFurtherStart
        | Block::CodeIndentedFurtherBegin
        | Block::CodeIndentedFurtherAfter => Group::Leaves,
        Block::RawFlowStart
        | Block::RawFlowBeforeSequenceOpen
        | Block::RawFlowSequenceOpen
        | Block::RawFlowInfoBefore
        | Block::RawFlowInfo
        | Block::RawFlowMetaBefore
        | Block::RawFlowMeta
        | Block::RawFlowAtNonLazyBreak
        | Block::RawFlowCloseStart
        | Block::RawFlowBeforeSequenceClose
        | Block::RawFlowSequenceClose
        | Block::RawFlowSequenceCloseAfter
        | Block::RawFlowContentBefore
        | Block::RawFlowContentStart
        | Block::RawFlowBeforeContentChunk
        | Block::RawFlowContentChunk => Group::Leaves,
        Block::RawFlowAfter => Group::Leaves,
        Block::HtmlFlowStart
        | Block::HtmlFlowBefore
        | Block::HtmlFlowOpen
        | Block::HtmlFlowDeclarationOpen
        | Block::HtmlFlowCommentOpenInside
        | Block::HtmlFlowCdataOpenInside
        | Block::HtmlFlowTagCloseStart
        | Block::HtmlFlowTagName
        | Block::HtmlFlowBasicSelfClosing
        | Block::HtmlFlowCompleteClosingTagAfter
        | Block::HtmlFlowCompleteAttributeNameBefore
        | Block::HtmlFlowCompleteAttributeName
        | Block::HtmlFlowCompleteAttributeNameAfter
        | Block::HtmlFlowCompleteAttributeValueBefore
        | Block::HtmlFlowCompleteAttributeValueQuoted
        | Block::HtmlFlowCompleteAttributeValueUnquoted => Group::Html,
        Block::HtmlFlowCompleteAttributeValueQuotedAfter
        | Block::HtmlFlowCompleteEnd
        | Block::HtmlFlowCompleteAfter
        | Block::HtmlFlowContinuation
        | Block::HtmlFlowContinuationStart
        | Block::HtmlFlowContinuationStartNonLazy
        | Block::HtmlFlowContinuationBefore
        | Block::HtmlFlowContinuationCommentInside
        | Block::HtmlFlowContinuationRawTagOpen
        | Block::HtmlFlowContinuationRawEndTag
        | Block::HtmlFlowContinuationCdataInside
        | Block::HtmlFlowContinuationDeclarationInside
        | Block::HtmlFlowContinuationClose
        | Block::HtmlFlowContinuationAfter
        | Block::HtmlFlowBlankLineBefore => Group::Html,
        Block::HeadingSetextStart
        | Block::HeadingSetextBefore
        | Block::HeadingSetextInside
        | Block::HeadingSetextAfter => Group::Table,
        Block::GfmTableStart
        | Block::GfmTableHeadRowBefore
        | Block::GfmTableHeadRowStart
        | Block::GfmTableHeadRowBreak
        | Block::GfmTableHeadRowData
        | Block::GfmTableHeadRowEscape
        | Block::GfmTableHeadDelimiterStart
        | Block::GfmTableHeadDelimiterBefore
        | Block::GfmTableHeadDelimiterCellBefore
        | Block::GfmTableHeadDelimiterValueBefore
        | Block::GfmTableHeadDelimiterLeftAlignmentAfter
        | Block::GfmTableHeadDelimiterFiller
        | Block::GfmTableHeadDelimiterRightAlignmentAfter
        | Block::GfmTableHeadDelimiterCellAfter
        | Block::GfmTableHeadDelimiterNok
        | Block::GfmTableBodyRowStart => Group::Table,
        Block::GfmTableBodyRowBreak | Block::GfmTableBodyRowData | Block::GfmTableBodyRowEscape =>
            Group::Table,
        Block::FlowStart
        | Block::FlowBlankLineBefore
        | Block::FlowBeforeCodeIndented
        | Block::FlowBeforeRaw
        | Block::FlowBeforeHtml
        | Block::FlowBeforeHeadingAtx
        | Block::FlowBeforeHeadingSetext
        | Block::FlowBeforeThematicBreak
        | Block::FlowBeforeGfmTable
        | Block::FlowBeforeContent
        | Block::FlowBlankLineAfter
        | Block::FlowAfter => Group::Flow,
        Block::BlockQuoteStart
        | Block::BlockQuoteContStart
        | Block::BlockQuoteContBefore
        | Block::BlockQuoteContAfter => Group::Containers,
        Block::ListItemStart
        | Block::ListItemBefore
        | Block::ListItemBeforeUnordered
        | Block::ListItemBeforeOrdered
        | Block::ListItemValue
        | Block::ListItemMarker
        | Block::ListItemMarkerAfter
        | Block::ListItemMarkerAfterFilled
        | Block::ListItemWhitespace
        | Block::ListItemWhitespaceAfter
        | Block::ListItemPrefixOther
        | Block::ListItemAfter
        | Block::ListItemContStart
        | Block::ListItemContBlank
        | Block::ListItemContFilled => Group::Containers,
        Block::GfmFootnoteDefinitionStart
        | Block::GfmFootnoteDefinitionLabelBefore
        | Block::GfmFootnoteDefinitionLabelAtMarker
        | Block::GfmFootnoteDefinitionLabelInside
        | Block::GfmFootnoteDefinitionLabelEscape
        | Block::GfmFootnoteDefinitionLabelAfter
        | Block::GfmFootnoteDefinitionWhitespaceAfter
        | Block::GfmFootnoteDefinitionContStart
        | Block::GfmFootnoteDefinitionContBlank
        | Block::GfmFootnoteDefinitionContFilled => Group::Containers,
        Block::BomStart | Block::BomInside => Group::Containers,
        Block::FrontmatterStart
        | Block::FrontmatterOpenSequence
        | Block::FrontmatterOpenAfter
        | Block::FrontmatterContentEnd
        | Block::FrontmatterCloseStart
        | Block::FrontmatterCloseSequence
        | Block::FrontmatterCloseAfter
        | Block::FrontmatterContentStart
        | Block::FrontmatterContentInside
        | Block::FrontmatterAfter => Group::Containers,
        Block::DocumentStart
        | Block::DocumentBeforeFrontmatter
        | Block::DocumentContainerExistingBefore
        | Block::DocumentContainerExistingAfter
        | Block::DocumentContainerNewBefore
        | Block::DocumentContainerNewBeforeNotBlockQuote
        | Block::DocumentContainerNewBeforeNotList
        | Block::DocumentContainerNewBeforeNotGfmFootnoteDefinition
        | Block::DocumentContainerNewAfter
        | Block::DocumentContainersAfter
        | Block::DocumentFlowInside
        | Block::DocumentFlowEnd => Group::Document,
    }
}
