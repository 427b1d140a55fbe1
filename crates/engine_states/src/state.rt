//! The states of reading.

use markdown_options::Message;
use std::mem::size_of;

/// The states of inline constructs: a construct, then where in it the state reads.
#[derive(Clone, Copy, Debug, PartialEq, Eq)]
pub enum Inline {
    /// A run of `*`, `_`, `~` or `=`: at a byte that may begin a run.
    AttentionStart,
    /// A run of `*`, `_`, `~` or `=`: in a run.
    AttentionInside,
    /// An autolink: at a `<`.
    AutolinkStart,
    /// An autolink: after the `<`.
    AutolinkOpen,
    /// An autolink: after its first letter.
    AutolinkSchemeOrEmailAtext,
    /// An autolink: in a scheme or in the name of an email, after two bytes at least.
    AutolinkSchemeInsideOrEmailAtext,
    /// An autolink: in a URL.
    AutolinkUrlInside,
    /// An autolink: in the name of an email.
    AutolinkEmailAtext,
    /// An autolink: after the `@` of an email address, or after a dot behind that.
    AutolinkEmailAtSignOrDot,
    /// An autolink: in a label of an email address, after a letter or a digit.
    AutolinkEmailLabel,
    /// An autolink: in a label of an email address, at any byte.
    AutolinkEmailValue,
    /// A character escape: at a backslash.
    CharacterEscapeStart,
    /// A character escape: after the backslash.
    CharacterEscapeInside,
    /// A character reference: at an `&`.
    CharacterReferenceStart,
    /// A character reference: after the `&`.
    CharacterReferenceOpen,
    /// A character reference: after the `#`.
    CharacterReferenceNumeric,
    /// A character reference: in the value.
    CharacterReferenceValue,
    /// A bare link by its protocol: at an `h`.
    GfmAutolinkLiteralProtocolStart,
    /// A bare link by its protocol: after the literal.
    GfmAutolinkLiteralProtocolAfter,
    /// A bare link by its protocol: in `http` or `https`.
    GfmAutolinkLiteralProtocolPrefixInside,
    /// A bare link by its protocol: in `//`, or after it.
    GfmAutolinkLiteralProtocolSlashesInside,
    /// A bare link by `www.`: at a `w`.
    GfmAutolinkLiteralWwwStart,
    /// A bare link by `www.`: after the literal.
    GfmAutolinkLiteralWwwAfter,
    /// A bare link by `www.`: in `www.`.
    GfmAutolinkLiteralWwwPrefixInside,
    /// A bare link by `www.`: after `www.`.
    GfmAutolinkLiteralWwwPrefixAfter,
    /// The domain of a bare link: in it.
    GfmAutolinkLiteralDomainInside,
    /// The domain of a bare link: at a `.` or `_`.
    GfmAutolinkLiteralDomainAtPunctuation,
    /// The domain of a bare link: where it ends.
    GfmAutolinkLiteralDomainAfter,
    /// The path of a bare link: after the domain.
    GfmAutolinkLiteralPathInside,
    /// The path of a bare link: at punctuation that isn't cut.
    GfmAutolinkLiteralPathAtPunctuation,
    /// The path of a bare link: where the literal ends.
    GfmAutolinkLiteralPathAfter,
    /// What may be cut from a bare link: in it, if only such bytes follow up to the end.
    GfmAutolinkLiteralTrail,
    /// What may be cut from a bare link: after a `]`.
    GfmAutolinkLiteralTrailBracketAfter,
    /// What may be cut from a bare link: after an `&`.
    GfmAutolinkLiteralTrailCharRefStart,
    /// What may be cut from a bare link: in letters and digits after an `&`.
    GfmAutolinkLiteralTrailCharRefInside,
    /// The start of a footnote call: at a `[`.
    GfmLabelStartFootnoteStart,
    /// The start of a footnote call: after the `[`.
    GfmLabelStartFootnoteOpen,
    /// The check of a task: at a `[`.
    GfmTaskListItemCheckStart,
    /// The check of a task: after the `[`.
    GfmTaskListItemCheckInside,
    /// The check of a task: at the `]`, or at a further column of the tab before it.
    GfmTaskListItemCheckClose,
    /// The check of a task: after the `]`, where it looks ahead.
    GfmTaskListItemCheckAfter,
    /// The check of a task: before or after the spaces and tabs behind it, which something follows.
    GfmTaskListItemCheckAfterSpaceOrTab,
    /// A hard break by a backslash: at a backslash.
    HardBreakEscapeStart,
    /// A hard break by a backslash: after the backslash.
    HardBreakEscapeAfter,
    /// Raw HTML in a text: at a `<`.
    HtmlTextStart,
    /// Raw HTML in a text: after the `<`.
    HtmlTextOpen,
    /// Raw HTML in a text: after `<!`.
    HtmlTextDeclarationOpen,
    /// Raw HTML in a text: after `<!-`.
    HtmlTextCommentOpenInside,
    /// Raw HTML in a text: in a comment.
    HtmlTextComment,
    /// Raw HTML in a text: in a comment, after a `-`.
    HtmlTextCommentClose,
    /// Raw HTML in a text: in a comment, after `--`.
    HtmlTextCommentEnd,
    /// Raw HTML in a text: in `<![CDATA[`, after the first bracket.
    HtmlTextCdataOpenInside,
    /// Raw HTML in a text: in CDATA.
    HtmlTextCdata,
    /// Raw HTML in a text: in CDATA, after a `]`.
    HtmlTextCdataClose,
    /// Raw HTML in a text: in CDATA, after `]]`.
    HtmlTextCdataEnd,
    /// Raw HTML in a text: in a declaration.
    HtmlTextDeclaration,
    /// Raw HTML in a text: in an instruction.
    HtmlTextInstruction,
    /// Raw HTML in a text: in an instruction, after a `?`.
    HtmlTextInstructionClose,
    /// Raw HTML in a text: after `</`.
    HtmlTextTagCloseStart,
    /// Raw HTML in a text: in the name of a closing tag.
    HtmlTextTagClose,
    /// Raw HTML in a text: in a closing tag, after its name.
    HtmlTextTagCloseBetween,
    /// Raw HTML in a text: in the name of an opening tag.
    HtmlTextTagOpen,
    /// Raw HTML in a text: in an opening tag, before an attribute or the end.
    HtmlTextTagOpenBetween,
    /// Raw HTML in a text: in the name of an attribute.
    HtmlTextTagOpenAttributeName,
    /// Raw HTML in a text: after the name of an attribute.
    HtmlTextTagOpenAttributeNameAfter,
    /// Raw HTML in a text: after the `=` of an attribute.
    HtmlTextTagOpenAttributeValueBefore,
    /// Raw HTML in a text: in a value between quotes.
    HtmlTextTagOpenAttributeValueQuoted,
    /// Raw HTML in a text: in a value with no quotes.
    HtmlTextTagOpenAttributeValueUnquoted,
    /// Raw HTML in a text: after a value between quotes.
    HtmlTextTagOpenAttributeValueQuotedAfter,
    /// Raw HTML in a text: at the `>`.
    HtmlTextEnd,
    /// Raw HTML in a text: at a line ending.
    HtmlTextLineEndingBefore,
    /// Raw HTML in a text: after a line ending.
    HtmlTextLineEndingAfter,
    /// Raw HTML in a text: after a line ending and the spaces and tabs there.
    HtmlTextLineEndingAfterPrefix,
    /// The end of a label: at a `]`.
    LabelEndStart,
    /// The end of a label: after the `]`.
    LabelEndAfter,
    /// A reference: if it isn't a full one. After a label that isn't defined there is no other reference.
    LabelEndReferenceNotFull,
    /// The end of a label: where a link, an image or a call ends.
    LabelEndOk,
    /// The end of a label: if no label ends here.
    LabelEndNok,
    /// A resource: at a `(`.
    LabelEndResourceStart,
    /// A resource: after the `(`.
    LabelEndResourceBefore,
    /// A resource: before a destination, or at the `)`.
    LabelEndResourceOpen,
    /// A resource: after the destination.
    LabelEndResourceDestinationAfter,
    /// A resource: if there is no destination.
    LabelEndResourceDestinationMissing,
    /// A resource: after the destination and white space.
    LabelEndResourceBetween,
    /// A resource: after the title.
    LabelEndResourceTitleAfter,
    /// A resource: at the `)`.
    LabelEndResourceEnd,
    /// A reference: at a `[` that may begin a label.
    LabelEndReferenceFull,
    /// A reference: after a label.
    LabelEndReferenceFullAfter,
    /// A reference: if there is no label.
    LabelEndReferenceFullMissing,
    /// A reference: at a `[` that may begin `[]`.
    LabelEndReferenceCollapsed,
    /// A reference: at the `]` of `[]`.
    LabelEndReferenceCollapsedOpen,
    /// The start of an image: at a `!`.
    LabelStartImageStart,
    /// The start of an image: after the `!`.
    LabelStartImageOpen,
    /// The start of an image: after the `[`. While footnotes are called, no `^` follows.
    LabelStartImageAfter,
    /// The start of a link: at a `[`.
    LabelStartLinkStart,
    /// Data: at a byte that begins no construct, or one that failed.
    DataStart,
    /// Data: between data and line endings.
    DataAtBreak,
    /// Data: in it.
    DataInside,
    /// A destination: at the first byte.
    DestinationStart,
    /// A destination: after its `<`, or at its `>`.
    DestinationEnclosedBefore,
    /// A destination: between the angle brackets.
    DestinationEnclosed,
    /// A destination: between the angle brackets, after a backslash.
    DestinationEnclosedEscape,
    /// A destination: with no angle brackets around.
    DestinationRaw,
    /// A destination: with no angle brackets around, after a backslash.
    DestinationRawEscape,
    /// A label: at a `[`.
    LabelStart,
    /// A label: between the parts of the text.
    LabelAtBreak,
    /// A label: after a line ending.
    LabelEolAfter,
    /// A label: if there is no label.
    LabelNok,
    /// A label: in its data.
    LabelInside,
    /// A label: after a backslash.
    LabelEscape,
    /// Spaces and tabs: at the first of them.
    SpaceOrTabStart,
    /// Spaces and tabs: at the next of them.
    SpaceOrTabInside,
    /// Spaces and tabs: after the last of them.
    SpaceOrTabAfter,
    /// White space with at most one line ending: at the first byte.
    SpaceOrTabEolStart,
    /// White space with at most one line ending: after spaces and tabs.
    SpaceOrTabEolAfterFirst,
    /// White space with at most one line ending: where no space or tab comes first.
    SpaceOrTabEolAtEol,
    /// White space with at most one line ending: after the line ending.
    SpaceOrTabEolAfterEol,
    /// White space with at most one line ending: after all of it.
    SpaceOrTabEolAfterMore,
    /// A title: at its first marker.
    TitleStart,
    /// A title: after its first marker, or at its last one.
    TitleBegin,
    /// A title: between the parts of the text.
    TitleAtBreak,
    /// A title: after a line ending.
    TitleAfterEol,
    /// A title: if there is no title.
    TitleNok,
    /// A title: in its data.
    TitleInside,
    /// A title: after a backslash.
    TitleEscape,
    /// A code span, or math in a text: at a byte that may begin a run.
    RawTextStart,
    /// A code span, or math in a text: in the opening run.
    RawTextSequenceOpen,
    /// A code span, or math in a text: between the parts of the text.
    RawTextBetween,
    /// A code span, or math in a text: between its runs.
    RawTextData,
    /// A code span, or math in a text: in a run that may close the text.
    RawTextSequenceClose,
    /// A string: at the first byte.
    StringStart,
    /// A string: before each of its parts.
    StringBefore,
    /// A string: where no construct is.
    StringBeforeData,
    /// A text: at its start.
    TextStart,
    /// A text: before each of its parts.
    TextBefore,
    /// A text: at a `<` that begins no autolink.
    TextBeforeHtml,
    /// A text: at a backslash that escapes nothing.
    TextBeforeHardBreakEscape,
    /// A text: at a `[` that begins no footnote call.
    TextBeforeLabelStartLink,
    /// A text: where no construct is.
    TextBeforeData,
}

/// The states of block constructs: a construct, then where in it the state reads.
#[derive(Clone, Copy, Debug, PartialEq, Eq)]
pub enum Block {
    /// A blank line: at the start of a line.
    BlankLineStart,
    /// A blank line: after spaces and tabs.
    BlankLineAfter,
    /// A block quote: at the start.
    BlockQuoteStart,
    /// A block quote: at the start of a further line.
    BlockQuoteContStart,
    /// A block quote: at the `>`.
    BlockQuoteContBefore,
    /// A block quote: after the `>`.
    BlockQuoteContAfter,
    /// Indented code: at the start of a line.
    CodeIndentedStart,
    /// Indented code: before or after a chunk.
    CodeIndentedAtBreak,
    /// Indented code: in a chunk.
    CodeIndentedInside,
    /// Indented code: at the end.
    CodeIndentedAfter,
    /// Indented code: at a line ending, or at the start of a line.
    CodeIndentedFurtherStart,
    /// Indented code: after an indent.
    CodeIndentedFurtherBegin,
    /// Indented code: in a chunk that may be blank.
    CodeIndentedFurtherAfter,
    /// The lines of a paragraph: at the start of one.
    ContentChunkStart,
    /// The lines of a paragraph: in one.
    ContentChunkInside,
    /// The lines of a paragraph: at the start of one that may begin a definition.
    ContentDefinitionBefore,
    /// The lines of a paragraph: after a definition.
    ContentDefinitionAfter,
    /// A definition: at the start of a line.
    DefinitionStart,
    /// A definition: at the `[`.
    DefinitionBefore,
    /// A definition: after the label.
    DefinitionLabelAfter,
    /// A definition: if there is no label.
    DefinitionLabelNok,
    /// A definition: after the `:`.
    DefinitionMarkerAfter,
    /// A definition: before the destination.
    DefinitionDestinationBefore,
    /// A definition: after the destination.
    DefinitionDestinationAfter,
    /// A definition: if there is no destination.
    DefinitionDestinationMissing,
    /// A definition: after all of it.
    DefinitionAfter,
    /// A definition: after the spaces and tabs at its end.
    DefinitionAfterWhitespace,
    /// A definition: at the white space before a title.
    DefinitionTitleBefore,
    /// A definition: at the title.
    DefinitionTitleBeforeMarker,
    /// A definition: after the title.
    DefinitionTitleAfter,
    /// A definition: after the title and spaces and tabs.
    DefinitionTitleAfterOptionalWhitespace,
    /// A document: at its start.
    DocumentStart,
    /// A document: after a byte order mark.
    DocumentBeforeFrontmatter,
    /// A document: before a container that is open.
    DocumentContainerExistingBefore,
    /// A document: after an open container that continues.
    DocumentContainerExistingAfter,
    /// A document: before a new container.
    DocumentContainerNewBefore,
    /// A document: if no quote begins.
    DocumentContainerNewBeforeNotBlockQuote,
    /// A document: if no item begins.
    DocumentContainerNewBeforeNotList,
    /// A document: if no footnote begins. It reads the columns of a blank line that belong to containers.
    DocumentContainerNewBeforeNotGfmFootnoteDefinition,
    /// A document: after a container that begins.
    DocumentContainerNewAfter,
    /// A document: after the containers of a line.
    DocumentContainersAfter,
    /// A document: in a line.
    DocumentFlowInside,
    /// A document: after a line.
    DocumentFlowEnd,
    /// A block: at the start of a line.
    FlowStart,
    /// A block: before a blank line.
    FlowBlankLineBefore,
    /// A block: before indented code.
    FlowBeforeCodeIndented,
    /// A block: before fenced code or math.
    FlowBeforeRaw,
    /// A block: before HTML.
    FlowBeforeHtml,
    /// A block: before an ATX heading.
    FlowBeforeHeadingAtx,
    /// A block: before a setext underline.
    FlowBeforeHeadingSetext,
    /// A block: before a thematic break.
    FlowBeforeThematicBreak,
    /// A block: before a row of a table.
    FlowBeforeGfmTable,
    /// A block: before a line of a paragraph.
    FlowBeforeContent,
    /// A block: at the end of a blank line.
    FlowBlankLineAfter,
    /// A block: after it, or after a line of a paragraph.
    FlowAfter,
    /// Frontmatter: at the start of the text.
    FrontmatterStart,
    /// Frontmatter: in the opening fence.
    FrontmatterOpenSequence,
    /// Frontmatter: after the opening fence.
    FrontmatterOpenAfter,
    /// Frontmatter: at a closing fence.
    FrontmatterCloseStart,
    /// Frontmatter: in a closing fence.
    FrontmatterCloseSequence,
    /// Frontmatter: after a closing fence.
    FrontmatterCloseAfter,
    /// Frontmatter: at the start of a line.
    FrontmatterContentStart,
    /// Frontmatter: in a line.
    FrontmatterContentInside,
    /// Frontmatter: at the end of a line.
    FrontmatterContentEnd,
    /// Frontmatter: at the end.
    FrontmatterAfter,
    /// A footnote definition: at the start.
    GfmFootnoteDefinitionStart,
    /// A footnote definition: at the `[`.
    GfmFootnoteDefinitionLabelBefore,
    /// A footnote definition: at the `^`.
    GfmFootnoteDefinitionLabelAtMarker,
    /// A footnote definition: in the label.
    GfmFootnoteDefinitionLabelInside,
    /// A footnote definition: after a backslash.
    GfmFootnoteDefinitionLabelEscape,
    /// A footnote definition: after the label.
    GfmFootnoteDefinitionLabelAfter,
    /// A footnote definition: after the `:`.
    GfmFootnoteDefinitionWhitespaceAfter,
    /// A footnote definition: at the start of a further line.
    GfmFootnoteDefinitionContStart,
    /// A footnote definition: at a blank line, on which all items and footnotes continue that may.
    GfmFootnoteDefinitionContBlank,
    /// A footnote definition: at a line with content.
    GfmFootnoteDefinitionContFilled,
    /// A table: at the start of a line.
    GfmTableStart,
    /// A table: before the row of the head.
    GfmTableHeadRowBefore,
    /// A table: at the first bar, or elsewhere.
    GfmTableHeadRowStart,
    /// A table: between the parts of the row.
    GfmTableHeadRowBreak,
    /// A table: in a cell.
    GfmTableHeadRowData,
    /// A table: after a backslash.
    GfmTableHeadRowEscape,
    /// A table: at the start of the row of delimiters.
    GfmTableHeadDelimiterStart,
    /// A table: at a bar, or at the first value.
    GfmTableHeadDelimiterBefore,
    /// A table: after a bar.
    GfmTableHeadDelimiterCellBefore,
    /// A table: before a value.
    GfmTableHeadDelimiterValueBefore,
    /// A table: after a colon on the left.
    GfmTableHeadDelimiterLeftAlignmentAfter,
    /// A table: in dashes.
    GfmTableHeadDelimiterFiller,
    /// A table: after a value.
    GfmTableHeadDelimiterRightAlignmentAfter,
    /// A table: after a value, or at the end of the row.
    GfmTableHeadDelimiterCellAfter,
    /// A table: if there is no row of delimiters.
    GfmTableHeadDelimiterNok,
    /// A table: at the start of a row.
    GfmTableBodyRowStart,
    /// A table: between the parts of a row.
    GfmTableBodyRowBreak,
    /// A table: in a cell.
    GfmTableBodyRowData,
    /// A table: after a backslash.
    GfmTableBodyRowEscape,
    /// An ATX heading: at the start of a line.
    HeadingAtxStart,
    /// An ATX heading: at the first `#`.
    HeadingAtxBefore,
    /// An ATX heading: in the opening sequence.
    HeadingAtxSequenceOpen,
    /// An ATX heading: between the parts.
    HeadingAtxAtBreak,
    /// An ATX heading: in a further sequence.
    HeadingAtxSequenceFurther,
    /// An ATX heading: in its text.
    HeadingAtxData,
    /// The underline of a setext heading: at the start of a line.
    HeadingSetextStart,
    /// The underline of a setext heading: at the first marker.
    HeadingSetextBefore,
    /// The underline of a setext heading: in its run.
    HeadingSetextInside,
    /// The underline of a setext heading: after spaces and tabs.
    HeadingSetextAfter,
    /// An HTML block: at the start of a line.
    HtmlFlowStart,
    /// An HTML block: at the `<`.
    HtmlFlowBefore,
    /// An HTML block: after the `<`.
    HtmlFlowOpen,
    /// An HTML block: after `<!`.
    HtmlFlowDeclarationOpen,
    /// An HTML block: after `<!-`.
    HtmlFlowCommentOpenInside,
    /// An HTML block: in `<![CDATA[`.
    HtmlFlowCdataOpenInside,
    /// An HTML block: after `</`.
    HtmlFlowTagCloseStart,
    /// An HTML block: in the name of a tag.
    HtmlFlowTagName,
    /// An HTML block: after the `/` of a block's tag.
    HtmlFlowBasicSelfClosing,
    /// An HTML block: in a closing tag.
    HtmlFlowCompleteClosingTagAfter,
    /// An HTML block: before an attribute.
    HtmlFlowCompleteAttributeNameBefore,
    /// An HTML block: in the name of an attribute.
    HtmlFlowCompleteAttributeName,
    /// An HTML block: after the name of an attribute.
    HtmlFlowCompleteAttributeNameAfter,
    /// An HTML block: before the value of an attribute.
    HtmlFlowCompleteAttributeValueBefore,
    /// An HTML block: in a quoted value.
    HtmlFlowCompleteAttributeValueQuoted,
    /// An HTML block: in a value.
    HtmlFlowCompleteAttributeValueUnquoted,
    /// An HTML block: after a quoted value.
    HtmlFlowCompleteAttributeValueQuotedAfter,
    /// An HTML block: at the end of a tag.
    HtmlFlowCompleteEnd,
    /// An HTML block: after a tag.
    HtmlFlowCompleteAfter,
    /// An HTML block: in a line.
    HtmlFlowContinuation,
    /// An HTML block: at a line ending, or at the end.
    HtmlFlowContinuationStart,
    /// An HTML block: at a line ending that isn't followed by a lazy line.
    HtmlFlowContinuationStartNonLazy,
    /// An HTML block: at the start of a line.
    HtmlFlowContinuationBefore,
    /// An HTML block: after a `-` of a comment.
    HtmlFlowContinuationCommentInside,
    /// An HTML block: after a `<`.
    HtmlFlowContinuationRawTagOpen,
    /// An HTML block: in the name of a closing tag.
    HtmlFlowContinuationRawEndTag,
    /// An HTML block: after a `]`.
    HtmlFlowContinuationCdataInside,
    /// An HTML block: where a `>` ends it.
    HtmlFlowContinuationDeclarationInside,
    /// An HTML block: in the last line.
    HtmlFlowContinuationClose,
    /// An HTML block: at the end.
    HtmlFlowContinuationAfter,
    /// An HTML block: at the line ending before a blank line.
    HtmlFlowBlankLineBefore,
    /// A list item: at the start.
    ListItemStart,
    /// A list item: at the marker or the number.
    ListItemBefore,
    /// A list item: at the marker.
    ListItemBeforeUnordered,
    /// A list item: at the number.
    ListItemBeforeOrdered,
    /// A list item: in the number.
    ListItemValue,
    /// A list item: at the marker.
    ListItemMarker,
    /// A list item: after the marker.
    ListItemMarkerAfter,
    /// A list item: after the marker of an item that begins with content.
    ListItemMarkerAfterFilled,
    /// A list item: at the white space.
    ListItemWhitespace,
    /// A list item: after up to four columns of a first line, or up to the width of a further one.
    ListItemWhitespaceAfter,
    /// A list item: at further white space.
    ListItemPrefixOther,
    /// A list item: at the content.
    ListItemAfter,
    /// A list item: at the start of a further line.
    ListItemContStart,
    /// A list item: at a blank line, on which all items and footnotes continue that may.
    ListItemContBlank,
    /// A list item: at a line with content.
    ListItemContFilled,
    /// A paragraph: at the first byte.
    ParagraphStart,
    /// A paragraph: at the start of a further line.
    ParagraphLineStart,
    /// A paragraph: in a line.
    ParagraphInside,
    /// A byte order mark: at the start of the text.
    BomStart,
    /// A byte order mark: in its bytes.
    BomInside,
    /// A next line that isn't lazy: at a line ending.
    NonLazyContinuationStart,
    /// A next line that isn't lazy: at the start of the next line.
    NonLazyContinuationAfter,
    /// Fenced code or math: at the start of a line.
    RawFlowStart,
    /// Fenced code or math: at the fence.
    RawFlowBeforeSequenceOpen,
    /// Fenced code or math: in the opening fence.
    RawFlowSequenceOpen,
    /// Fenced code or math: before the info, or at the end of the line.
    RawFlowInfoBefore,
    /// Fenced code or math: in the info.
    RawFlowInfo,
    /// Fenced code or math: before what follows the info, or at the end of the line.
    RawFlowMetaBefore,
    /// Fenced code or math: in what follows the info.
    RawFlowMeta,
    /// Fenced code or math: at a line ending that isn't followed by a lazy line.
    RawFlowAtNonLazyBreak,
    /// Fenced code or math: at the line ending before a closing fence.
    RawFlowCloseStart,
    /// Fenced code or math: at a closing fence.
    RawFlowBeforeSequenceClose,
    /// Fenced code or math: in a closing fence.
    RawFlowSequenceClose,
    /// Fenced code or math: after a closing fence.
    RawFlowSequenceCloseAfter,
    /// Fenced code or math: at the line ending before content.
    RawFlowContentBefore,
    /// Fenced code or math: at the start of a line.
    RawFlowContentStart,
    /// Fenced code or math: before content.
    RawFlowBeforeContentChunk,
    /// Fenced code or math: in content.
    RawFlowContentChunk,
    /// Fenced code or math: at the end.
    RawFlowAfter,
    /// A thematic break: at the start of a line.
    ThematicBreakStart,
    /// A thematic break: at the first marker.
    ThematicBreakBefore,
    /// A thematic break: before a run, or at the end.
    ThematicBreakAtBreak,
    /// A thematic break: in a run.
    ThematicBreakSequence,
}

/// A state of the machines.
#[derive(Clone, Copy, Debug, PartialEq, Eq)]
pub enum Name {
    /// A state of inline structure.
    Inline(Inline),
    /// A state of block structure.
    Block(Block),
}

/// What a state returns: how reading continues. It has 16 bytes, since each step returns one.
#[derive(Clone, Copy, Debug, PartialEq, Eq)]
pub enum State {
    /// Reading failed, for good.
    Error(&'static Message),
    /// The state that reads the next byte.
    Next(Name),
    /// The state that reads the same byte.
    Retry(Name),
    /// The attempt succeeded.
    Ok,
    /// The attempt failed.
    Nok,
}

const _: () = prove!(size_of::<State>() <= 16);

/// The message for out of memory.
const REFUSED: Message = Message {
    place: None,
    reason: "Out of memory",
    rule_id: "memory",
    source: "markdown",
};

impl State {
    ghost use Rattle.engine_states.specs.States.{IsOver, IsRefused, HasResult};

    /// Returns the error state for out of memory.
    pub fn out_of_memory() -> State
        ensures { IsRefused result }
    {
        State::Error(&REFUSED)
    }

    /// Returns `Ok` for success, or the message of an error.
    pub fn to_result(&self) -> Result<(), Message>
        requires { IsOver self.now }
        ensures { HasResult self.now result }
    {
        match self {
            State::Error(message) => Err(**message),
            State::Ok => Ok(()),
            State::Next(_) | State::Retry(_) | State::Nok => unreachable!(),
        }
    }
}
