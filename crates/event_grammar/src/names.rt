//! Names that go together.
ghost use Rattle.std.specs.Prelude.{◌≡◌};
ghost use Rattle.engine_events.specs.Names.{is_listed};
ghost use Rattle.event_grammar.specs.Grammar.{block_names, string_names, text_names, line_names, one_line_names, mdx_names, link_names, cell_names};
ghost use Rattle.event_grammar.specs.Voids.{asks, is_between, is_not, void_of};
ghost use Rattle.event_grammar.specs.Marked.{is_marked};
ghost use Rattle.event_grammar.specs.declared.slot.Between.TheVariants.{Lines};
ghost use Rattle.event_grammar.specs.Facts.{ending_names, asks_bytes};

use engine_events::event::Name;

/// Whether a name is one of MDX.
pub fn is_mdx(name: Name) -> bool
    ensures { result ≡ is_listed mdx_names name }
{
    matches!(
        name,
        Name::MdxEsm
            | Name::MdxFlowExpression
            | Name::MdxTextExpression
            | Name::MdxJsxFlowTag
            | Name::MdxJsxTextTag
    )
}

/// Whether a name is a link or a footnote call, which stand in no other.
#[inline(always)]
pub fn is_link(name: Name) -> bool
    ensures { result ≡ is_listed link_names name }
{
    matches!(name, Name::Link | Name::GfmFootnoteCall)
}

/// Whether a name is a cell of a table.
#[inline(always)]
pub fn is_cell(name: Name) -> bool
    ensures { result ≡ is_listed cell_names name }
{
    matches!(name, Name::GfmTableCell | Name::GfmTableDelimiterCell)
}

/// Whether a name is a line ending.
pub fn is_ending_name(name: Name) -> bool
    ensures { result ≡ is_listed ending_names name }
{
    matches!(name, Name::LineEnding | Name::BlankLineEnding)
}

/// Whether a name may stand between children where lines may end, besides spaces.
pub fn is_line(name: Name) -> bool
    ensures { result ≡ is_listed line_names name }
{
    matches!(
        name,
        Name::LineEnding | Name::BlankLineEnding | Name::BlockQuotePrefix
    )
}

/// Whether no line ends within an event of a name.
#[inline(always)]
pub fn is_one_line(name: Name) -> bool
    ensures { result ≡ is_listed one_line_names name }
{
    matches!(
        name,
        Name::BlockQuotePrefix
            | Name::ListItemPrefix
            | Name::GfmFootnoteDefinitionPrefix
            | Name::FrontmatterFence
            | Name::CodeFencedFence
            | Name::MathFlowFence
            | Name::DefinitionDestination
            | Name::ResourceDestination
            | Name::HeadingAtx
            | Name::GfmTableRow
            | Name::GfmTableDelimiterRow
            | Name::GfmTableCell
            | Name::GfmTableDelimiterCell
            | Name::LabelLink
            | Name::LabelImage
            | Name::LabelEnd
            | Name::Autolink
            | Name::CharacterEscape
            | Name::CharacterReference
    )
}

/// Whether an event of this name needs a definition, tells which label such an event has, or defines
/// one.
pub fn is_marked(name: Name) -> bool
    ensures { result ≡ is_marked name }
{
    matches!(
        name,
        Name::Link
            | Name::Image
            | Name::GfmFootnoteCall
            | Name::Resource
            | Name::ReferenceString
            | Name::LabelText
            | Name::DefinitionLabelString
            | Name::GfmFootnoteDefinitionLabelString
    )
}

/// Whether a name is a block.
pub fn is_block(name: Name) -> bool
    ensures { result ≡ is_listed block_names name }
{
    matches!(
        name,
        Name::BlockQuote
            | Name::ListOrdered
            | Name::ListUnordered
            | Name::GfmFootnoteDefinition
            | Name::CodeFenced
            | Name::CodeIndented
            | Name::MathFlow
            | Name::HtmlFlow
            | Name::Definition
            | Name::Paragraph
            | Name::HeadingAtx
            | Name::HeadingSetext
            | Name::GfmTable
            | Name::ThematicBreak
    )
}

/// Whether a name is what a string holds.
pub fn is_string_part(name: Name) -> bool
    ensures { result ≡ is_listed string_names name }
{
    matches!(
        name,
        Name::Data | Name::CharacterEscape | Name::CharacterReference
    )
}

/// Whether a name is what a text holds.
#[inline(always)]
pub fn is_text_part(name: Name) -> bool
    ensures { result ≡ is_listed text_names name }
{
    matches!(
        name,
        Name::Data
            | Name::CharacterEscape
            | Name::CharacterReference
            | Name::Autolink
            | Name::GfmAutolinkLiteralEmail
            | Name::GfmAutolinkLiteralMailto
            | Name::GfmAutolinkLiteralProtocol
            | Name::GfmAutolinkLiteralWww
            | Name::GfmAutolinkLiteralXmpp
            | Name::CodeText
            | Name::MathText
            | Name::HtmlText
            | Name::HardBreakEscape
            | Name::HardBreakTrailing
            | Name::Emphasis
            | Name::Strong
            | Name::GfmStrikethrough
            | Name::Mark
            | Name::Link
            | Name::Image
            | Name::GfmFootnoteCall
            | Name::GfmTaskListItemCheck
    )
}

/// Whether anything is asked of the bytes of an event of this name.
#[inline(always)]
pub fn asks_bytes(name: Name) -> bool
    ensures { result ≡ asks_bytes name }
{
    matches!(
        name,
        Name::LineEnding
            | Name::BlankLineEnding
            | Name::ListItemValue
            | Name::HeadingAtxSequence
            | Name::CharacterReferenceValue
    )
}

/// What is asked of an event that holds no other, by its name.
#[derive(Clone, Copy, Debug, PartialEq, Eq)]
pub enum Void {
    /// An event that holds others, or one of MDX.
    Not,
    /// Spaces and tabs.
    Space,
    /// A line ending: LF, CR or CR LF.
    Ending,
    /// Bytes that the name restricts: a number, the sequence of a heading, the value of a reference.
    Asking,
    /// Any bytes.
    Plain,
}

impl Void {
    /// Whether it holds others, or is one of MDX.
    #[inline(always)]
    pub fn is_not(self) -> bool
        ensures { result ≡ is_not self }
    {
        matches!(self, Void::Not)
    }

    /// Whether it stands between the children of a row: spaces, or a line ending.
    #[inline(always)]
    pub fn is_between(self) -> bool
        ensures { result ≡ is_between Lines self }
    {
        matches!(self, Void::Space | Void::Ending)
    }

    /// Whether anything is asked of its bytes.
    #[inline(always)]
    pub fn asks(self) -> bool
        ensures { result ≡ asks self }
    {
        matches!(self, Void::Ending | Void::Asking)
    }
}

/// What is asked of an event of this name, if it holds no other.
#[inline(always)]
pub fn void_of(name: Name) -> Void
    ensures { result ≡ void_of name }
{
    match name {
        Name::SpaceOrTab => Void::Space,
        Name::LineEnding | Name::BlankLineEnding => Void::Ending,
        Name::ListItemValue | Name::HeadingAtxSequence | Name::CharacterReferenceValue => {
            Void::Asking
        }
        Name::AttentionSequence
        | Name::AutolinkEmail
        | Name::AutolinkMarker
        | Name::AutolinkProtocol
        | Name::BlockQuoteMarker
        | Name::ByteOrderMark
        | Name::CharacterEscapeMarker
        | Name::CharacterEscapeValue
        | Name::CharacterReferenceMarker
        | Name::CharacterReferenceMarkerHexadecimal
        | Name::CharacterReferenceMarkerNumeric => Void::Plain,
        Name::CharacterReferenceMarkerSemi
        | Name::CodeFencedFenceSequence
        | Name::CodeFlowChunk
        | Name::CodeTextData
        | Name::CodeTextSequence
        | Name::Content
        | Name::Data
        | Name::DefinitionDestinationLiteralMarker
        | Name::DefinitionLabelMarker
        | Name::DefinitionMarker
        | Name::DefinitionTitleMarker => Void::Plain,
        Name::EmphasisSequence
        | Name::FrontmatterChunk
        | Name::FrontmatterSequence
        | Name::GfmAutolinkLiteralEmail
        | Name::GfmAutolinkLiteralMailto
        | Name::GfmAutolinkLiteralProtocol
        | Name::GfmAutolinkLiteralWww
        | Name::GfmAutolinkLiteralXmpp
        | Name::GfmFootnoteCallMarker
        | Name::GfmFootnoteDefinitionLabelMarker
        | Name::GfmFootnoteDefinitionMarker
        | Name::GfmStrikethroughSequence => Void::Plain,
        Name::GfmTableCellDivider
        | Name::GfmTableDelimiterFiller
        | Name::GfmTableDelimiterMarker
        | Name::GfmTaskListItemMarker
        | Name::GfmTaskListItemValueChecked
        | Name::GfmTaskListItemValueUnchecked
        | Name::HardBreakEscape
        | Name::HardBreakTrailing
        | Name::HeadingSetextUnderlineSequence
        | Name::HtmlFlowData
        | Name::HtmlTextData => Void::Plain,
        Name::LabelImageMarker
        | Name::LabelMarker
        | Name::ListItemMarker
        | Name::MarkSequence
        | Name::MathFlowChunk
        | Name::MathFlowFenceSequence
        | Name::MathTextData
        | Name::MathTextSequence
        | Name::ReferenceMarker
        | Name::ResourceDestinationLiteralMarker => Void::Plain,
        Name::ResourceMarker
        | Name::ResourceTitleMarker
        | Name::StrongSequence
        | Name::ThematicBreakSequence => Void::Plain,
        Name::Autolink
        | Name::BlockQuote
        | Name::BlockQuotePrefix
        | Name::CharacterEscape
        | Name::CharacterReference
        | Name::CodeFenced
        | Name::CodeFencedFence
        | Name::CodeFencedFenceInfo
        | Name::CodeFencedFenceMeta
        | Name::CodeIndented
        | Name::CodeText
        | Name::Definition => Void::Not,
        Name::DefinitionDestination
        | Name::DefinitionDestinationLiteral
        | Name::DefinitionDestinationRaw
        | Name::DefinitionDestinationString
        | Name::DefinitionLabel
        | Name::DefinitionLabelString
        | Name::DefinitionTitle
        | Name::DefinitionTitleString
        | Name::Emphasis
        | Name::EmphasisText
        | Name::Frontmatter
        | Name::FrontmatterFence => Void::Not,
        Name::GfmFootnoteCall
        | Name::GfmFootnoteCallLabel
        | Name::GfmFootnoteDefinition
        | Name::GfmFootnoteDefinitionLabel
        | Name::GfmFootnoteDefinitionLabelString
        | Name::GfmFootnoteDefinitionPrefix
        | Name::GfmStrikethrough
        | Name::GfmStrikethroughText
        | Name::GfmTable
        | Name::GfmTableBody
        | Name::GfmTableCell
        | Name::GfmTableCellText => Void::Not,
        Name::GfmTableDelimiterCell
        | Name::GfmTableDelimiterCellValue
        | Name::GfmTableDelimiterRow
        | Name::GfmTableHead
        | Name::GfmTableRow
        | Name::GfmTaskListItemCheck
        | Name::HeadingAtx
        | Name::HeadingAtxText
        | Name::HeadingSetext
        | Name::HeadingSetextText
        | Name::HeadingSetextUnderline
        | Name::HtmlFlow => Void::Not,
        Name::HtmlText
        | Name::Image
        | Name::Label
        | Name::LabelEnd
        | Name::LabelImage
        | Name::LabelLink
        | Name::LabelText
        | Name::Link
        | Name::ListItem
        | Name::ListItemPrefix
        | Name::ListOrdered
        | Name::ListUnordered => Void::Not,
        Name::Mark
        | Name::MarkText
        | Name::MathFlow
        | Name::MathFlowFence
        | Name::MathFlowFenceMeta
        | Name::MathText
        | Name::MdxEsm
        | Name::MdxFlowExpression
        | Name::MdxJsxFlowTag
        | Name::MdxJsxTextTag
        | Name::MdxTextExpression
        | Name::Paragraph => Void::Not,
        Name::Reference
        | Name::ReferenceString
        | Name::Resource
        | Name::ResourceDestination
        | Name::ResourceDestinationLiteral
        | Name::ResourceDestinationRaw
        | Name::ResourceDestinationString
        | Name::ResourceTitle
        | Name::ResourceTitleString
        | Name::Strong
        | Name::StrongText
        | Name::ThematicBreak => Void::Not,
    }
}
