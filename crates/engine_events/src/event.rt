//! Events: each enters or exits something at a place.
ghost use Rattle.std.specs.Prelude.{◌≡◌};
ghost use Rattle.engine_events.specs.Links.{present};

use crate::place::Point;
use std::mem::size_of;

/// Whether an event begins or ends something.
#[derive(Clone, Copy, Debug, PartialEq, Eq)]
pub enum Kind {
    /// The start, before what is inside.
    Enter,
    /// The end, after what is inside.
    Exit,
}

/// What a chunk is read as, later.
#[derive(Clone, Copy, Debug, PartialEq, Eq)]
pub enum Content {
    /// Blocks.
    Flow,
    /// The lines of a paragraph, with definitions at their front.
    Content,
    /// Escapes and references alone, as in titles, infos and destinations.
    String,
    /// All inline constructs.
    Text,
}

/// The neighbours of a chunk, which is read later together with them.
#[derive(Clone, Copy, Debug, PartialEq, Eq)]
pub struct Link {
    /// The index of the event that enters the chunk before.
    pub previous: Option<usize>,
    /// The index of the event that enters the chunk after.
    pub next: Option<usize>,
    pub content: Content,
}

/// What begins or ends.
///
/// "Void" means that it holds no other event. The five names of MDX are never made; they are kept to
/// be refused.
#[derive(Clone, Copy, Debug, PartialEq, Eq)]
pub enum Name {
    /// A run of `*`, `_`, `~` or `=` while a text is read (CommonMark 6.2). Never in a finished list.
    AttentionSequence,
    /// A link in angle brackets, from `<` to `>` (CommonMark 6.5).
    Autolink,
    /// The email address between the angle brackets of an autolink. Void.
    AutolinkEmail,
    /// The `<` or the `>` of an autolink: one byte. Void.
    AutolinkMarker,
    /// The URL between the angle brackets of an autolink, with its scheme. Void.
    AutolinkProtocol,
    /// The ending of a blank line: LF, CR or CR LF (CommonMark 4.9). Void.
    BlankLineEnding,
    /// A block quote, with the prefixes of its lines (CommonMark 5.1).
    BlockQuote,
    /// The `>` of a block quote: one byte. Void.
    BlockQuoteMarker,
    /// The prefix of a block quote on a line: `>`, and the space or column of a tab after it.
    BlockQuotePrefix,
    /// U+FEFF at the start of the text: the bytes EF BB BF. Void.
    ByteOrderMark,
    /// A backslash and the ASCII punctuation after it: two bytes (CommonMark 2.4).
    CharacterEscape,
    /// The backslash of a character escape: one byte. Void.
    CharacterEscapeMarker,
    /// The byte that a backslash escapes: ASCII punctuation. Void.
    CharacterEscapeValue,
    /// A character by its name or number, from `&` to `;` (CommonMark 2.5).
    CharacterReference,
    /// The `&` of a character reference: one byte. Void.
    CharacterReferenceMarker,
    /// The `x` or `X` of a hexadecimal character reference: one byte. Void.
    CharacterReferenceMarkerHexadecimal,
    /// The `#` of a character reference by number: one byte. Void.
    CharacterReferenceMarkerNumeric,
    /// The `;` of a character reference: one byte. Void.
    CharacterReferenceMarkerSemi,
    /// The name, 1 to 7 digits, or 1 to 6 hexadecimal digits of a character reference. Void.
    CharacterReferenceValue,
    /// Fenced code, from its opening fence to its closing one, if there is one (CommonMark 4.5).
    CodeFenced,
    /// The opening or the closing fence of code, without the white space before it.
    CodeFencedFence,
    /// The first word after the opening fence of code: the language.
    CodeFencedFenceInfo,
    /// All that follows the language on the opening fence of code.
    CodeFencedFenceMeta,
    /// The run of backticks or tildes of a code fence: at least three. Void.
    CodeFencedFenceSequence,
    /// A line of fenced or indented code, without its indent and its ending. Void.
    CodeFlowChunk,
    /// Indented code, from its first line to its last one with text (CommonMark 4.4).
    CodeIndented,
    /// A code span, with its runs of backticks (CommonMark 6.1).
    CodeText,
    /// The part of a code span on one line, without the line ending. Void.
    CodeTextData,
    /// The run of backticks before or after the text of a code span. Void.
    CodeTextSequence,
    /// The lines of a paragraph before they are read. Never in a finished list.
    Content,
    /// Bytes that stand for themselves, on one line. Void.
    Data,
    /// A link reference definition: a label, `:`, a destination, and a title, if any (CommonMark 4.7).
    Definition,
    /// The destination of a definition, with its angle brackets, if any.
    DefinitionDestination,
    /// The destination of a definition in angle brackets, with these.
    DefinitionDestinationLiteral,
    /// The `<` or the `>` around the destination of a definition: one byte. Void.
    DefinitionDestinationLiteralMarker,
    /// The destination of a definition without angle brackets.
    DefinitionDestinationRaw,
    /// The text of a definition's destination, without angle brackets.
    DefinitionDestinationString,
    /// The label of a definition, from `[` to `]`.
    DefinitionLabel,
    /// The `[` or the `]` of a definition's label: one byte. Void.
    DefinitionLabelMarker,
    /// The text of a definition's label, between the brackets.
    DefinitionLabelString,
    /// The `:` after the label of a definition or of a footnote definition: one byte. Void.
    DefinitionMarker,
    /// The title of a definition, with its quotes or parentheses.
    DefinitionTitle,
    /// The `"`, `'`, `(` or `)` before or after the title of a definition: one byte. Void.
    DefinitionTitleMarker,
    /// The text of a definition's title, between the quotes or parentheses.
    DefinitionTitleString,
    /// Emphasis, with its sequences (CommonMark 6.2).
    Emphasis,
    /// The `*` or `_` before or after emphasized text: one byte. Void.
    EmphasisSequence,
    /// The text that is emphasized, between the sequences.
    EmphasisText,
    /// Metadata at the start of the text, from its opening fence to its closing one (in no standard).
    Frontmatter,
    /// A line of frontmatter, without its ending. Void.
    FrontmatterChunk,
    /// The opening or the closing fence of frontmatter, with the white space after it.
    FrontmatterFence,
    /// The `---` or `+++` of a frontmatter fence: three bytes. Void.
    FrontmatterSequence,
    /// An email address that is a link without brackets (GFM 6.9). Void.
    GfmAutolinkLiteralEmail,
    /// An email address after `mailto:`, with that, as a link without brackets (GFM 6.9). Void.
    GfmAutolinkLiteralMailto,
    /// A link without brackets that begins with `http://` or `https://` (GFM 6.9). Void.
    GfmAutolinkLiteralProtocol,
    /// A link without brackets that begins with `www.` (GFM 6.9). Void.
    GfmAutolinkLiteralWww,
    /// An address after `xmpp:`, with that, as a link without brackets (GFM 6.9). Void.
    GfmAutolinkLiteralXmpp,
    /// A call of a footnote, from `[^` to `]` (in neither standard).
    GfmFootnoteCall,
    /// The `[^` that starts a footnote call: two bytes.
    GfmFootnoteCallLabel,
    /// The `^` of a footnote call: one byte. Void.
    GfmFootnoteCallMarker,
    /// A footnote definition: a container (in neither standard).
    GfmFootnoteDefinition,
    /// The label of a footnote definition, from `[^` to `]`.
    GfmFootnoteDefinitionLabel,
    /// The `[` or the `]` of a footnote definition's label: one byte. Void.
    GfmFootnoteDefinitionLabelMarker,
    /// The text of a footnote definition's label, between `[^` and `]`.
    GfmFootnoteDefinitionLabelString,
    /// The `^` of a footnote definition's label: one byte. Void.
    GfmFootnoteDefinitionMarker,
    /// The label of a footnote definition, its `:`, and the white space after that.
    GfmFootnoteDefinitionPrefix,
    /// Text that is struck through, with its sequences (GFM 6.5).
    GfmStrikethrough,
    /// The one or two tildes before or after text that is struck through. Void.
    GfmStrikethroughSequence,
    /// The text that is struck through, between the sequences.
    GfmStrikethroughText,
    /// A table: its head, and its body, if any (GFM 4.10).
    GfmTable,
    /// The rows of a table after its delimiter row.
    GfmTableBody,
    /// A cell of a row of a table, with the white space in it.
    GfmTableCell,
    /// The bar between two cells, or at an end of a row: one byte. Void.
    GfmTableCellDivider,
    /// The text of a cell, without the white space around it.
    GfmTableCellText,
    /// A cell of the delimiter row of a table, with the white space in it.
    GfmTableDelimiterCell,
    /// The dashes of a delimiter cell, with the colons beside them.
    GfmTableDelimiterCellValue,
    /// The dashes of a delimiter cell: at least one. Void.
    GfmTableDelimiterFiller,
    /// The colon beside the dashes of a delimiter cell, which aligns the column: one byte. Void.
    GfmTableDelimiterMarker,
    /// The second row of a table, which has a delimiter for each column.
    GfmTableDelimiterRow,
    /// The first row of a table and its delimiter row.
    GfmTableHead,
    /// A row of cells of a table, except the delimiter row.
    GfmTableRow,
    /// The check of a task list item, from `[` to `]` (GFM 5.3).
    GfmTaskListItemCheck,
    /// The `[` or the `]` of a task list item's check: one byte. Void.
    GfmTaskListItemMarker,
    /// The `x` or `X` of a check that is done: one byte. Void.
    GfmTaskListItemValueChecked,
    /// The white space in a check that isn't done. Void.
    GfmTaskListItemValueUnchecked,
    /// A backslash at the end of a line, which breaks it: one byte (CommonMark 6.7). Void.
    HardBreakEscape,
    /// Two or more spaces at the end of a line, which break it (CommonMark 6.7). Void.
    HardBreakTrailing,
    /// A heading that begins with `#` (CommonMark 4.2).
    HeadingAtx,
    /// The run of `#` before the text of an ATX heading, 1 to 6 bytes, or the run after it. Void.
    HeadingAtxSequence,
    /// The text of an ATX heading, between the sequences.
    HeadingAtxText,
    /// A heading with an underline (CommonMark 4.3).
    HeadingSetext,
    /// The text of a setext heading: one or more lines.
    HeadingSetextText,
    /// The underline of a setext heading, with the white space after it.
    HeadingSetextUnderline,
    /// The run of `=` or `-` that underlines a setext heading. Void.
    HeadingSetextUnderlineSequence,
    /// An HTML block (CommonMark 4.6).
    HtmlFlow,
    /// A line of an HTML block, without its ending. Void.
    HtmlFlowData,
    /// Raw HTML in a text: a tag, a comment and so on (CommonMark 6.6).
    HtmlText,
    /// The part of raw HTML in a text on one line, without the line ending. Void.
    HtmlTextData,
    /// An image: its label, and a resource or a reference, if any (CommonMark 6.4).
    Image,
    /// The brackets of a link, an image or a footnote call, and what is between them.
    Label,
    /// The `]` that ends the label of a link, an image or a footnote call: one byte.
    LabelEnd,
    /// The `![` that starts the label of an image: two bytes.
    LabelImage,
    /// The `!` of an image: one byte. Void.
    LabelImageMarker,
    /// The `[` that starts the label of a link: one byte.
    LabelLink,
    /// The `[` or the `]` of a link's, an image's or a footnote call's label: one byte. Void.
    LabelMarker,
    /// The text between the brackets of a link, an image or a footnote call.
    LabelText,
    /// A line ending: LF, CR or CR LF (CommonMark 2.1). Void.
    LineEnding,
    /// A link: its label, and a resource or a reference, if any (CommonMark 6.3).
    Link,
    /// An item of a list: a container (CommonMark 5.2).
    ListItem,
    /// The marker of an item: `*`, `+` or `-`, or the `.` or `)` after a number. Void.
    ListItemMarker,
    /// The number and the marker of an item, and the white space after them.
    ListItemPrefix,
    /// The number of an ordered item: 1 to 9 digits. Void.
    ListItemValue,
    /// An ordered list: items with numbers (CommonMark 5.3).
    ListOrdered,
    /// A bullet list: items without numbers (CommonMark 5.3).
    ListUnordered,
    /// Marked text, with its sequences (in no standard).
    Mark,
    /// The `==` before or after marked text: two bytes. Void.
    MarkSequence,
    /// The text that is marked, between the sequences.
    MarkText,
    /// A block of math, from its opening fence to its closing one, if there is one (in no standard).
    MathFlow,
    /// A line of a block of math, without its indent and its ending. Void.
    MathFlowChunk,
    /// The opening or the closing fence of math, without the white space before it.
    MathFlowFence,
    /// All that follows the dollars of the opening fence of math.
    MathFlowFenceMeta,
    /// The run of dollars of a math fence: at least two. Void.
    MathFlowFenceSequence,
    /// Math in a text, with its runs of dollars (in no standard).
    MathText,
    /// The part of math in a text on one line, without the line ending. Void.
    MathTextData,
    /// The run of dollars before or after math in a text. Void.
    MathTextSequence,
    /// An import or export of MDX. Never in a list.
    MdxEsm,
    /// A block in braces of MDX. Never in a list.
    MdxFlowExpression,
    /// A tag of MDX that is a block. Never in a list.
    MdxJsxFlowTag,
    /// A tag of MDX in a text. Never in a list.
    MdxJsxTextTag,
    /// Braces of MDX in a text. Never in a list.
    MdxTextExpression,
    /// A paragraph (CommonMark 4.8).
    Paragraph,
    /// The second pair of brackets of a link or an image: a label, or nothing (CommonMark 6.3).
    Reference,
    /// The `[` or the `]` of a reference: one byte. Void.
    ReferenceMarker,
    /// The label of a full reference, between the brackets.
    ReferenceString,
    /// The destination and the title of a link or an image, from `(` to `)` (CommonMark 6.3).
    Resource,
    /// The destination of a resource, with its angle brackets, if any.
    ResourceDestination,
    /// The destination of a resource in angle brackets, with these.
    ResourceDestinationLiteral,
    /// The `<` or the `>` around the destination of a resource: one byte. Void.
    ResourceDestinationLiteralMarker,
    /// The destination of a resource without angle brackets.
    ResourceDestinationRaw,
    /// The text of a resource's destination, without angle brackets.
    ResourceDestinationString,
    /// The `(` or the `)` of a resource: one byte. Void.
    ResourceMarker,
    /// The title of a resource, with its quotes or parentheses.
    ResourceTitle,
    /// The `"`, `'`, `(` or `)` before or after the title of a resource: one byte. Void.
    ResourceTitleMarker,
    /// The text of a resource's title, between the quotes or parentheses.
    ResourceTitleString,
    /// Spaces and tabs that are no text: one or more, or columns of a cut tab. Void.
    SpaceOrTab,
    /// Strong emphasis, with its sequences (CommonMark 6.2).
    Strong,
    /// The `**` or `__` before or after strongly emphasized text: two bytes. Void.
    StrongSequence,
    /// The text that is strongly emphasized, between the sequences.
    StrongText,
    /// A thematic break: one line (CommonMark 4.1).
    ThematicBreak,
    /// A run of `*`, `-` or `_` of a thematic break, without white space. Void.
    ThematicBreakSequence,
}

/// What holds no other event: its enter is directly followed by its exit.
pub const VOID_EVENTS: [Name; 65] = [
    Name::AttentionSequence,
    Name::AutolinkEmail,
    Name::AutolinkMarker,
    Name::AutolinkProtocol,
    Name::BlankLineEnding,
    Name::BlockQuoteMarker,
    Name::ByteOrderMark,
    Name::CharacterEscapeMarker,
    Name::CharacterEscapeValue,
    Name::CharacterReferenceMarker,
    Name::CharacterReferenceMarkerHexadecimal,
    Name::CharacterReferenceMarkerNumeric,
    Name::CharacterReferenceMarkerSemi,
    Name::CharacterReferenceValue,
    Name::CodeFencedFenceSequence,
    Name::CodeFlowChunk,
    Name::CodeTextData,
    Name::CodeTextSequence,
    Name::Content,
    Name::Data,
    Name::DefinitionDestinationLiteralMarker,
    Name::DefinitionLabelMarker,
    Name::DefinitionMarker,
    Name::DefinitionTitleMarker,
    Name::EmphasisSequence,
    Name::FrontmatterChunk,
    Name::FrontmatterSequence,
    Name::GfmAutolinkLiteralEmail,
    Name::GfmAutolinkLiteralMailto,
    Name::GfmAutolinkLiteralProtocol,
    Name::GfmAutolinkLiteralWww,
    Name::GfmAutolinkLiteralXmpp,
    Name::GfmFootnoteCallMarker,
    Name::GfmFootnoteDefinitionLabelMarker,
    Name::GfmFootnoteDefinitionMarker,
    Name::GfmStrikethroughSequence,
    Name::GfmTableCellDivider,
    Name::GfmTableDelimiterFiller,
    Name::GfmTableDelimiterMarker,
    Name::GfmTaskListItemMarker,
    Name::GfmTaskListItemValueChecked,
    Name::GfmTaskListItemValueUnchecked,
    Name::HardBreakEscape,
    Name::HardBreakTrailing,
    Name::HeadingAtxSequence,
    Name::HeadingSetextUnderlineSequence,
    Name::HtmlFlowData,
    Name::HtmlTextData,
    Name::LabelImageMarker,
    Name::LabelMarker,
    Name::LineEnding,
    Name::ListItemMarker,
    Name::ListItemValue,
    Name::MarkSequence,
    Name::MathFlowChunk,
    Name::MathFlowFenceSequence,
    Name::MathTextData,
    Name::MathTextSequence,
    Name::ReferenceMarker,
    Name::ResourceDestinationLiteralMarker,
    Name::ResourceMarker,
    Name::ResourceTitleMarker,
    Name::SpaceOrTab,
    Name::StrongSequence,
    Name::ThematicBreakSequence,
];

/// The start or the end of something.
///
/// An event has 48 bytes, so its place and link are stored as plain fields (`point`, `link`).
#[derive(Clone, Copy, Debug, PartialEq, Eq)]
pub struct Event {
    pub kind: Kind,
    pub name: Name,
    virtual_space: u8,
    content: Option<Content>,
    has_previous: bool,
    has_next: bool,
    line: usize,
    column: usize,
    index: usize,
    previous: usize,
    next: usize,
}

const _: () = prove!(size_of::<Event>() <= 48);

impl Event {
    ghost use Rattle.std.specs.Prelude.{◌≡◌, None};
    ghost use Rattle.engine_events.specs.Events.{event, link_of, point_of, with_link};

    /// Returns an event at a point. A chunk that is read later has a link to its neighbours.
    pub fn new(kind: Kind, name: Name, point: Point, link: Option<Link>) -> Event
        ensures event { result ≡ event kind name point link }
        ensures kind { result.kind ≡ kind }
        ensures name { result.name ≡ name }
        ensures point { point_of result ≡ point }
        ensures link { link_of result ≡ link }
    {
        let (previous, next) = match link {
            Some(link) => (link.previous, link.next),
            None => (None, None),
        };
        Event {
            kind,
            name,
            virtual_space: point.vs,
            content: link.map(|link| link.content),
            has_previous: previous.is_some(),
            has_next: next.is_some(),
            line: point.line,
            column: point.column,
            index: point.index,
            previous: previous.unwrap_or(0),
            next: next.unwrap_or(0),
        }
    }

    /// Where the event is.
    pub fn point(&self) -> Point
        ensures { result ≡ point_of self.now }
    {
        Point {
            line: self.line,
            column: self.column,
            index: self.index,
            vs: self.virtual_space,
        }
    }

    /// The neighbours, if it is a chunk that is read later.
    pub fn link(&self) -> Option<Link>
        ensures { result ≡ link_of self.now }
    {
        let content = self.content?;
        Some(Link {
            previous: present(self.has_previous, self.previous),
            next: present(self.has_next, self.next),
            content,
        })
    }

    /// Gives the event these neighbours, or none.
    pub fn set_link(&mut self, link: Option<Link>)
        ensures event { self.new ≡ with_link link self.old }
        ensures link { link_of self.new ≡ link }
        ensures point { point_of self.new ≡ point_of self.old }
    {
        *self = Event::new(self.kind, self.name, self.point(), link);
    }
}

/// A number that may be absent.
fn present(there: bool, number: usize) -> Option<usize>
    ensures { result ≡ present there number }
{
    if there { Some(number) } else { None }
}
