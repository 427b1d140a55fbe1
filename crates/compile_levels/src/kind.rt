//! Which block an event is.
ghost use Rattle.std.specs.Prelude.{◌≡◌};
ghost use Rattle.compile_levels.specs.Kinds.{kind_of, container_kind};

use engine_events::event::Name;

/// What an event is among the children of a container.
#[derive(Clone, Copy, Debug, PartialEq, Eq)]
pub enum BlockKind {
    /// A line ending.
    Ending,
    /// The ending of a blank line.
    Blank,
    /// A paragraph.
    Paragraph,
    /// A heading that begins with `#`.
    HeadingAtx,
    /// A heading with a line below it.
    HeadingSetext,
    /// A thematic break.
    ThematicBreak,
    /// Indented code.
    CodeIndented,
    /// Fenced code.
    CodeFenced,
    /// A block of math.
    MathFlow,
    /// An HTML block.
    HtmlFlow,
    /// A table.
    Table,
    /// A link reference definition, or frontmatter: it prints nothing.
    Definition,
    /// A block quote.
    Quote,
    /// A bullet list.
    UnorderedList,
    /// An ordered list.
    OrderedList,
    /// An item of a list.
    Item,
    /// A footnote definition.
    Footnote,
    /// No block.
    Other,
}

/// Returns which block an event of this name is.
pub fn kind_of(name: Name) -> BlockKind
    ensures { result ≡ kind_of name }
{
    if name == Name::LineEnding {
        BlockKind::Ending
    } else if name == Name::BlankLineEnding {
        BlockKind::Blank
    } else if name == Name::Paragraph {
        BlockKind::Paragraph
    } else if name == Name::HeadingAtx {
        BlockKind::HeadingAtx
    } else if name == Name::HeadingSetext {
        BlockKind::HeadingSetext
    } else if name == Name::ThematicBreak {
        BlockKind::ThematicBreak
    } else if name == Name::CodeIndented {
        BlockKind::CodeIndented
    } else if name == Name::CodeFenced {
        BlockKind::CodeFenced
    } else if name == Name::MathFlow {
        BlockKind::MathFlow
    } else if name == Name::HtmlFlow {
        BlockKind::HtmlFlow
    } else if name == Name::GfmTable {
        BlockKind::Table
    } else if name == Name::Definition || name == Name::Frontmatter {
        BlockKind::Definition
    } else {
        container_kind(name)
    }
}

/// Which container, list or item an event of this name is.
fn container_kind(name: Name) -> BlockKind
    ensures { result ≡ container_kind name }
{
    if name == Name::BlockQuote {
        BlockKind::Quote
    } else if name == Name::ListUnordered {
        BlockKind::UnorderedList
    } else if name == Name::ListOrdered {
        BlockKind::OrderedList
    } else if name == Name::ListItem {
        BlockKind::Item
    } else if name == Name::GfmFootnoteDefinition {
        BlockKind::Footnote
    } else {
        BlockKind::Other
    }
}
