//! Kinds of nodes.
use engine_events::event::Name;

/// What stands between blocks, and is none.
const BETWEEN_BLOCKS: [Name; 7] = [
    Name::SpaceOrTab,
    Name::LineEnding,
    Name::BlankLineEnding,
    Name::BlockQuotePrefix,
    Name::ListItemPrefix,
    Name::GfmFootnoteDefinitionPrefix,
    Name::ByteOrderMark,
];

/// Whether nodes of a name hold blocks.
pub fn holds_blocks(name: Name) -> bool {
    name == Name::BlockQuote || name == Name::ListItem || name == Name::GfmFootnoteDefinition
}

/// Whether nodes of a name are lists.
pub fn is_list(name: Name) -> bool {
    name == Name::ListOrdered || name == Name::ListUnordered
}

/// Whether nodes of a name stand between blocks, and are none.
pub fn is_between_blocks(name: Name) -> bool {
    BETWEEN_BLOCKS.contains(&name)
}
