//! Leaf blocks that are open.
use block_starts::code_fenced::Fence;
use block_starts::html_flow::HtmlKind;
use markdown_options::LineEnding;

/// The leaf that is open. Its lines are those that no row has taken.
#[derive(Clone, Copy)]
pub enum OpenLeaf<'a> {
    /// A paragraph, or nothing where there is no line.
    Text,
    /// Indented code of this many lines. The lines after them are blank, and may end it.
    Indented {
        count: usize,
        ending: Option<LineEnding>,
    },
    /// Fenced code. Its first line is its info.
    Fenced {
        fence: Fence<'a>,
        ending: Option<LineEnding>,
    },
    /// An HTML block.
    Html {
        kind: HtmlKind,
        ending: Option<LineEnding>,
    },
    /// A table.
    Table {
        ending: Option<LineEnding>,
    },
}
