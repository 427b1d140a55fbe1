//! Line endings (CommonMark 2.1).
ghost use Rattle.std.specs.Prelude.{◌≡◌, OnOk};
ghost use Rattle.markdown_compile_options.specs.declared.configuration.CompileOptions.{CompileOptions};
ghost use Rattle.definition_inline.specs.CharacterReference.{Names};
ghost use Rattle.definition_page.specs.GfmTable.{endings_pieces};
ghost use Rattle.event_grammar.specs.Trees as tree;
ghost use Rattle.event_grammar.specs.Trees.{Nodes, Nil, Cons, AreNodes, events_of};
ghost use Rattle.compile_levels.specs.Siblings.{Reads};
ghost use Rattle.event_meaning.specs.Children.{text_of};
ghost use Rattle.event_meaning.specs.GfmTable.{endings_in};
ghost use Rattle.event_meaning.specs.Raw as meaning;
ghost use Rattle.html_bytes.specs.Pieces.{in_bytes};
ghost use Rattle.html_leaves.specs.Prints.{KeepsEnding, LaysOut, Prints};
ghost use Rattle.compile_raw.specs.Endings.{endings_bytes};

use crate::piece::piece_of;
use compile_levels::node::{Node, first_node};
use engine_events::event::{Event, Name};
use html_leaves::Page;
use markdown_options::LineEnding;
use std::alloc::{AllocError, Allocator};

/// Returns the line ending that an event of the text is.
pub fn ending_of(bytes: &[u8], node: &Node<'_>) -> LineEnding
    ensures { (n : tree.Node) → Reads node.now n → result ≡ meaning.ending_of (text_of bytes.now n) }
{
    ending_of_bytes(piece_of(bytes, node))
}

fn ending_of_bytes(bytes: &[u8]) -> LineEnding
    ensures { result ≡ meaning.ending_of bytes.now }
{
    match bytes {
        [] => LineEnding::LineFeed,
        [byte] => {
            if *byte == b'\r' {
                LineEnding::CarriageReturn
            } else {
                LineEnding::LineFeed
            }
        }
        _ => LineEnding::CarriageReturnLineFeed,
    }
}

/// Prints the endings among these siblings.
pub fn push_endings<A: Allocator + Clone>(
    page: &mut Page<A>,
    bytes: &[u8],
    events: &[Event],
) -> Result<(), AllocError>
    ensures default { KeepsEnding page.old page.new }
    ensures printed { (names : Names) (options : CompileOptions) (ns : Nodes) → AreNodes ns → events.now ≡ events_of ns →
        OnOk result (LaysOut options page.old page.new (in_bytes (endings_pieces (endings_in names bytes.now ns)))) }
{
    let mut rest = events;
    while let Some((node, after)) = first_node(rest) {
        push_if_ending(page, bytes, &node)?;
        rest = after;
    }
    Ok(())
}

/// Prints an event if it is a line ending.
fn push_if_ending<A: Allocator + Clone>(
    page: &mut Page<A>,
    bytes: &[u8],
    node: &Node<'_>,
) -> Result<(), AllocError>
    ensures default { KeepsEnding page.old page.new }
    ensures printed { (names : Names) (n : tree.Node) → Reads node.now n →
        OnOk result (Prints page.old page.new (endings_bytes (endings_in names bytes.now (Cons n Nil)))) }
{
    if node.name == Name::LineEnding {
        page.push_ending(Some(ending_of(bytes, node)))
    } else {
        Ok(())
    }
}
