//! Containers: which go on, and which start (CommonMark 5).
//!
//!     start ::= quote_prefix | item_start | footnote_start
ghost use Rattle.std.specs.Prelude.{◌≡◌, true};
ghost use Rattle.definition_text.specs.Columns.{bare};
ghost use Rattle.definition_block.specs.Containers as spec;
ghost use Rattle.block_starts.specs.Marks.{container_may_start, may_start};
ghost use Rattle.block_starts.specs.View.{rest_of, line_if, container_view, started_if};

use crate::block_quote::quote_prefix;
use crate::container_line::ContainerLine;
use crate::cursor::Cursor;
use crate::gfm_footnote_definition::{footnote_continues, footnote_may_start, footnote_start};
use crate::list_item::{item_continues, item_start};
use markdown_options::{Constructs, Container};

/// What is left after what the container has on this line, if it goes on. `began_blank` says of an
/// item that it began with a blank rest on the line before.
pub fn continues<'a>(
    on: &Constructs,
    container: Container<'_>,
    began_blank: bool,
    rest: Cursor<'a>,
) -> Option<ContainerLine<'a>>
    ensures { line_if result ≡ spec.continues on.now (container_view container.entry) began_blank (rest_of rest.entry) }
{
    match container {
        Container::Quote => quote_prefix(on, rest),
        Container::Item(item) => item_continues(item.size, began_blank, rest),
        Container::Footnote(_) => footnote_continues(rest),
    }
}

/// Whether a container may start here: the rest begins as a marker does, that of a footnote
/// definition where these are on. It is asked first, as most rests start none, and a container is
/// answered through memory.
#[inline(always)]
pub fn container_may_start(on: &Constructs, rest: &Cursor<'_>) -> bool
    ensures { result ≡ container_may_start on.now (rest_of rest.now) }
{
    rest.may_start() || footnote_may_start(on, rest)
}

/// The container that starts here, and what it leaves of the line. `interrupts` says that it would
/// interrupt a paragraph.
#[inline(always)]
pub fn starts<'a>(
    on: &Constructs,
    interrupts: bool,
    rest: Cursor<'a>,
) -> Option<(Container<'a>, ContainerLine<'a>)>
    ensures { started_if result ≡ spec.starts on.now interrupts (rest_of rest.entry) }
{
    if rest.may_start() {
        quote_or_item(on, interrupts, rest)
    } else {
        footnote_start(on, rest)
    }
}

/// The quote or the item that starts here, and what it leaves of the line.
#[inline(never)]
fn quote_or_item<'a>(
    on: &Constructs,
    interrupts: bool,
    rest: Cursor<'a>,
) -> Option<(Container<'a>, ContainerLine<'a>)>
    requires { may_start (bare (rest_of rest)) ≡ true }
    ensures { started_if result ≡ spec.starts on.now interrupts (rest_of rest.entry) }
{
    match quote_prefix(on, rest) {
        Some(line) => Some((Container::Quote, line)),
        None => item_start(on, interrupts, rest),
    }
}
