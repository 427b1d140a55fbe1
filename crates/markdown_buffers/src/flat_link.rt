//! Links as C reads them.
ghost use Rattle.std.specs.Prelude.{◌≡◌, ◌≤◌, ◌++◌, length, map, drop};
ghost use Rattle.markdown_buffers.specs.FlatLinks.{flat_link, kind_number};

use markdown_links::{Link, LinkKind};

/// A link, as C reads it. Its fields are those of the struct in the header.
#[repr(C)]
#[derive(Clone, Copy)]
pub struct FlatLink {
    /// How many bytes of the text are before it.
    pub offset: usize,
    /// The line of its start, from 1.
    pub line: usize,
    /// The column of its start, from 1.
    pub column: usize,
    /// How many bytes of the text are before its end.
    pub end_offset: usize,
    /// The line of its end, from 1.
    pub end_line: usize,
    /// The column of its end, from 1.
    pub end_column: usize,
    /// The index of its enter among the events.
    pub event: usize,
    /// How many bytes of the buffer are before its destination.
    pub destination: usize,
    /// How many bytes its destination has.
    pub destination_size: usize,
    /// The index in the array of the definition that its label leads to, or `NO_DEFINITION`.
    pub definition: usize,
    /// The number of its kind.
    pub kind: u8,
}

/// The definition of a link that has none.
pub const NO_DEFINITION: usize = usize::MAX;

/// The number of a kind.
fn kind_number(kind: LinkKind) -> u8
    ensures { result ≡ kind_number kind }
{
    match kind {
        LinkKind::Link => 0,
        LinkKind::Image => 1,
        LinkKind::Autolink => 2,
        LinkKind::Literal => 3,
        LinkKind::Definition => 4,
    }
}

/// A link, as C reads it.
fn flat_link(link: &Link) -> FlatLink
    ensures { result ≡ flat_link link.now }
{
    FlatLink {
        offset: link.start.index,
        line: link.start.line,
        column: link.start.column,
        end_offset: link.end.index,
        end_line: link.end.line,
        end_column: link.end.column,
        event: link.event,
        destination: link.destination.start,
        destination_size: link.destination.end.saturating_sub(link.destination.start),
        definition: link.definition.unwrap_or(NO_DEFINITION),
        kind: kind_number(link.kind),
    }
}

/// Writes links at the front of an array, and leaves the rest of it.
pub(crate) fn write_links(array: &mut [FlatLink], links: &[Link])
    requires room { length links.now ≤ length array.old }
    ensures written { array.new ≡ map flat_link links.now ++ drop (length links.now) array.old }
{
    for (index, link) in links.iter().enumerate() {
        array[index] = flat_link(link);
    }
}
