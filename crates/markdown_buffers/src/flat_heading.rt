//! Headings as C reads them.
ghost use Rattle.std.specs.Prelude.{◌≡◌, ◌≤◌, ◌++◌, length, map, drop};
ghost use Rattle.markdown_buffers.specs.FlatHeadings.{flat_heading};

use markdown_outline::Heading;

/// A heading, as C reads it. Its fields are those of the struct in the header.
#[repr(C)]
#[derive(Clone, Copy)]
pub struct FlatHeading {
    /// How many bytes of the text are before it.
    pub offset: usize,
    /// The line of its start, from 1.
    pub line: usize,
    /// The column of its start, from 1.
    pub column: usize,
    /// How many bytes of the text are before its end.
    pub end_offset: usize,
    /// The line of its end, from 1.
    pub end_line: usize,
    /// The column of its end, from 1.
    pub end_column: usize,
    /// The index of its enter among the events.
    pub event: usize,
    /// How many bytes of the buffer are before its text.
    pub text: usize,
    /// How many bytes its text has.
    pub text_size: usize,
    /// How many bytes of the buffer are before its slug.
    pub slug: usize,
    /// How many bytes its slug has.
    pub slug_size: usize,
    /// Its rank, from 1 to 6.
    pub rank: u8,
}

/// A heading, as C reads it.
fn flat_heading(heading: &Heading) -> FlatHeading
    ensures { result ≡ flat_heading heading.now }
{
    FlatHeading {
        offset: heading.start.index,
        line: heading.start.line,
        column: heading.start.column,
        end_offset: heading.end.index,
        end_line: heading.end.line,
        end_column: heading.end.column,
        event: heading.event,
        text: heading.text.start,
        text_size: heading.text.end.saturating_sub(heading.text.start),
        slug: heading.slug.start,
        slug_size: heading.slug.end.saturating_sub(heading.slug.start),
        rank: heading.rank,
    }
}

/// Writes headings at the front of an array, and leaves the rest of it.
pub(crate) fn write_headings(array: &mut [FlatHeading], headings: &[Heading])
    requires room { length headings.now ≤ length array.old }
    ensures written { array.new ≡ map flat_heading headings.now ++ drop (length headings.now) array.old }
{
    for (index, heading) in headings.iter().enumerate() {
        array[index] = flat_heading(heading);
    }
}
