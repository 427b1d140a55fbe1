//! From an offset in bytes to a line and a column, and from a part of a text to the whole.
ghost use Rattle.std.specs.Prelude.{◌≡◌, ◌≤◌, ◌<◌, ◌+◌, ◌^◌, IfOk, IfSome, length, take};
ghost use Rattle.engine_text.specs.Stops.{stop_for};
ghost use Rattle.std.specs.List.Sorted.{IsNonDecreasing};
ghost use Rattle.std.specs.List.{filter};
ghost use Rattle.engine_text.specs.Lines.{ends_here, line_starts, before_or_at, last_or};

use markdown_options::Message;
use markdown_options::unist::Point;
use std::alloc::{AllocError, Allocator};

/// A place of a part of a text, and the same place in the whole text. Up to the next stop both have
/// the same bytes.
pub type Stop = (usize, usize);

/// Where the lines of a text start.
#[derive(Drop)]
pub struct Location<A: Allocator> {
    /// Where lines start, but for the first.
    starts: Vec<usize, A>,
    /// The size of the text in bytes.
    size: usize,
    ghost fits: { size < 2 ^ 61 },
    ghost rising: { IsNonDecreasing starts.items },
}

impl<A: Allocator> Location<A> {
    ghost use Rattle.std.specs.Prelude.{◌≡◌, ◌≤◌, ◌<◌, ◌+◌, ◌-◌, ◌^◌, ℕ, List, IfErr, IfOk, length};
    ghost use Rattle.std.specs.Option.{option_and_then};
    ghost use Rattle.markdown_options.specs.Messages.{IsOutOfMemory};
    ghost use Rattle.engine_text.specs.Locations.{Locates, point_at};
    ghost use Rattle.engine_text.specs.Stops.{absolute, StopFits};

    /// The lines of a text (CommonMark 2.1).
    pub fn new(alloc: A, bytes: &[u8]) -> Result<Location<A>, Message>
        requires { length bytes.now < 2 ^ 61 }
        ensures lines { IfOk result (λ location. Locates location bytes.now) }
        ensures memory { IfErr result IsOutOfMemory }
    {
        Ok(Location {
            starts: line_starts(alloc, bytes)?,
            size: bytes.len(),
        })
    }

    /// The line and the column of an offset, in bytes; none past the text's end.
    ///
    /// An offset within CR LF is on the line that they end.
    pub fn to_point(&self, offset: usize) -> Option<Point>
        ensures { (bytes : List ℕ) → Locates self.now bytes → result ≡ point_at bytes offset }
    {
        if offset > self.size {
            return None;
        }
        let starts = self.starts.as_slice();
        let line = lines_to(starts, offset);
        let start = start_of(starts, line);
        Some(Point::new(line + 1, offset - start + 1, offset))
    }

    /// The line and the column in the whole of a place of a part of it.
    pub fn relative_to_point(&self, stops: &[Stop], relative: usize) -> Option<Point>
        requires { StopFits stops.now relative }
        ensures { (bytes : List ℕ) → Locates self.now bytes
            → result ≡ option_and_then (point_at bytes) (absolute stops.now relative) }
    {
        let offset = Self::relative_to_absolute(stops, relative)?;
        self.to_point(offset)
    }

    /// The place in the whole of a place of a part of it; none before the first stop.
    pub fn relative_to_absolute(stops: &[Stop], relative: usize) -> Option<usize>
        requires { StopFits stops.now relative }
        ensures { result ≡ absolute stops.now relative }
    {
        let (part, whole) = stop_for(stops, relative)?;
        Some(whole + (relative - part))
    }
}

/// The last stop at or before a place of a part.
fn stop_for(stops: &[Stop], relative: usize) -> Option<Stop>
    ensures stop { result ≡ stop_for stops.now relative }
    ensures before { IfSome result (λ stop. stop.0 ≤ relative) }
{
    let mut left = stops.len();
    while left > 0 {
        left -= 1;
        if stops[left].0 <= relative {
            return Some(stops[left]);
        }
    }
    None
}

/// How many lines start at or before an offset.
fn lines_to(starts: &[usize], offset: usize) -> usize
    requires { IsNonDecreasing starts.now }
    ensures bound { result ≤ length starts.now }
    ensures before { take result starts.now ≡ filter (before_or_at offset) starts.now }
{
    starts.partition_point(|start| *start <= offset)
}

/// Where the last of the first lines starts; the text itself starts at 0.
fn start_of(starts: &[usize], line: usize) -> usize
    requires { line ≤ length starts.now }
    ensures { result ≡ last_or 0 (take line starts.now) }
{
    if line == 0 { 0 } else { starts[line - 1] }
}

/// Where lines start after the endings of a text.
fn line_starts<A: Allocator>(alloc: A, bytes: &[u8]) -> Result<Vec<usize, A>, AllocError>
    requires { length bytes.now < 2 ^ 61 }
    ensures { IfOk result (λ starts. starts.items ≡ line_starts 0 bytes.now) }
{
    let mut starts = Vec::new(alloc);
    for (index, byte) in bytes.iter().enumerate() {
        if ends_here(*byte, bytes.get(index + 1).copied()) {
            starts.push(index + 1)?;
        }
    }
    Ok(starts)
}

/// Whether a byte, with the one after it, is the last of a line ending (CommonMark 2.1).
fn ends_here(byte: u8, after: Option<u8>) -> bool
    ensures { result ≡ ends_here byte after }
{
    byte == b'\n' || (byte == b'\r' && after != Some(b'\n'))
}
