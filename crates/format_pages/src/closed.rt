//! The parts of a text that no edit may change.
//!
//! They are what some readers don't know as a construct, and what can't be compared on a page.
use engine_events::event::{Event, Kind, Name};
use format_edits::Window;
use markdown_options::Constructs;
use std::alloc::{AllocError, Global};
use text_lines::{next_line, without_mark};

/// The parts of a text that no edit may change, in their order and apart. `on` are the constructs that the
/// text is formatted by; `events` are those of every construct. `footnotes` are the labels of its footnote
/// definitions, as they match.
///
/// Extent are:
///
/// - frontmatter, also if `...` ends it;
/// - a table, math, a footnote, strikethrough and marked text, if its construct isn't on;
/// - footnotes with a label that is defined more than once, and the first byte after them and the blank lines
///   that follow: a blank line there may be one of the code in an open fence;
/// - cells beyond those of the head.
pub(crate) fn closed(
    alloc: Global,
    text: &str,
    events: &[Event],
    footnotes: &[String],
    on: &Constructs,
) -> Result<Vec<Window>, AllocError> {
    let mut closing = Closing {
        bytes: text.as_bytes(),
        on: *on,
        is_repeated: repeated(alloc, footnotes)?,
        footnotes: 0,
        columns: 0,
        cells: 0,
        enters: Vec::new(alloc),
        depth: 0,
        start: 0,
        reach: 0,
        windows: Vec::new(alloc),
    };
    let end = dotted_front_end(text);
    if end > 0 {
        closing.windows.push(Window { start: 0, end })?;
    }
    for event in events {
        closing.add(event)?;
    }
    Ok(closing.windows)
}

/// How far a node is closed to edits.
#[derive(Clone, Copy, PartialEq, Eq)]
enum Extent {
    /// It isn't.
    No,
    /// Its bytes are.
    Bytes,
    /// Its bytes are, and what follows up to the next byte that isn't white.
    Reaching,
}

impl Extent {
    /// The bytes, if so.
    fn if_so(is_closed: bool) -> Extent {
        if is_closed { Extent::Bytes } else { Extent::No }
    }
}

/// Finds the closed parts of a text by its events.
#[derive(Drop)]
struct Closing<'a> {
    /// The text.
    bytes: &'a [u8],
    /// The constructs that the text is formatted by.
    on: Constructs,
    /// Whether the label of each footnote definition is defined more than once.
    is_repeated: Vec<bool>,
    /// The number of footnote definitions so far.
    footnotes: usize,
    /// The number of cells of the head of the table.
    columns: usize,
    /// The number of cells of the row so far.
    cells: usize,
    /// How far each node that is open is closed to edits.
    enters: Vec<Extent>,
    /// How many of them are.
    depth: usize,
    /// Where the outermost of these starts.
    start: usize,
    /// Up to where they reach.
    reach: usize,
    /// The closed parts so far.
    windows: Vec<Window>,
}

impl Closing<'_> {
    /// Adds an event.
    fn add(&mut self, event: &Event) -> Result<(), AllocError> {
        let index = event.point().index;
        match event.kind {
            Kind::Enter => self.enter(event.name, index),
            Kind::Exit => self.exit(index),
        }
    }

    /// Enters a node.
    fn enter(&mut self, name: Name, index: usize) -> Result<(), AllocError> {
        let closed = self.closes(name);
        self.enters.push(closed)?;
        if closed != Extent::No {
            if self.depth == 0 {
                self.start = index;
                self.reach = index;
            }
            self.depth = self.depth.saturating_add(1);
        }
        Ok(())
    }

    /// Exits the innermost node.
    fn exit(&mut self, index: usize) -> Result<(), AllocError> {
        let end = match self.enters.pop() {
            None | Some(Extent::No) => return Ok(()),
            Some(Extent::Bytes) => index,
            Some(Extent::Reaching) => after_next_ink(self.bytes, index),
        };
        self.reach = self.reach.max(end);
        self.depth = self.depth.saturating_sub(1);
        if self.depth == 0 {
            self.close()?;
        }
        Ok(())
    }

    /// Closes the part from the start as far as it reaches, but for what is closed before it.
    fn close(&mut self) -> Result<(), AllocError> {
        let past = match self.windows.last() {
            Some(last) => last.end,
            None => 0,
        };
        let start = self.start.max(past);
        if start <= self.reach {
            self.windows.push(Window {
                start,
                end: self.reach,
            })?;
        }
        Ok(())
    }

    /// How a node that starts is closed to edits. Counts footnotes and cells.
    fn closes(&mut self, name: Name) -> Extent {
        match name {
            Name::Frontmatter => Extent::Bytes,
            Name::MathFlow => Extent::if_so(!self.on.math_flow),
            Name::MathText => Extent::if_so(!self.on.math_text),
            Name::GfmStrikethrough => Extent::if_so(!self.on.gfm_strikethrough),
            Name::Mark => Extent::if_so(!self.on.mark),
            Name::GfmFootnoteDefinition => self.closes_footnote(),
            Name::GfmTable => {
                self.columns = usize::MAX;
                Extent::if_so(!self.on.gfm_table)
            }
            Name::GfmTableDelimiterRow => {
                self.columns = 0;
                Extent::No
            }
            Name::GfmTableDelimiterCell => {
                self.columns = self.columns.saturating_add(1);
                Extent::No
            }
            Name::GfmTableRow => {
                self.cells = 0;
                Extent::No
            }
            Name::GfmTableCell => {
                self.cells = self.cells.saturating_add(1);
                Extent::if_so(self.cells > self.columns)
            }
            _ => Extent::No,
        }
    }

    /// How a footnote definition that starts is closed to edits.
    fn closes_footnote(&mut self) -> Extent {
        let is_repeated = match self.is_repeated.get(self.footnotes) {
            Some(is_repeated) => *is_repeated,
            None => true,
        };
        self.footnotes = self.footnotes.saturating_add(1);
        if is_repeated {
            Extent::Reaching
        } else {
            Extent::if_so(!self.on.gfm_footnote_definition)
        }
    }
}

/// Where the first byte from an index on ends that is no white space, or the end.
fn after_next_ink(bytes: &[u8], index: usize) -> usize {
    let Some(rest) = bytes.get(index..) else {
        return bytes.len();
    };
    match rest.iter().position(|byte| !byte.is_ascii_whitespace()) {
        Some(size) => index.saturating_add(size).saturating_add(1),
        None => bytes.len(),
    }
}

/// Whether each of these labels is there more than once.
fn repeated(alloc: Global, labels: &[String]) -> Result<Vec<bool>, AllocError> {
    let mut is_repeated = vec![in alloc; false; labels.len()]?;
    let mut sorted: Vec<(&str, usize)> = Vec::with_capacity(alloc, labels.len())?;
    for (index, label) in labels.iter().enumerate() {
        sorted.push((label.as_str(), index))?;
    }
    sorted.sort()?;
    let mut before: Option<(&str, usize)> = None;
    for (label, index) in &sorted {
        if let Some((other, at)) = before {
            if other == *label {
                set(&mut is_repeated, at);
                set(&mut is_repeated, *index);
            }
        }
        before = Some((*label, *index));
    }
    Ok(is_repeated)
}

/// Notes that the label at an index is repeated.
fn set(is_repeated: &mut [bool], index: usize) {
    if let Some(it) = is_repeated.get_mut(index) {
        *it = true;
    }
}

/// Where the line `...` ends that ends the frontmatter of a text, or 0 if there is none. Other readers take
/// this line as the end of metadata; here only `---` ends it.
fn dotted_front_end(text: &str) -> usize {
    let (_, marked) = without_mark(text);
    let (first, _, mut rest) = next_line(marked);
    if !is_fence(first, "---") {
        return 0;
    }
    // There are no more lines than bytes.
    for _ in 0..marked.len() {
        if rest.is_empty() {
            break;
        }
        let (line, _, after) = next_line(rest);
        rest = after;
        if is_fence(line, "---") {
            return 0;
        }
        if is_fence(line, "...") {
            return text.len().saturating_sub(rest.len());
        }
    }
    0
}

/// Whether a line is a fence of metadata: these bytes, and then only white space.
fn is_fence(line: &str, fence: &str) -> bool {
    line.trim_end() == fence
}
