//! The parts of a text that comments keep as they are.
//!
//! `<!-- markdown-fmt-ignore -->` keeps the next block. `<!-- markdown-fmt-disable -->` keeps all blocks from there
//! on, up to `<!-- markdown-fmt-enable -->`. Each is a line of its own.
use engine_events::event::Name;
use format_document::{Document, Node, is_between_blocks};
use format_edits::Window;
use std::alloc::{AllocError, Global};
use std::str::from_utf8;

/// The parts of a text that stay as they are: those that are closed, and those that comments keep. They are
/// in order and apart.
pub(crate) fn kept(alloc: Global, document: &Document<'_>) -> Result<Vec<Window>, AllocError> {
    let mut ignored = Ignored {
        windows: Vec::new(alloc),
        disabled: None,
    };
    for (index, node) in document.nodes().iter().enumerate() {
        if node.name == Name::HtmlFlow {
            ignored.read(document, index, node)?;
        }
    }
    if let Some(start) = ignored.disabled {
        let end = document.bytes().len();
        ignored.windows.push(Window { start, end })?;
    }
    for window in document.closed() {
        ignored.windows.push(*window)?;
    }
    apart(alloc, ignored.windows)
}

/// Windows in their order and apart.
fn apart(alloc: Global, mut windows: Vec<Window>) -> Result<Vec<Window>, AllocError> {
    windows.sort_by_key(|window| (window.start, window.end))?;
    let mut apart = Vec::new(alloc);
    let mut past = 0;
    for window in &windows {
        if window.end > past {
            apart.push(Window {
                start: window.start.max(past),
                end: window.end,
            })?;
            past = window.end;
        }
    }
    Ok(apart)
}

/// What comments keep.
#[derive(Drop)]
struct Ignored {
    windows: Vec<Window>,
    /// Where all blocks begin to be kept, if they are.
    disabled: Option<usize>,
}

impl Ignored {
    /// Reads a block of raw HTML.
    fn read(
        &mut self,
        document: &Document<'_>,
        index: usize,
        html: &Node,
    ) -> Result<(), AllocError> {
        match (command_of(document.bytes_of(html)), self.disabled) {
            (Some("disable"), None) => self.disabled = Some(html.end),
            (Some("enable"), Some(start)) => {
                self.disabled = None;
                self.windows.push(Window {
                    start,
                    end: html.start,
                })?;
            }
            (Some("ignore"), None) => {
                if let Some(Node { start, end, .. }) = next_block(document, index, html) {
                    self.windows.push(Window {
                        start: *start,
                        end: *end,
                    })?;
                }
            }
            _ => {}
        }
        Ok(())
    }
}

/// The command of a comment, if raw HTML is one.
fn command_of(html: &[u8]) -> Option<&str> {
    let html = from_utf8(html).ok()?;
    let comment = html.trim().strip_prefix("<!--")?.strip_suffix("-->")?;
    comment.trim().strip_prefix("markdown-fmt-")
}

/// The block after a block.
fn next_block<'d>(document: &'d Document<'_>, index: usize, block: &Node) -> Option<&'d Node> {
    let mut after = document
        .nodes()
        .iter()
        .skip(index.saturating_add(block.size));
    after.find(|node| !is_between_blocks(node.name))
}
