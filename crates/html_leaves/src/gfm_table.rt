//! The tags of tables and their cells (GFM 4.10).
ghost use Rattle.std.specs.Prelude.{◌≡◌, OnOk};
ghost use Rattle.definition_inline.specs.Inline.{Nil};
ghost use Rattle.definition_page.specs.GfmTable.{align_attributes};
ghost use Rattle.definition_page.specs.Tags.{tag, start_tag, end_tag};
ghost use Rattle.html_bytes.specs.Document.{Document};
ghost use Rattle.html_leaves.specs.GfmTable.{cell_name, cell_bytes};
ghost use Rattle.html_leaves.specs.Prints.{LaysOut, KeepsEnding};

use crate::page::Page;
use markdown_options::AlignKind;
use std::alloc::{AllocError, Allocator};

/// Which part of a table a cell is in.
#[derive(Clone, Copy)]
pub enum CellKind {
    /// The head.
    Head,
    /// The body.
    Body,
}

impl<A: Allocator + Clone> Page<A> {
    /// Prints an empty cell, for one that a row lacks.
    pub fn missing_cell(&mut self, kind: CellKind, align: AlignKind) -> Result<(), AllocError>
        ensures default { KeepsEnding self.old self.new }
        ensures printed { (d : Document) → OnOk result (LaysOut d.options.compile self.old self.new (cell_bytes d (cell_name kind) align Nil)) }
    {
        self.fresh_tag(cell_tag(kind, align))?;
        self.say(cell_end(kind))
    }
}

/// The tag of a cell.
pub fn cell_tag(kind: CellKind, align: AlignKind) -> &'static str
    ensures { result.now ≡ start_tag (tag (cell_name kind) (align_attributes align)) }
{
    match (kind, align) {
        (CellKind::Head, AlignKind::Left) => "<th align=\"left\">",
        (CellKind::Head, AlignKind::Right) => "<th align=\"right\">",
        (CellKind::Head, AlignKind::Center) => "<th align=\"center\">",
        (CellKind::Head, AlignKind::None) => "<th>",
        (CellKind::Body, AlignKind::Left) => "<td align=\"left\">",
        (CellKind::Body, AlignKind::Right) => "<td align=\"right\">",
        (CellKind::Body, AlignKind::Center) => "<td align=\"center\">",
        (CellKind::Body, AlignKind::None) => "<td>",
    }
}

/// The end of a cell.
pub fn cell_end(kind: CellKind) -> &'static str
    ensures { result.now ≡ end_tag (cell_name kind) }
{
    match kind {
        CellKind::Head => "</th>",
        CellKind::Body => "</td>",
    }
}
