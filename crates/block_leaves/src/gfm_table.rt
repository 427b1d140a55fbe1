//! Tables (GFM 4.10).
//!
//!     table ::= head delimiters row*, where the head is the last line of a paragraph, and the row of
//!               delimiters is in all containers of that and has as many cells
//!     row   ::= a line that is in all containers, which is not blank, and which no other block begins
ghost use Rattle.std.specs.Prelude.{◌≡◌, [], OnOk, unwrap_or};
ghost use Rattle.definition_block.specs.GfmTable as spec;
ghost use Rattle.definition_text.specs.Columns.{bytes_of};
ghost use Rattle.text_pieces.specs.Pieces.{piece_line, piece_lines};
ghost use Rattle.block_starts.specs.View.{rest_of};

use crate::leaves::{Leaves, piece};
use block_cells::{has_cells, read_delimiters};
use block_rows::Row;
use block_starts::Cursor;
use block_starts::indent::is_small;
use block_state::OpenLeaf;
use block_state::whole_lines::whole_piece;
use markdown_options::{AlignKind, Beside, Constructs, LineEnding};
use std::alloc::{AllocError, Allocator};
use text_pieces::Piece;

impl<'a, A: Allocator> Leaves<'a, A> {
    ghost use Rattle.std.specs.Prelude.{◌≡◌, ◌-◌, ◌++◌, ◌∷◌, [], OnOk, List, drop, take, length, unwrap_or};
    ghost use Rattle.markdown_options.specs.declared.configuration.Constructs.{Constructs as ConstructsOf};
    ghost use Rattle.definition_text.specs.BlockLines.{BlockLine, last_ending};
    ghost use Rattle.definition_block.specs.Definitions.{definition_cut};
    ghost use Rattle.definition_block.specs.GfmTable.{delimiter_row};
    ghost use Rattle.definition_block.specs.Container.{Container as Holder};
    ghost use Rattle.definition_block.specs.Tree as tree;
    ghost use Rattle.text_pieces.specs.ParagraphLines.{AreLines};
    ghost use Rattle.block_leaves.specs.GfmTable.{fits, table_from_cut};
    ghost use Rattle.block_state.specs.Shows.{leaf_lines};
    ghost use Rattle.block_state.specs.Spine.{Spine};
    ghost use Rattle.block_leaves.specs.View.{AreRead, Becomes, Closes, lines_left};
    ghost use Rattle.block_starts.specs.View.{rest_of};

    /// Makes `aligns` how the columns of a table are aligned, where a rest is a row of delimiters;
    /// otherwise it is empty then.
    pub fn read_aligns(&mut self, on: &Constructs, rest: &Cursor<'a>) -> Result<(), AllocError>
        ensures aligns { OnOk result (self.new.aligns.items ≡ unwrap_or (delimiter_row on.now (rest_of rest.now)) []) }
        ensures left { lines_left self.new ≡ lines_left self.old }
        ensures kept { (containers : List Holder) (s : Spine) → AreRead self.old containers s → AreRead self.new containers s }
    {
        read_row(&mut self.aligns, on, rest)
    }

    /// Whether the last line of the open paragraph has a cell for each column, of which there is one
    /// at least.
    pub fn has_head(&self) -> bool
        ensures { result ≡ fits self.now.aligns.items (lines_left self.now) }
    {
        let columns = self.aligns.len();
        columns > 0 && is_head(&self.pieces[self.lines_in_rows..], columns)
    }

    /// The last line that is left of the open paragraph after its definitions becomes the head of a
    /// table, with this row of delimiters. Those before it are a paragraph.
    pub fn start_table(
        &mut self,
        on: &Constructs,
        rest: &Cursor<'a>,
        beside: Beside,
    ) -> Result<(), AllocError>
        ensures { OnOk result ((ls : List BlockLine) → AreLines ls →
            Becomes self.old self.new (tree.Text ls) (table_from_cut (definition_cut on.now ls) (tree.rest_line (rest_of rest.now) beside))) }
    {
        self.cut_definitions(on)?;
        self.close_before_head()?;
        self.table_row(rest, beside)
    }

    /// The lines of the open paragraph before its last one are a paragraph, if there are any.
    fn close_before_head(&mut self) -> Result<(), AllocError>
        ensures { OnOk result ((ls : List BlockLine) → let head = length ls - 1 in
            Becomes self.old self.new (tree.Text ls) (tree.tree (tree.paragraph_of (take head ls)) (tree.At (tree.Text (drop head ls))))) }
    {
        let count = self.pieces.len() - self.lines_in_rows;
        if count <= 1 {
            return Ok(());
        }
        self.take_lines(Row::Paragraph(count - 1), count - 1)
    }

    /// One more line of a table.
    pub fn table_row(&mut self, rest: &Cursor<'a>, beside: Beside) -> Result<(), AllocError>
        ensures { OnOk result ((leaf : tree.OpenLeaf) (ls : List BlockLine) → leaf_lines leaf ≡ ls →
            Becomes self.old self.new leaf (tree.tree tree.Nil (tree.At (tree.OpenTable (ls ++ tree.rest_line (rest_of rest.now) beside ∷ []))))) }
    {
        self.pieces.push(piece(rest, beside))?;
        self.leaf = OpenLeaf::Table {
            ending: beside.ending,
        };
        Ok(())
    }

    /// Whether a table is open.
    pub fn has_table(&self) -> bool
        ensures { (containers : List Holder) (s : Spine) → AreRead self.now containers s → result ≡ tree.is_table_leaf s.leaf }
    {
        match self.leaf {
            OpenLeaf::Text => false,
            OpenLeaf::Indented { .. } => false,
            OpenLeaf::Fenced { .. } => false,
            OpenLeaf::Html { .. } => false,
            OpenLeaf::Table { .. } => true,
        }
    }

    /// The open table ends.
    pub(crate) fn close_table(&mut self, ending: Option<LineEnding>) -> Result<(), AllocError>
        ensures { OnOk result ((switches : ConstructsOf) (ls : List BlockLine) → ending ≡ last_ending ls →
            Closes self.old self.new (tree.OpenTable ls) (tree.close_leaf switches (tree.OpenTable ls))) }
    {
        let count = self.pieces.len() - self.lines_in_rows;
        self.end_leaf(Row::Table(count), ending)
    }
}

/// Makes the list how the columns of a table are aligned, where a rest is a row of delimiters;
/// otherwise it is empty then.
fn read_row<A: Allocator>(
    aligns: &mut Vec<AlignKind, A>,
    on: &Constructs,
    rest: &Cursor<'_>,
) -> Result<(), AllocError>
    ensures { OnOk result (aligns.new.items ≡ unwrap_or (spec.delimiter_row on.now (rest_of rest.now)) []) }
{
    let (columns, bare) = rest.split_bare();
    if on.gfm_table && is_small(on, columns) {
        return read_delimiters(aligns, line_of(&bare));
    }
    aligns.clear();
    Ok(())
}

/// The bytes of a rest as a line.
fn line_of<'a>(rest: &Cursor<'a>) -> Piece<'a>
    ensures { (piece_line result).codes ≡ bytes_of (rest_of rest.now) }
{
    whole_piece(rest.text(), None)
}

/// Whether the last of these lines has so many cells.
fn is_head(lines: &[Piece<'_>], columns: usize) -> bool
    ensures { result ≡ spec.is_head columns (piece_lines lines.now) }
{
    match lines.last() {
        Some(line) => has_cells(*line, columns),
        None => false,
    }
}
