//! The cells of tables (GFM 4.10).
ghost use Rattle.html_bytes.specs.Document.{cell_counts, cell_of};
ghost use Rattle.definition_inline.specs.Targets.{Targets};
ghost use Rattle.text_pieces.specs.ParagraphLines.{HaveNoEnding};
ghost use Rattle.text_pieces.specs.Pieces.{piece_line};
ghost use Rattle.block_cells.specs.GfmTable.{cell_view};

use crate::buffers::TextBuffers;
use crate::texts::Texts;
use block_cells::Cell;
use html_footnotes::Output;
use inline_parser::RowRoom;
use markdown_options::Tables;
use std::alloc::{AllocError, Allocator};

impl<'a, T: Tables, A: Allocator + Clone> Texts<'a, '_, T, A> {
    ghost use Rattle.html_contents.specs.Texts.{KnowsTargets, LaysOut, document_by};

    /// Prints the text of a cell (GFM 4.10).
    pub fn push_cell(
        &self,
        out: &mut Output<A>,
        buffers: &mut TextBuffers<'a, A>,
        cell: &Cell<'a>,
    ) -> Result<(), AllocError>
        ensures { (ds : Targets) → KnowsTargets self.now ds → HaveNoEnding (piece_line cell.now.line).codes →
            let d = document_by T.Tables self.now ds in LaysOut d result out.old out.new (cell_of d (cell_view cell.now)) }
    {
        self.push_lines(out, buffers, true, &[cell.line], cell.after)
    }

    /// Counts the calls of footnotes in a cell that isn't printed, since it stands beyond the columns
    /// of its table (GFM 4.10).
    pub fn count_cell(
        &self,
        out: &mut Output<A>,
        buffers: &mut TextBuffers<'_, A>,
        cell: &Cell<'_>,
    ) -> Result<(), AllocError>
        ensures { (ds : Targets) → KnowsTargets self.now ds → HaveNoEnding (piece_line cell.now.line).codes →
            let d = document_by T.Tables self.now ds in LaysOut d result out.old out.new (cell_counts d (cell_view cell.now)) }
    {
        buffers.content.join(&[cell.line])?;
        let content = buffers.content.content(cell.after);
        let mut rows = RowRoom::new(buffers.alloc.clone()?)?;
        self.count_content(
            out,
            &mut buffers.scratch,
            &mut buffers.room,
            &mut rows,
            content,
        )
    }
}
