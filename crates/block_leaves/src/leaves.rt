//! The leaf blocks so far, and the one that is open.
ghost use Rattle.std.specs.Prelude.{◌≡◌, ◌≤◌, ◌+◌, vec_len};
ghost use Rattle.definition_block.specs.Tree.{rest_line};
ghost use Rattle.text_pieces.specs.Pieces.{piece_line};
ghost use Rattle.block_rows.specs.Rows.{rows_size};
ghost use Rattle.block_starts.specs.View.{rest_of};
ghost use Rattle.block_state.specs.Leaves.{lines_needed};

use crate::definition::last_ending;
use block_rows::Row;
use block_starts::Cursor;
use block_state::{OpenLeaf, Rows};
use markdown_options::{AlignKind, Beside, Constructs, Container, LineEnding};
use std::alloc::{AllocError, Allocator};
use text_pieces::Piece;

/// What was read so far, without the containers that are open: these are the caller's.
#[derive(Drop)]
pub struct Leaves<'a, A: Allocator> {
    /// The rows so far.
    pub rows: Rows<A>,
    /// The lines that the rows take, and those of the open leaf.
    pub pieces: Vec<Piece<'a>, A>,
    /// The content of a paragraph that definitions are read off.
    pub content: String<A>,
    /// How the columns are aligned by the row of delimiters that was read last.
    pub aligns: Vec<AlignKind, A>,
    /// How many of the lines the rows take. The others are those of the open leaf.
    pub lines_in_rows: usize,
    /// The leaf that is open.
    pub leaf: OpenLeaf<'a>,
    /// The text from the line on that is read.
    pub rest: &'a str,
    /// The text from the first line of the open paragraph on.
    pub paragraph: &'a str,
    ghost counted: { lines_in_rows ≡ rows_size rows.rows.items },
    ghost enough: { lines_in_rows + lines_needed leaf ≤ vec_len pieces },
}

/// No leaf is open.
pub(crate) const NOTHING: OpenLeaf<'static> = OpenLeaf::Text;

impl<'a, A: Allocator> Leaves<'a, A> {
    ghost use Rattle.std.specs.Prelude.{◌≡◌, IfOk, OnOk, List, false};
    ghost use Rattle.definition_block.specs.Container.{Container as Holder};
    ghost use Rattle.definition_block.specs.Tree as tree;
    ghost use Rattle.definition_text.specs.BlockLines.{BlockLine, last_ending};
    ghost use Rattle.text_pieces.specs.ParagraphLines.{AreLines};
    ghost use Rattle.block_rows.specs.Rows.{block_rows, row_value, row_size};
    ghost use Rattle.block_state.specs.Spine.{Spine, spine};
    ghost use Rattle.block_state.specs.Shows.{leaf_lines};
    ghost use Rattle.block_state.specs.Waits.{enter_row};
    ghost use Rattle.block_leaves.specs.View.{Adds, AreRead, Becomes, Closes, Enters, Exits};
    ghost use Rattle.std.specs.Prelude.{◌≤◌, ◌+◌, ◌∷◌, [], vec_len, take, drop};
    ghost use Rattle.block_starts.specs.View.{container_view};

    /// Nothing was read of a text.
    pub fn new(alloc: A, text: &'a str) -> Result<Leaves<'a, A>, AllocError>
    where
        A: Clone,
        ensures { IfOk result (λ leaves. AreRead leaves [] (spine [] tree.Nil (tree.Text []))) }
    {
        let rows = Rows::new(alloc.clone()?, alloc.clone()?);
        Ok(Leaves {
            rows,
            pieces: Vec::new(alloc.clone()?),
            content: String::new(alloc.clone()?),
            aligns: Vec::new(alloc),
            lines_in_rows: 0,
            leaf: NOTHING,
            rest: text,
            paragraph: text,
        })
    }

    /// Whether no leaf is open.
    pub fn is_nothing(&self) -> bool
        ensures { (containers : List Holder) (s : Spine) → AreRead self.now containers s → result ≡ tree.is_nothing (tree.At s.leaf) }
    {
        match self.leaf {
            OpenLeaf::Text => self.lines_in_rows == self.pieces.len(),
            OpenLeaf::Indented { .. } => false,
            OpenLeaf::Fenced { .. } => false,
            OpenLeaf::Html { .. } => false,
            OpenLeaf::Table { .. } => false,
        }
    }

    /// Whether a paragraph is open.
    pub fn has_text(&self) -> bool
        ensures { (containers : List Holder) (s : Spine) → AreRead self.now containers s → result ≡ tree.is_some_line (tree.leaf_text s.leaf) }
    {
        match self.leaf {
            OpenLeaf::Text => self.lines_in_rows < self.pieces.len(),
            OpenLeaf::Indented { .. } => false,
            OpenLeaf::Fenced { .. } => false,
            OpenLeaf::Html { .. } => false,
            OpenLeaf::Table { .. } => false,
        }
    }

    /// A blank line, where no leaf is open.
    pub fn blank_line(&mut self, ending: Option<LineEnding>) -> Result<(), AllocError>
        ensures { OnOk result (Adds self.old self.new (tree.tree (tree.one (tree.Blank ending)) tree.nothing)) }
    {
        self.rows.blank(ending)
    }

    /// A container starts, where no leaf is open.
    pub fn enter(&mut self, container: Container<'a>) -> Result<(), AllocError>
        ensures { OnOk result (Enters self.old self.new (container_view container.entry)) }
    {
        match container {
            Container::Quote | Container::Item(_) => self.enter_alone(container),
            Container::Footnote(label) => self.enter_footnote(label),
        }
    }

    /// A container without a line of its own starts, where no leaf is open.
    fn enter_alone(&mut self, container: Container<'a>) -> Result<(), AllocError>
        requires { row_size (enter_row (container_view container)) ≡ 0 }
        ensures { OnOk result (Enters self.old self.new (container_view container.entry)) }
    {
        self.rows.enter(container)?;
        Ok(())
    }

    /// The innermost container ends.
    pub fn exit(&mut self, container: Container<'a>) -> Result<(), AllocError>
        ensures { OnOk result (Exits self.old self.new (container_view container.entry)) }
    {
        self.rows.exit(container)?;
        Ok(())
    }

    /// Closes the open leaf, if there is one.
    pub fn close_leaf(&mut self, on: &Constructs) -> Result<(), AllocError>
        ensures { OnOk result ((leaf : tree.OpenLeaf) → AreLines (tree.leaf_text leaf) → Closes self.old self.new leaf (tree.close_leaf on.now leaf)) }
    {
        match self.leaf {
            OpenLeaf::Text => self.close_text(on, None),
            OpenLeaf::Indented { count, ending } => self.close_indented(count, ending),
            OpenLeaf::Fenced { ending, .. } => self.close_fenced(ending),
            OpenLeaf::Html { ending, .. } => self.close_html(ending),
            OpenLeaf::Table { ending } => self.close_table(ending),
        }
    }

    /// The first lines of the open paragraph, so many, are a block: a row takes them.
    pub(crate) fn take_lines(&mut self, row: Row, count: usize) -> Result<(), AllocError>
        requires size { row_size row ≡ count }
        requires within { self.old.lines_in_rows + count ≤ vec_len self.old.pieces }
        ensures read { OnOk result ((ls : List BlockLine) (b : tree.Block) → block_rows b ≡ row_value row ls ∷ [] → tree.is_ending b ≡ false →
            Becomes self.old self.new (tree.Text ls)
            (tree.tree (tree.block_and_ending b (last_ending (take count ls))) (tree.At (tree.Text (drop count ls))))) }
        ensures content { self.new.content ≡ self.old.content }
        ensures pieces { self.new.pieces ≡ self.old.pieces }
        ensures count { OnOk result (self.new.lines_in_rows ≡ self.old.lines_in_rows + count) }
    {
        let ending = last_ending(&self.pieces[self.lines_in_rows..self.lines_in_rows + count]);
        self.rows.block(row)?;
        self.lines_in_rows += count;
        self.leaf = NOTHING;
        self.rows.ending(ending)
    }

    /// The open leaf ends: a row takes all lines that are left.
    pub(crate) fn end_leaf(
        &mut self,
        row: Row,
        ending: Option<LineEnding>,
    ) -> Result<(), AllocError>
        requires { self.old.lines_in_rows + row_size row ≡ vec_len self.old.pieces }
        ensures { OnOk result ((leaf : tree.OpenLeaf) (b : tree.Block) → block_rows b ≡ row_value row (leaf_lines leaf) ∷ [] → tree.is_ending b ≡ false →
            Closes self.old self.new leaf (tree.block_and_ending b ending)) }
    {
        self.rows.block(row)?;
        self.lines_in_rows = self.pieces.len();
        self.leaf = NOTHING;
        self.rows.ending(ending)
    }
}

/// The line of a block that a rest is.
pub fn piece<'a>(rest: &Cursor<'a>, beside: Beside) -> Piece<'a>
    ensures { piece_line result ≡ rest_line (rest_of rest.now) beside }
{
    Piece {
        text: rest.text(),
        owed: rest.tab_columns(),
        ending: beside.ending,
        before: beside.before,
    }
}
