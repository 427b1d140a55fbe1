//! The rows so far.
ghost use Rattle.std.specs.Prelude.{◌≡◌, ◌+◌, ◌&&◌, ◌++◌, ◌∷◌, [], true, false, OnOk, OnErr, IfOk};
ghost use Rattle.definition_block.specs.Container as container_variant;
ghost use Rattle.block_rows.specs.declared.row.Row.TheVariants as row_variant;
ghost use Rattle.block_rows.specs.Rows.{rows_size, row_size};
ghost use Rattle.block_starts.specs.View.{container_view};
ghost use Rattle.block_state.specs.Waits.{inside, outside, is_one_blank_row, enter_row as row_of_start};

use block_rows::Row;
use markdown_options::{Container, LineEnding};
use std::alloc::{AllocError, Allocator};

/// The rows so far, but for the endings at their end: these wait, since a container that ends may
/// leave them outside.
#[derive(Drop)]
pub struct Rows<A: Allocator> {
    pub rows: Vec<Row, A>,
    pub waiting: Vec<Row, A>,
    /// Whether the innermost container has no child yet but endings.
    pub bare: bool,
    ghost none: { rows_size waiting.items ≡ 0 },
}

impl<A: Allocator> Rows<A> {
    /// No rows, and nothing that waits.
    pub fn new(rows_alloc: A, waiting_alloc: A) -> Rows<A>
        ensures rows { result.rows.items ≡ [] }
        ensures waiting { result.waiting.items ≡ [] }
        ensures bare { result.bare ≡ true }
    {
        Rows {
            rows: Vec::new(rows_alloc),
            waiting: Vec::new(waiting_alloc),
            bare: true,
        }
    }

    /// One more block that holds no other.
    #[inline(always)]
    pub fn block(&mut self, row: Row) -> Result<(), AllocError>
        ensures rows { OnOk result (self.new.rows.items ≡ (self.old.rows.items ++ self.old.waiting.items) ++ row ∷ []) }
        ensures waiting { OnOk result (self.new.waiting.items ≡ []) }
        ensures bare { OnOk result (self.new.bare ≡ false) }
        ensures counted { OnOk result (rows_size self.new.rows.items ≡ rows_size self.old.rows.items + row_size row) }
        ensures kept { OnErr result (rows_size self.new.rows.items ≡ rows_size self.old.rows.items) }
    {
        self.settle()?;
        self.rows.push(row)?;
        self.bare = false;
        Ok(())
    }

    /// The ending of a block's last line.
    #[inline(always)]
    pub fn ending(&mut self, ending: Option<LineEnding>) -> Result<(), AllocError>
        ensures rows { self.new.rows.items ≡ self.old.rows.items }
        ensures waiting { OnOk result (self.new.waiting.items ≡ self.old.waiting.items ++ row_variant.Ending ending ∷ []) }
        ensures bare { self.new.bare ≡ self.old.bare }
    {
        self.waiting.push(Row::Ending(ending))?;
        Ok(())
    }

    /// The ending of a blank line.
    #[inline(always)]
    pub fn blank(&mut self, ending: Option<LineEnding>) -> Result<(), AllocError>
        ensures rows { self.new.rows.items ≡ self.old.rows.items }
        ensures waiting { OnOk result (self.new.waiting.items ≡ self.old.waiting.items ++ row_variant.Blank ending ∷ []) }
        ensures bare { self.new.bare ≡ self.old.bare }
    {
        self.waiting.push(Row::Blank(ending))?;
        Ok(())
    }

    /// A container starts.
    pub fn enter(&mut self, container: Container<'_>) -> Result<(), AllocError>
        ensures rows { OnOk result (
            self.new.rows.items ≡ (self.old.rows.items ++ self.old.waiting.items) ++ row_of_start (container_view container.entry) ∷ []) }
        ensures waiting { OnOk result (self.new.waiting.items ≡ []) }
        ensures bare { OnOk result (self.new.bare ≡ true) }
        ensures counted { OnOk result (
            rows_size self.new.rows.items ≡ rows_size self.old.rows.items + row_size (row_of_start (container_view container.entry))) }
        ensures kept { OnErr result (rows_size self.new.rows.items ≡ rows_size self.old.rows.items) }
    {
        self.settle()?;
        self.rows.push(enter_row(container))?;
        self.bare = true;
        Ok(())
    }

    /// A container ends.
    pub fn exit(&mut self, container: Container<'_>) -> Result<(), AllocError>
        ensures rows { OnOk result (self.new.rows.items ≡
            (self.old.rows.items ++ inside (container_view container.entry) self.old.waiting.items) ++ row_variant.Exit ∷ []) }
        ensures waiting { OnOk result (self.new.waiting.items ≡ outside (container_view container.entry) self.old.waiting.items) }
        ensures bare { OnOk result (self.new.bare ≡ false) }
        ensures counted { rows_size self.new.rows.items ≡ rows_size self.old.rows.items }
    {
        match container {
            Container::Quote => self.exit_quote()?,
            Container::Item(_) | Container::Footnote(_) => self.rows.push(Row::Exit)?,
        }
        self.bare = false;
        Ok(())
    }

    /// A quote ends before the ending of its last line.
    fn exit_quote(&mut self) -> Result<(), AllocError>
        ensures rows { OnOk result (self.new.rows.items ≡
            (self.old.rows.items ++ inside container_variant.Quote self.old.waiting.items) ++ row_variant.Exit ∷ []) }
        ensures waiting { OnOk result (self.new.waiting.items ≡ outside container_variant.Quote self.old.waiting.items) }
        ensures counted { rows_size self.new.rows.items ≡ rows_size self.old.rows.items }
    {
        let last = self.waiting.pop();
        self.settle()?;
        self.rows.push(Row::Exit)?;
        if let Some(ending) = last {
            self.waiting.push(ending)?;
        }
        Ok(())
    }

    /// Puts the endings that wait among the rows.
    #[inline(always)]
    fn settle(&mut self) -> Result<(), AllocError>
        ensures rows { OnOk result (self.new.rows.items ≡ self.old.rows.items ++ self.old.waiting.items) }
        ensures waiting { OnOk result (self.new.waiting.items ≡ []) }
        ensures bare { self.new.bare ≡ self.old.bare }
        ensures counted { rows_size self.new.rows.items ≡ rows_size self.old.rows.items }
    {
        self.rows.append(&mut self.waiting)
    }

    /// Whether the innermost container began with a blank line, and has nothing else.
    pub fn began_blank(&self) -> bool
        ensures { result ≡ (self.now.bare && is_one_blank_row self.now.waiting.items) }
    {
        self.bare && is_one_blank(&self.waiting)
    }

    /// All rows.
    pub fn finish(mut self) -> Result<Vec<Row, A>, AllocError>
        ensures rows { IfOk result (λ rows. rows.items ≡ self.rows.items ++ self.waiting.items) }
        ensures counted { IfOk result (λ rows. rows_size rows.items ≡ rows_size self.rows.items) }
    {
        self.settle()?;
        let Rows { rows, .. } = self;
        Ok(rows)
    }
}

/// Whether these are the ending of one blank line.
fn is_one_blank(rows: &[Row]) -> bool
    ensures { result ≡ is_one_blank_row rows.now }
{
    matches!(rows, [Row::Blank(_)])
}

/// The row of a container's start.
fn enter_row(container: Container<'_>) -> Row
    ensures { result ≡ row_of_start (container_view container.entry) }
{
    match container {
        Container::Quote => Row::EnterQuote,
        Container::Item(item) => Row::EnterItem {
            marker: item.marker,
            number: item.number,
        },
        Container::Footnote(_) => Row::EnterFootnote,
    }
}
