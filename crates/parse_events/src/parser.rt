//! Rows of blocks to events (CommonMark 4 and 5).
ghost use Rattle.std.specs.Prelude.{◌≡◌, ◌<◌, ◌≤◌, ℕ, IfOk, IsTrue, List, OnOk, Option, [], false, length, true, vec_len};
ghost use Rattle.markdown_options.specs.declared.line_ending.LineEnding.{LineEnding};
ghost use Rattle.definition_inline.specs.Targets.{Targets};
ghost use Rattle.definition_block.specs.Tree.{Blank, Ending, Leaf, LeafBlock};
ghost use Rattle.definition_page.specs.Read.{Reading};
ghost use Rattle.text_pieces.specs.Pieces.{piece_lines};
ghost use Rattle.block_rows.specs.Rows.{EnterFootnote, EnterItem, EnterQuote, Exit, Single, row_value, rows_size};
ghost use Rattle.parse_output.specs.Children.{holds_blocks};
ghost use Rattle.parse_lines.specs.Open.{still_open};
ghost use Rattle.parse_laid.specs.Begun.{ends_line};
ghost use Rattle.parse_leaves.specs.Rows.{AreLinesOf};
ghost use Rattle.parse_leaves.specs.Texts.{KnowsTargets, reading_by};
ghost use Rattle.parse_open.specs.Levels.{list_name};
ghost use Rattle.parse_events.specs.Opened.{close_all, ends_in_list, is_list, opened_name};
ghost use Rattle.parse_events.specs.Closing.{HasOpen, Keeps, OpensIf, open_around};
ghost use Rattle.parse_events.specs.Document.{IsNew, WritesRows};
ghost use Rattle.parse_events.specs.Parsing.{BeginsRow, Closes, EndsItem, GoesOn, GoesOnInLine, HasList, StandsInEnd};

use crate::opened::Opened;
use block_rows::Row;
use engine_events::event::Name;
use html_looseness::{Place, places};
use markdown_options::{Container, Tables};
use parse_leaves::{Buffers, push_leaf};
use parse_lines::Walk;
use parse_raw::{Texts, push_blank_line};
use parse_tables::push_table;
use std::alloc::{AllocError, Allocator};
use text_pieces::Piece;

/// A text that is being written, and what is open in it.
#[derive(Drop)]
pub(crate) struct Parser<'a, A: Allocator + Clone> {
    pub(crate) walk: Walk<'a, A>,
    pub(crate) buffers: Buffers<'a, A>,
    /// The containers and lists that are open, the innermost last.
    pub(crate) open: Vec<Opened, A>,
    /// What is known of the items that are open, the innermost last.
    pub(crate) items: Vec<Place, A>,
    /// What is known of the items to come, the next one last.
    pub(crate) places: Vec<Place, A>,
    /// Whether the innermost container is an item in which no block is yet (GFM 5.3).
    pub(crate) first: bool,
}

impl<'a, A: Allocator + Clone> Parser<'a, A> {
    /// A parser of these rows, which begins at a walk. Nothing is open.
    pub(crate) fn new(
        alloc: A,
        walk: Walk<'a, A>,
        rows: &[Row],
    ) -> Result<Parser<'a, A>, AllocError>
        ensures { IfOk result (λ parser. IsNew rows.now walk.entry parser) }
    {
        let places = places(alloc.clone()?, rows)?;
        let open = Vec::new(alloc.clone()?);
        let items = Vec::new(alloc.clone()?);
        let buffers = Buffers::new(alloc)?;
        Ok(Parser {
            walk,
            buffers,
            open,
            items,
            places,
            first: false,
        })
    }

    /// Writes rows, which take these lines.
    #[tactic(auto, using(block_rows::proofs::RowSteps::taken_more))]
    pub(crate) fn rows<T: Tables>(
        &mut self,
        texts: &Texts<'a, '_, T, A>,
        rows: &[Row],
        pieces: &[Piece<'a>],
    ) -> Result<(), AllocError>
        requires enough { rows_size rows.now ≤ length pieces.now }
        requires held { HasOpen self.old }
        ensures kept { OnOk result (Keeps self.old self.new) }
        ensures written { OnOk result ((ds : Targets) → KnowsTargets texts.now ds
            → WritesRows (reading_by T.Tables texts.now ds) rows.now (piece_lines pieces.now) self.old self.new) }
    {
        let mut taken = 0;
        for row in rows {
            let end = taken + row.size();
            self.row(texts, *row, &pieces[taken..end])?;
            taken = end;
        }
        Ok(())
    }

    /// Writes a row, which takes these lines.
    fn row<T: Tables>(
        &mut self,
        texts: &Texts<'a, '_, T, A>,
        row: Row,
        lines: &[Piece<'a>],
    ) -> Result<(), AllocError>
        requires held { HasOpen self.old }
        ensures kept { OnOk result (Keeps self.old self.new) }
        ensures goes_on { OnOk result ((ds : Targets) → KnowsTargets texts.now ds → AreLinesOf row (piece_lines lines.now)
            → GoesOn (reading_by T.Tables texts.now ds) (row_value row (piece_lines lines.now)) self.old self.new) }
    {
        if let Row::Ending(_) = row {
            return self.ending();
        }
        self.in_line()?;
        self.row_in_line(texts, row, lines)
    }

    /// Writes a row that is no ending. Its line is begun.
    fn row_in_line<T: Tables>(
        &mut self,
        texts: &Texts<'a, '_, T, A>,
        row: Row,
        lines: &[Piece<'a>],
    ) -> Result<(), AllocError>
        requires held { HasOpen self.old }
        ensures kept { OnOk result (Keeps self.old self.new) }
        ensures goes_on { OnOk result ((ds : Targets) → KnowsTargets texts.now ds → AreLinesOf row (piece_lines lines.now)
            → ends_line (row_value row (piece_lines lines.now)) ≡ false
            → GoesOnInLine (reading_by T.Tables texts.now ds) (row_value row (piece_lines lines.now)) self.old self.new) }
    {
        match row {
            Row::Blank(_) => self.blank(),
            Row::EnterQuote => self.enter_quote(),
            Row::EnterFootnote => self.enter_footnote(),
            Row::EnterItem { number, .. } => self.enter_item(Opened::list(number)),
            Row::Exit => self.exit(),
            _ => self.leaf(texts, row, lines),
        }
    }

    /// The ending of the line, if one is begun: unclosed code at the top has its own.
    #[tactic(auto, using(crate::proofs::Held::held_may))]
    fn ending(&mut self) -> Result<(), AllocError>
        requires held { HasOpen self.old }
        ensures kept { OnOk result (Keeps self.old self.new) }
        ensures goes_on { OnOk result ((r : Reading) (ending : Option LineEnding) → GoesOn r (Single (Ending ending)) self.old self.new) }
    {
        if !self.walk.is_in_line() {
            return Ok(());
        }
        self.walk.ending(Name::LineEnding)
    }

    /// Begins a line, unless one is begun.
    #[tactic(auto, using(crate::proofs::Held::held_lines))]
    fn in_line(&mut self) -> Result<(), AllocError>
        requires held { HasOpen self.old }
        ensures kept { OnOk result (Keeps self.old self.new) }
        ensures begins { OnOk result (BeginsRow self.old self.new) }
    {
        self.walk.in_line()
    }

    /// A blank line.
    #[tactic(auto, using(crate::proofs::Held::held_lines))]
    fn blank(&mut self) -> Result<(), AllocError>
        requires held { HasOpen self.old }
        ensures kept { OnOk result (Keeps self.old self.new) }
        ensures goes_on { OnOk result ((r : Reading) (ending : Option LineEnding) → GoesOnInLine r (Single (Blank ending)) self.old self.new) }
    {
        push_blank_line(&mut self.walk)
    }

    /// The start of a block quote.
    #[tactic(auto, using(parse_output::proofs::Classes::blocks_may))]
    fn enter_quote(&mut self) -> Result<(), AllocError>
        requires held { HasOpen self.old }
        ensures kept { OnOk result (Keeps self.old self.new) }
        ensures goes_on { OnOk result ((r : Reading) → GoesOnInLine r EnterQuote self.old self.new) }
    {
        self.begin_block()?;
        let starts = self.walk.start_quote()?;
        self.open_if(starts, Opened::Quote)
    }

    /// The start of a footnote definition.
    #[tactic(auto, using(parse_output::proofs::Classes::blocks_may))]
    fn enter_footnote(&mut self) -> Result<(), AllocError>
        requires held { HasOpen self.old }
        ensures kept { OnOk result (Keeps self.old self.new) }
        ensures goes_on { OnOk result ((r : Reading) (label : List ℕ) → GoesOnInLine r (EnterFootnote label) self.old self.new) }
    {
        self.begin_block()?;
        let starts = self.walk.start_footnote()?;
        self.open_if(starts, Opened::Footnote)
    }

    /// The start of an item, and of its list if it is the first.
    fn enter_item(&mut self, list: Opened) -> Result<(), AllocError>
        requires list { is_list list ≡ true }
        requires held { HasOpen self.old }
        ensures kept { OnOk result (Keeps self.old self.new) }
        ensures goes_on { OnOk result ((r : Reading) (marker : ℕ) (number : Option ℕ) → opened_name list ≡ list_name number
            → GoesOnInLine r (EnterItem marker number) self.old self.new) }
    {
        let place = self.places.pop().unwrap_or_default();
        self.in_list(list)?;
        self.first = true;
        self.items.push(place)?;
        let starts = self.walk.start_item()?;
        self.open_if(starts, Opened::Item)
    }

    /// One more is open, if its start is written.
    fn open_if(&mut self, starts: bool, opened: Opened) -> Result<(), AllocError>
        ensures { OnOk result (OpensIf starts opened self.old self.new) }
    {
        if !starts {
            return Ok(());
        }
        self.open.push(opened)?;
        Ok(())
    }

    /// Begins a list after the spaces and tabs ahead, unless one is open in which no item is.
    #[tactic(auto, using(parse_output::proofs::Classes::blocks_may, crate::proofs::Held::held_blocks, crate::proofs::Held::list_child, crate::proofs::Held::opened_row))]
    fn in_list(&mut self, list: Opened) -> Result<(), AllocError>
        requires list { is_list list ≡ true }
        requires held { HasOpen self.old }
        ensures kept { OnOk result (Keeps self.old self.new) }
        ensures begins { OnOk result (HasList list self.old self.new) }
    {
        if self.is_in_list() {
            return Ok(());
        }
        let _bare = self.walk.white()?;
        self.walk.enter(list.name())?;
        self.open.push(list)?;
        Ok(())
    }

    /// Whether a list is open in which no item is.
    #[tactic(auto, using(crate::proofs::Held::last_is, crate::proofs::Held::none_is))]
    fn is_in_list(&self) -> bool
        ensures list { result ≡ ends_in_list self.now.open.items }
        ensures some { IsTrue result → 0 < vec_len self.now.open }
    {
        let count = self.open.len();
        if count == 0 {
            return false;
        }
        self.open[count - 1].is_list()
    }

    /// A block begins that is no item: the ends of the lists in which no item is.
    #[tactic(auto, using(crate::proofs::Held::held_blocks))]
    fn begin_block(&mut self) -> Result<(), AllocError>
        requires held { HasOpen self.old }
        ensures kept { OnOk result (Keeps self.old self.new) }
        ensures blocks { OnOk result (holds_blocks (still_open self.new.walk) ≡ true) }
        ensures stays { ends_in_list self.old.open.items ≡ false → OnOk result (self.new ≡ record self.old { first = false }) }
    {
        self.first = false;
        while self.is_in_list() {
            self.close()?;
        }
        Ok(())
    }

    /// The end of the innermost container.
    fn exit(&mut self) -> Result<(), AllocError>
        requires held { HasOpen self.old }
        ensures kept { OnOk result (Keeps self.old self.new) }
        ensures goes_on { OnOk result ((r : Reading) → GoesOnInLine r Exit self.old self.new) }
    {
        self.first = false;
        let Some(container) = self.walk.leave() else {
            return Ok(());
        };
        self.close()?;
        match container {
            Container::Item(_) => self.exit_item(),
            _ => Ok(()),
        }
    }

    /// The end of its list, if the item that ended is the last.
    fn exit_item(&mut self) -> Result<(), AllocError>
        requires held { HasOpen self.old }
        ensures kept { OnOk result (Keeps self.old self.new) }
        ensures ends { OnOk result (EndsItem self.old self.new) }
    {
        let Some(place) = self.items.pop() else {
            return Ok(());
        };
        if place.goes_on {
            return Ok(());
        }
        self.close()
    }

    /// The exit of the innermost container or list.
    fn close(&mut self) -> Result<(), AllocError>
        requires held { HasOpen self.old }
        ensures kept { OnOk result (Keeps self.old self.new) }
        ensures fewer { OnOk result (0 < vec_len self.old.open → vec_len self.new.open < vec_len self.old.open) }
        ensures closes { 0 < length self.old.open.items → OnOk result (Closes self.old self.new) }
    {
        let Some(opened) = self.open.pop() else {
            return Ok(());
        };
        self.walk.exit(opened.name())
    }

    /// A block that holds no other, of these lines.
    fn leaf<T: Tables>(
        &mut self,
        texts: &Texts<'a, '_, T, A>,
        row: Row,
        lines: &[Piece<'a>],
    ) -> Result<(), AllocError>
        requires held { HasOpen self.old }
        ensures kept { OnOk result (Keeps self.old self.new) }
        ensures goes_on { OnOk result ((ds : Targets) (leaf : LeafBlock) → KnowsTargets texts.now ds → AreLinesOf row (piece_lines lines.now)
            → row_value row (piece_lines lines.now) ≡ Single (Leaf leaf)
            → GoesOnInLine (reading_by T.Tables texts.now ds) (Single (Leaf leaf)) self.old self.new) }
    {
        let first = self.first;
        self.begin_block()?;
        match row {
            Row::Table(_) => push_table(&mut self.walk, texts, &mut self.buffers, lines),
            _ => push_leaf(&mut self.walk, texts, &mut self.buffers, first, row, lines),
        }
    }

    /// The walk, after the exits of the containers and lists that the rows leave open.
    pub(crate) fn into_walk(self) -> Result<Walk<'a, A>, AllocError>
        ensures open { IfOk result (λ walk. still_open walk ≡ open_around self.entry) }
        ensures stands { IfOk result (λ walk. StandsInEnd self.entry walk) }
    {
        let Parser { walk, open, .. } = self;
        exit_all(walk, open)
    }
}

/// The walk after the exits of all of these, the innermost of which is the last.
#[tactic(auto, using(crate::proofs::Held::close_last))]
fn exit_all<'a, A: Allocator>(
    walk: Walk<'a, A>,
    open: Vec<Opened, A>,
) -> Result<Walk<'a, A>, AllocError>
    ensures open { IfOk result (λ after. still_open after ≡ close_all open.items (still_open walk.entry)) }
    ensures stays { open.items ≡ [] → IfOk result (λ after. after ≡ walk.entry) }
{
    let mut walk = walk;
    let mut open = open;
    while let Some(opened) = open.pop() {
        walk.exit(opened.name())?;
    }
    Ok(walk)
}
