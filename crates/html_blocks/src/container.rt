//! What is open on a page that is being printed, and where containers start and end (CommonMark 5).
ghost use Rattle.std.specs.Prelude.{◌≡◌, List, IfOk, OnOk};
ghost use Rattle.markdown_options.specs.LineEndings.{ending_bytes};
ghost use Rattle.definition_text.specs.BlockLines.{BlockLine};
ghost use Rattle.block_rows.specs.Rows.{rows_value};
ghost use Rattle.html_bytes.specs.Layout.{LayoutState, nothing_laid};
ghost use Rattle.html_rows.specs.Printing.{blank_page, exit, within, within_at, outside};
ghost use Rattle.html_blocks.specs.ContainersView.{containers_at, containers_view};
ghost use Rattle.html_leaves.specs.Prints.{KeepsEnding};

use block_rows::Row;
use html_leaves::Page;
use html_looseness::{Holder, Level, Place, places};
use std::alloc::{AllocError, Allocator};

/// What is open on a page that is being printed.
#[derive(Drop)]
pub struct Containers<A: Allocator + Clone> {
    /// What holds the next row.
    pub level: Level,
    /// The levels around it.
    pub(crate) outer: Vec<Level, A>,
    /// The places of the items to come, the next one last.
    pub(crate) places: Vec<Place, A>,
}

impl<A: Allocator + Clone> Containers<A> {
    /// Nothing is open, before these rows.
    pub fn new(alloc: A, rows: &[Row]) -> Result<Containers<A>, AllocError>
        ensures { (ls : List BlockLine) → IfOk result (λ containers. containers_at nothing_laid containers ≡ blank_page (rows_value rows.now ls).rows) }
    {
        let outer = Vec::new(alloc.clone()?);
        let places = places(alloc, rows)?;
        Ok(Containers {
            level: Level::new(Holder::Document, false),
            outer,
            places,
        })
    }

    /// The innermost container ends, and with the last item its list.
    pub fn exit(&mut self, page: &mut Page<A>) -> Result<(), AllocError>
        ensures default { KeepsEnding page.old page.new }
        ensures printed { OnOk result (containers_view page.new self.new
            ≡ exit (ending_bytes page.old.default_ending) (containers_view page.old self.old)) }
    {
        match self.level.holder {
            Holder::Document | Holder::List { .. } => Ok(()),
            Holder::Quote => self.leave_quote(page),
            Holder::Item { last } => {
                self.leave_item(page)?;
                if last { self.leave_list(page) } else { Ok(()) }
            }
            Holder::Footnote => self.leave_footnote(page),
        }
    }

    /// Goes into a container or a list.
    pub(crate) fn enter(&mut self, holder: Holder, tight: bool) -> Result<(), AllocError>
        ensures { (out : LayoutState) → OnOk result (containers_at out self.new ≡ within holder tight (containers_at out self.old)) }
    {
        let around = Level {
            plain: false,
            silent: false,
            first: false,
            ..self.level
        };
        self.enter_at(around, holder, tight)
    }

    /// Goes into a container or a list, where the level around it is this one afterwards.
    pub(crate) fn enter_at(
        &mut self,
        around: Level,
        holder: Holder,
        tight: bool,
    ) -> Result<(), AllocError>
        ensures { (out : LayoutState) → OnOk result (containers_at out self.new ≡ within_at around holder tight (containers_at out self.old)) }
    {
        self.outer.push(around)?;
        self.level = Level::new(holder, tight);
        Ok(())
    }

    /// Goes out of one.
    pub(crate) fn leave(&mut self)
        ensures { (out : LayoutState) → containers_at out self.new ≡ outside (containers_at out self.old) }
    {
        if let Some(level) = self.outer.pop() {
            self.level = level;
        }
    }
}
