//! Which lists are loose (CommonMark 5.3), and where they end.
ghost use Rattle.std.specs.Prelude.{◌≡◌, List, true, IfOk, OnOk, reverse};
ghost use Rattle.std.specs.List.{list_any};
ghost use Rattle.definition_text.specs.BlockLines.{BlockLine};
ghost use Rattle.definition_block.specs.Tree.{Blocks};
ghost use Rattle.definition_block.specs.Lists.{group_items};
ghost use Rattle.block_rows.specs.Rows.{row_value, rows_of, rows_value};
ghost use Rattle.html_looseness.specs.Loose.{before_block, before_ending, before_item, bounds_container, place_at, pass_view, pass_row, pass_item};
ghost use Rattle.html_looseness.specs.Loose.{leave, places_of, starts_item};
ghost use Rattle.html_looseness.specs.Places.{all_places};
ghost use Rattle.html_looseness.specs.Printable.{CanBePrinted};

use block_rows::Row;
use std::alloc::{AllocError, Allocator};

/// What is known of an item where it starts.
#[derive(Clone, Copy, Default)]
pub struct Place {
    /// Whether the list from this item on is loose.
    pub loose: bool,
    /// Whether the list goes on after this item.
    pub goes_on: bool,
}

/// What stands after a place, among the children of one container. Other crates speak of it in
/// proofs alone.
#[derive(Clone, Copy, Default)]
pub struct Ahead {
    /// Whether a block does.
    some: bool,
    /// Whether an ending comes first.
    ending_first: bool,
    /// Whether two endings or more do.
    apart: bool,
    /// The marker of the item that comes first, or after endings, and 0 if no item does.
    marker: u8,
    /// Whether the list from this item on is loose.
    loose: bool,
    /// Whether some two neighbouring children have a line between them. A list counts as one.
    gap: bool,
}

impl Ahead {
    /// Goes before a block that is no item. Fields are set one by one, as a whole that is put together
    /// would be copied by larger pieces than it was written.
    fn pass_block(&mut self)
        ensures { self.new ≡ before_block self.old }
    {
        self.gap = self.apart && self.some || self.gap;
        self.some = true;
        self.ending_first = false;
        self.apart = false;
        self.marker = 0;
        self.loose = false;
    }

    /// Goes before an ending.
    fn pass_ending(&mut self)
        ensures { self.new ≡ before_ending self.old }
    {
        self.apart = self.ending_first;
        self.ending_first = true;
    }

    /// What is known of an item before this, whose own children may have a gap.
    fn place(self, marker: u8, gap: bool) -> Place
        ensures { result ≡ place_at self marker gap }
    {
        let goes_on = self.marker == marker;
        Place {
            loose: gap || goes_on && (self.apart || self.loose),
            goes_on,
        }
    }

    /// Before an item.
    fn before_item(self, marker: u8, place: Place) -> Ahead
        ensures { result ≡ before_item self marker place }
    {
        Ahead {
            some: true,
            marker,
            loose: place.loose,
            gap: !place.goes_on && self.apart && self.some || self.gap,
            ..Ahead::default()
        }
    }
}

/// A pass over rows from their end to their front.
#[derive(Drop)]
struct Pass<A: Allocator> {
    ahead: Ahead,
    /// What stands after the containers that are open.
    outer: Vec<Ahead, A>,
    /// The places of the items so far, that of the first item last.
    places: Vec<Place, A>,
}

impl<A: Allocator> Pass<A> {
    /// One row more, in front of the others. Most are leaves and endings; what starts or ends a
    /// container is kept apart, so that these need no table of jumps.
    fn row(&mut self, row: Row) -> Result<(), AllocError>
        ensures { OnOk result ((ls : List BlockLine) → pass_view self.new ≡ pass_row (pass_view self.old) (row_value row ls)) }
    {
        match row {
            Row::EnterQuote | Row::EnterItem { .. } | Row::EnterFootnote | Row::Exit => {
                return self.bound(row);
            }
            Row::Ending(_) | Row::Blank(_) => self.ahead.pass_ending(),
            _ => self.ahead.pass_block(),
        }
        Ok(())
    }

    /// The start or the end of a container.
    #[inline(never)]
    fn bound(&mut self, row: Row) -> Result<(), AllocError>
        requires { bounds_container row ≡ true }
        ensures { OnOk result ((ls : List BlockLine) → pass_view self.new ≡ pass_row (pass_view self.old) (row_value row ls)) }
    {
        match row {
            Row::Exit => {
                self.outer.push(self.ahead)?;
                self.ahead = Ahead::default();
            }
            Row::EnterItem { marker, .. } => self.item(marker)?,
            _ => {
                self.ahead = self.leave();
                self.ahead.pass_block();
            }
        }
        Ok(())
    }

    /// The start of an item.
    fn item(&mut self, marker: u8) -> Result<(), AllocError>
        ensures { OnOk result (pass_view self.new ≡ pass_item (pass_view self.old) marker) }
    {
        let gap = self.ahead.gap;
        let after = self.leave();
        let place = after.place(marker, gap);
        self.ahead = after.before_item(marker, place);
        self.places.push(place)?;
        Ok(())
    }

    /// What stands after the container that starts here.
    fn leave(&mut self) -> Ahead
        ensures ahead { result ≡ (leave (pass_view self.old)).ahead }
        ensures others { pass_view self.new ≡ record (pass_view self.old) { outer = (leave (pass_view self.old)).outer } }
    {
        self.outer.pop().unwrap_or_default()
    }
}

/// The places of all items, that of the first item last.
pub fn places<A: Allocator + Clone>(alloc: A, rows: &[Row]) -> Result<Vec<Place, A>, AllocError>
    ensures rows { IfOk result (λ places. (ls : List BlockLine) → reverse places.items ≡ places_of (rows_value rows.now ls).rows) }
    ensures lists { IfOk result (λ places. (ls : List BlockLine) (bs : Blocks) → (rows_value rows.now ls).rows ≡ rows_of bs → CanBePrinted bs →
        reverse places.items ≡ all_places (group_items bs)) }
{
    if !has_items(rows) {
        return Ok(Vec::new(alloc));
    }
    let mut pass = Pass {
        ahead: Ahead::default(),
        outer: Vec::new(alloc.clone()?),
        places: Vec::new(alloc),
    };
    for row in rows.iter().rev() {
        pass.row(*row)?;
    }
    let Pass { places, .. } = pass;
    Ok(places)
}

/// Whether an item starts in some row.
fn has_items(rows: &[Row]) -> bool
    ensures { result ≡ list_any starts_item rows.now }
{
    rows.iter().any(|row| matches!(row, Row::EnterItem { .. }))
}
