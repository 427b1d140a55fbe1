//! Which events may stand where: a stack of rows that are not at their end.
ghost use Rattle.std.specs.Prelude.{◌≡◌, ◌∷◌, [], ◌++◌, ◌<◌, ◌≤◌, ◌+◌, ◌^◌, ◌&&◌, ◌||◌, ℕ, List, Option, true, false, length, None, Some, IfOk, OnOk};
ghost use Rattle.engine_events.specs.declared.event.Kind.TheVariants.{Enter, Exit};
ghost use Rattle.engine_events.specs.declared.event.Name.{Name};
ghost use Rattle.event_faults.specs.Checks.{limit_of, is_limit, has_limit, with_child, with_above, is_barred, entered};
ghost use Rattle.event_faults.specs.Checks.{may_exit, exited, is_named, the_document, at_start, check_at, step, fact_at};
ghost use Rattle.event_grammar.specs.Grammar.{row, cell_names, mdx_names};
ghost use Rattle.event_grammar.specs.Slots.{take_child, between_of, stands_between, one_line};
ghost use Rattle.event_grammar.specs.SlotViews.{taken_view};
ghost use Rattle.event_grammar.specs.Voids.{void_of, is_not, is_between};
ghost use Rattle.event_faults.specs.Spaces.{TakesNone};
ghost use Rattle.event_grammar.specs.Marked.{mark_of, marked_from};
ghost use Rattle.event_grammar.specs.Void.{is_void};
ghost use Rattle.event_grammar.specs.Facts.{is_fact};
ghost use Rattle.event_grammar.specs.declared.slot.Form.{Form};
ghost use Rattle.engine_events.specs.Names.{is_listed};
ghost use Rattle.event_grammar.specs.Points.{IsFront, bytes_between, reaches, is_spot, spot_of};
ghost use Rattle.event_faults.specs.Faults.{fault_from, fault_at_end};
ghost use Rattle.event_faults.specs.CheckViews.{open_view, leaf_view, opened_after, check_view, Moves, Passes, Steps, StandsAt};
ghost use Rattle.event_grammar.specs.Trees.{is_pair};

use crate::fault::{EventFault, FaultKind};
use crate::place::{Known, front_of, is_next, is_place, place};
use engine_events::event::{Event, Kind, Name};
use event_grammar::facts::is_fact;
use event_grammar::grammar::row;
use event_grammar::names::{
    Void, asks_bytes, is_cell, is_line, is_link, is_marked, is_mdx, is_one_line, void_of,
};
use event_grammar::slots::{Taken, may_end, take_child};
use event_grammar::spot::{bytes_between, spot_of};
use event_grammar::{Between, Child, Form, Slot, Spot};
use markdown_options::Tables;
use std::alloc::{AllocError, Allocator};
use std::mem::size_of;

/// An event that is open, or the document.
#[derive(Clone, Copy)]
pub struct Open {
    /// What is left of its row.
    rest: &'static [Slot],
    /// Where it began.
    start: usize,
    /// How many cells it has.
    cells: usize,
    /// How many cells the last row of a table in it has.
    above: usize,
    /// How many it must have, if that is asked.
    limit: usize,
    /// Whether it is asked how many cells it has.
    limited: bool,
    /// How many columns of a tab are before its start.
    start_vs: u8,
    /// Its name; the document has none.
    name: Option<Name>,
    form: Form,
    /// The child before it of what holds it.
    sibling: Option<Name>,
    /// Its last child.
    last: Option<Name>,
    /// What may stand between its children.
    around: Between,
    /// Whether it is in a link or a call, or one.
    linked: bool,
}

// It is copied where an event begins and where it ends.
const _: () = prove!(size_of::<Open>() <= 64);

impl Open {
    /// The document before its first event.
    fn document() -> Open
        ensures { open_view result ≡ the_document }
    {
        Open {
            rest: &[
                Slot::Opt(Child::Only(Name::ByteOrderMark)),
                Slot::Opt(Child::Only(Name::Frontmatter)),
                Slot::Many(Child::Block),
            ],
            start: 0,
            cells: 0,
            above: 0,
            limit: 0,
            limited: false,
            start_vs: 0,
            name: None,
            form: Form::Plain,
            sibling: None,
            last: None,
            around: Between::Lines,
            linked: false,
        }
    }

    /// How many cells it must have, if that is asked.
    #[inline(always)]
    fn limit(&self) -> Option<usize>
        ensures { result ≡ (open_view self.now).limit }
    {
        if self.limited { Some(self.limit) } else { None }
    }

    /// Where it began.
    #[inline(always)]
    fn start(&self) -> Spot
        ensures { result ≡ (open_view self.now).start }
    {
        Spot {
            index: self.start,
            vs: self.start_vs,
        }
    }

    /// How many cells a row of delimiters must have: as many as the row above it.
    fn limit_of(&self, name: Name) -> Option<usize>
        ensures { result ≡ limit_of (open_view self.now) name }
    {
        if name == Name::GfmTableDelimiterRow {
            Some(self.above)
        } else {
            None
        }
    }

    /// A child was taken, after which this is left of the row.
    #[inline(always)]
    fn take(&mut self, name: Name, rest: &'static [Slot])
        requires { self.old.cells + 1 < 2 ^ 64 }
        ensures { open_view self.new ≡ with_child (open_view self.old) name rest.now }
    {
        if is_cell(name) {
            self.cells += 1;
        }
        self.rest = rest;
        self.last = Some(name);
    }

    /// A child that is no cell was taken.
    fn take_alone(&mut self, name: Name, rest: &'static [Slot])
        requires { is_listed cell_names name ≡ false }
        ensures { open_view self.new ≡ with_child (open_view self.old) name rest.now }
    {
        self.rest = rest;
        self.last = Some(name);
    }

    /// An event with so many cells was exited in it.
    fn note_exit(&mut self, name: Name, cells: usize)
        ensures { open_view self.new ≡ with_above (open_view self.old) name cells }
    {
        if name == Name::GfmTableRow {
            self.above = cells;
        }
    }

    /// A link in a link, or a cell too many.
    #[inline(always)]
    fn is_barred(&self, name: Name) -> bool
        ensures { result ≡ is_barred (open_view self.now) name }
    {
        self.linked && is_link(name) || self.limited && self.is_past_limit(name)
    }

    /// A cell, where there are as many as are asked.
    #[inline(never)]
    fn is_past_limit(&self, name: Name) -> bool
        ensures { result ≡ (is_listed cell_names name && is_limit (open_view self.now).limit (open_view self.now).cells) }
    {
        is_cell(name) && is_limit(self.limit(), self.cells)
    }

    /// Whether it may end by an exit of this name.
    fn may_exit(&self, name: Name) -> bool
        ensures { result ≡ may_exit (open_view self.now) name }
    {
        is_named(self.name, name) && may_end(self.rest) && has_limit(self.limit(), self.cells)
    }
}

/// An event without a row that is open.
#[derive(Clone, Copy)]
pub struct Leaf {
    name: Name,
    form: Form,
    /// The child before it of what holds it.
    sibling: Option<Name>,
    /// Where it began.
    start: Spot,
}

impl Leaf {
    /// Whether it may end by an exit of this name; this holds it.
    fn may_exit(&self, holder: &Open, name: Name) -> bool
        ensures { result ≡ may_exit (leaf_view self.now (open_view holder.now)) name }
    {
        self.name == name && has_limit(holder.limit_of(self.name), 0)
    }
}

/// Whether two events are an enter and an exit of one name.
#[inline(always)]
fn is_pair(enter: &Event, exit: &Event) -> bool
    ensures { result ≡ is_pair enter.now exit.now }
{
    matches!(enter.kind, Kind::Enter) && matches!(exit.kind, Kind::Exit) && enter.name == exit.name
}

/// What may stand between the children of an event with this row, by its name and by what may stand
/// beside it.
#[inline(always)]
fn between_of(rest: &[Slot], around: Between, name: Name) -> Between
    ensures { result ≡ between_of rest.now around name }
{
    match rest.split_first() {
        None => Between::Nothing,
        Some(_) => one_line(around, name),
    }
}

#[inline(always)]
fn one_line(around: Between, name: Name) -> Between
    ensures { result ≡ one_line around name }
{
    match around {
        Between::Nothing | Between::Spaces => Between::Spaces,
        Between::Lines => {
            if is_one_line(name) {
                Between::Spaces
            } else {
                Between::Lines
            }
        }
    }
}

/// Whether a name may stand between children.
#[inline(always)]
fn stands_between(between: Between, name: Name) -> bool
    ensures { result ≡ stands_between between name }
{
    match between {
        Between::Nothing => false,
        Between::Spaces => name == Name::SpaceOrTab,
        Between::Lines => name == Name::SpaceOrTab || is_line(name),
    }
}

/// Whether spaces or a line ending may stand between children.
#[inline(always)]
fn stands_as(between: Between, void: Void) -> bool
    ensures { result ≡ is_between between void }
{
    match between {
        Between::Nothing => false,
        Between::Spaces => matches!(void, Void::Space),
        Between::Lines => void.is_between(),
    }
}

/// Whether a name is that of what is open; the document has none.
fn is_named(held: Option<Name>, name: Name) -> bool
    ensures { result ≡ is_named held name }
{
    held == Some(name)
}

/// Whether there are as many as a limit says, if it is asked.
fn is_limit(limit: Option<usize>, cells: usize) -> bool
    ensures { result ≡ is_limit limit cells }
{
    match limit {
        None => false,
        Some(limit) => cells == limit,
    }
}

/// The same, or no limit is asked.
fn has_limit(limit: Option<usize>, cells: usize) -> bool
    ensures { result ≡ has_limit limit cells }
{
    match limit {
        None => true,
        Some(limit) => cells == limit,
    }
}

/// What is open, and where the last event was.
#[derive(Drop)]
pub struct Check<A: Allocator> {
    /// The innermost event that has a row.
    inner: Open,
    /// An event without a row that is open in it.
    leaf: Option<Leaf>,
    /// Those around the innermost with a row, the inner ones last.
    outer: Vec<Open, A>,
    /// Where the last event was.
    spot: Spot,
    /// The last index whose column is known.
    known: Known,
}

impl<A: Allocator> Check<A> {
    /// Before any event.
    pub fn new(alloc: A) -> Check<A>
        ensures start { check_view result ≡ at_start }
        ensures index { result.known.index ≡ 0 }
        ensures phase { result.known.phase ≡ 0 }
    {
        Check {
            inner: Open::document(),
            leaf: None,
            outer: Vec::new(alloc),
            spot: Spot { index: 0, vs: 0 },
            known: Known { index: 0, phase: 0 },
        }
    }

    /// Enters an event of this name, and answers whether it may stand here.
    #[inline(always)]
    fn enter(&mut self, name: Name, at: Spot) -> Result<bool, AllocError>
        requires { self.old.inner.cells + 1 < 2 ^ 64 }
        ensures known { self.new.known ≡ self.old.known }
        ensures spot { IfOk result (λ ok. ok ≡ true → self.new.spot ≡ at) }
        ensures moved { IfOk result (λ ok. Moves ok (check_view self.new) (entered (check_view self.old) at name)) }
    {
        match self.leaf {
            Some(_) => Ok(false),
            None => self.enter_inner(name, at),
        }
    }

    /// Enters an event in the innermost with a row.
    #[inline(always)]
    fn enter_inner(&mut self, name: Name, at: Spot) -> Result<bool, AllocError>
        requires leaf { self.old.leaf ≡ None }
        requires cells { self.old.inner.cells + 1 < 2 ^ 64 }
        ensures known { self.new.known ≡ self.old.known }
        ensures spot { IfOk result (λ ok. ok ≡ true → self.new.spot ≡ at) }
        ensures moved { IfOk result (λ ok. Moves ok (check_view self.new) (entered (check_view self.old) at name)) }
    {
        match take_child(self.inner.rest, name) {
            Some(taken) => self.enter_taken(taken, name, at),
            None => self.enter_between(name, at),
        }
    }

    /// Enters an event that the row takes.
    #[inline(always)]
    fn enter_taken(&mut self, taken: Taken, name: Name, at: Spot) -> Result<bool, AllocError>
        requires leaf { self.old.leaf ≡ None }
        requires cells { self.old.inner.cells + 1 < 2 ^ 64 }
        requires taken { take_child (open_view self.old.inner).rest name ≡ Some (taken_view taken) }
        ensures known { self.new.known ≡ self.old.known }
        ensures spot { IfOk result (λ ok. ok ≡ true → self.new.spot ≡ at) }
        ensures moved { IfOk result (λ ok. Moves ok (check_view self.new) (entered (check_view self.old) at name)) }
    {
        if self.inner.is_barred(name) {
            return Ok(false);
        }
        let sibling = self.inner.last;
        self.inner.take(name, taken.rest);
        self.push(name, taken.form, sibling, at)?;
        Ok(true)
    }

    /// Enters an event that the row doesn't take.
    #[inline(never)]
    fn enter_between(&mut self, name: Name, at: Spot) -> Result<bool, AllocError>
        requires leaf { self.old.leaf ≡ None }
        requires taken { take_child (open_view self.old.inner).rest name ≡ None }
        ensures known { self.new.known ≡ self.old.known }
        ensures spot { IfOk result (λ ok. ok ≡ true → self.new.spot ≡ at) }
        ensures moved { IfOk result (λ ok. Moves ok (check_view self.new) (entered (check_view self.old) at name)) }
    {
        if self.inner.is_barred(name) || !stands_between(self.inner.around, name) {
            return Ok(false);
        }
        self.push(name, Form::Plain, self.inner.last, at)?;
        Ok(true)
    }

    /// An event of this name begins after a sibling.
    #[inline(always)]
    fn push(
        &mut self,
        name: Name,
        form: Form,
        sibling: Option<Name>,
        at: Spot,
    ) -> Result<(), AllocError>
        requires { self.old.leaf ≡ None }
        ensures known { self.new.known ≡ self.old.known }
        ensures spot { OnOk result (self.new.spot ≡ at) }
        ensures moved { OnOk result (check_view self.new
            ≡ check_at (opened_after sibling (open_view self.old.inner) name form at) (open_view self.old.inner ∷ (check_view self.old).outer) at) }
    {
        let rest = row(name, form);
        if rest.is_empty() {
            self.leaf = Some(Leaf {
                name,
                form,
                sibling,
                start: at,
            });
            self.spot.index = at.index;
            self.spot.vs = at.vs;
            return Ok(());
        }
        self.push_row(rest, name, form, sibling, at)
    }

    /// An event with this row begins after a sibling.
    #[inline(always)]
    fn push_row(
        &mut self,
        rest: &'static [Slot],
        name: Name,
        form: Form,
        sibling: Option<Name>,
        at: Spot,
    ) -> Result<(), AllocError>
        requires leaf { self.old.leaf ≡ None }
        requires row { rest.now ≡ row name form }
        ensures known { self.new.known ≡ self.old.known }
        ensures spot { OnOk result (self.new.spot ≡ at) }
        ensures moved { OnOk result (check_view self.new
            ≡ check_at (opened_after sibling (open_view self.old.inner) name form at) (open_view self.old.inner ∷ (check_view self.old).outer) at) }
    {
        let opened = Open {
            rest,
            start: at.index,
            cells: 0,
            above: 0,
            limit: self.inner.above,
            limited: name == Name::GfmTableDelimiterRow,
            start_vs: at.vs,
            name: Some(name),
            form,
            sibling,
            last: None,
            around: between_of(rest, self.inner.around, name),
            linked: self.inner.linked || is_link(name),
        };
        self.outer.reserve(1)?;
        self.outer.push_reserved(self.inner);
        self.inner = opened;
        self.spot.index = at.index;
        self.spot.vs = at.vs;
        Ok(())
    }

    /// Exits an event of this name, and answers whether it may end here.
    #[inline(always)]
    fn exit(&mut self, name: Name, at: Spot) -> bool
        ensures known { self.new.known ≡ self.old.known }
        ensures spot { result ≡ true → self.new.spot ≡ at }
        ensures moved { Moves result (check_view self.new) (exited (check_view self.old) at name) }
    {
        match self.leaf {
            Some(leaf) => self.exit_leaf(leaf, name, at),
            None => self.exit_inner(name, at),
        }
    }

    /// Exits an event of this name that has none.
    #[inline(never)]
    fn exit_leaf(&mut self, leaf: Leaf, name: Name, at: Spot) -> bool
        requires { self.old.leaf ≡ Some leaf }
        ensures known { self.new.known ≡ self.old.known }
        ensures spot { result ≡ true → self.new.spot ≡ at }
        ensures moved { Moves result (check_view self.new) (exited (check_view self.old) at name) }
    {
        if !leaf.may_exit(&self.inner, name) {
            return false;
        }
        self.leaf = None;
        self.inner.note_exit(name, 0);
        self.spot.index = at.index;
        self.spot.vs = at.vs;
        true
    }

    /// Exits an event of this name that has a row.
    #[inline(always)]
    fn exit_inner(&mut self, name: Name, at: Spot) -> bool
        requires { self.old.leaf ≡ None }
        ensures known { self.new.known ≡ self.old.known }
        ensures spot { result ≡ true → self.new.spot ≡ at }
        ensures moved { Moves result (check_view self.new) (exited (check_view self.old) at name) }
    {
        if !self.inner.may_exit(name) {
            return false;
        }
        match self.outer.pop() {
            None => false,
            Some(around) => {
                let cells = self.inner.cells;
                self.inner = around;
                self.inner.note_exit(name, cells);
                self.spot.index = at.index;
                self.spot.vs = at.vs;
                true
            }
        }
    }

    /// Whether the bytes of the innermost event are what is asked, where it ends.
    #[inline(always)]
    fn has_fact<T: Tables>(&self, tables: &T, bytes: &[u8], name: Name, at: Spot) -> bool
        ensures { result ≡ fact_at (T.reference_of tables.now) bytes.now (check_view self.now).inner Exit name at }
    {
        !asks_bytes(name) || self.is_fact(tables, bytes, name, at)
    }

    /// The same, where something is asked.
    #[inline(never)]
    fn is_fact<T: Tables>(&self, tables: &T, bytes: &[u8], name: Name, at: Spot) -> bool
        ensures { result ≡ fact_at (T.reference_of tables.now) bytes.now (check_view self.now).inner Exit name at }
    {
        let (form, sibling, start) = match self.leaf {
            Some(leaf) => (leaf.form, leaf.sibling, leaf.start),
            None => (self.inner.form, self.inner.sibling, self.inner.start()),
        };
        is_fact(tables, name, form, sibling, bytes_between(bytes, start, at))
    }

    /// What is wrong after so many events, if something is open.
    fn fault_at_end(&self, size: usize) -> Option<EventFault>
        ensures { result ≡ fault_at_end (check_view self.now).outer size }
    {
        if self.leaf.is_none() && self.outer.is_empty() {
            return None;
        }
        Some(EventFault {
            kind: FaultKind::Open,
            index: size,
        })
    }

    /// Passes an event that holds no other, by its enter and its exit, if both are right. Otherwise it
    /// changes nothing.
    #[inline(always)]
    fn pass<T: Tables>(
        &mut self,
        tables: &T,
        bytes: &[u8],
        front: &str,
        enter: &Event,
        exit: &Event,
    ) -> bool
        requires front { IsFront bytes.now front.now }
        requires stands { StandsAt bytes.now self.old.spot self.old.known }
        requires spaces { TakesNone (check_view self.old) }
        ensures unchanged { result ≡ false → self.new ≡ self.old }
        ensures void { result ≡ true → is_void enter.now.name ≡ true }
        ensures pair { result ≡ true → is_pair enter.now exit.now ≡ true }
        ensures stands { StandsAt bytes.now self.new.spot self.new.known }
        ensures passed { result ≡ true → Passes (T.reference_of tables.now) bytes.now (check_view self.old) enter.now exit.now (check_view self.new) }
    {
        if !is_pair(enter, exit) {
            return false;
        }
        match self.leaf {
            Some(_) => false,
            None => self.pass_pair(tables, bytes, front, enter, exit),
        }
    }

    /// Passes an enter and an exit of one name.
    #[inline(always)]
    fn pass_pair<T: Tables>(
        &mut self,
        tables: &T,
        bytes: &[u8],
        front: &str,
        enter: &Event,
        exit: &Event,
    ) -> bool
        requires leaf { self.old.leaf ≡ None }
        requires pair { is_pair enter.now exit.now ≡ true }
        requires front { IsFront bytes.now front.now }
        requires stands { StandsAt bytes.now self.old.spot self.old.known }
        requires spaces { TakesNone (check_view self.old) }
        ensures unchanged { result ≡ false → self.new ≡ self.old }
        ensures void { result ≡ true → is_void enter.now.name ≡ true }
        ensures pair { result ≡ true → is_pair enter.now exit.now ≡ true }
        ensures stands { StandsAt bytes.now self.new.spot self.new.known }
        ensures passed { result ≡ true → Passes (T.reference_of tables.now) bytes.now (check_view self.old) enter.now exit.now (check_view self.new) }
    {
        let name = enter.name;
        let void = void_of(name);
        if void.is_not() {
            return false;
        }
        let start = spot_of(enter);
        let end = spot_of(exit);
        if !is_next(front, self.spot, start) {
            return false;
        }
        if !is_place(front, start, end) {
            return false;
        }
        if void.is_between() {
            if !stands_as(self.inner.around, void) {
                return false;
            }
            if !is_fact_between(
                void,
                tables,
                bytes,
                name,
                Form::Plain,
                self.inner.last,
                start,
                end,
            ) {
                return false;
            }
            self.spot.index = end.index;
            self.spot.vs = end.vs;
            return true;
        }
        match take_child(self.inner.rest, name) {
            None => false,
            Some(taken) => {
                if !is_fact_between(
                    void,
                    tables,
                    bytes,
                    name,
                    taken.form,
                    self.inner.last,
                    start,
                    end,
                ) {
                    return false;
                }
                self.inner.take_alone(name, taken.rest);
                self.spot.index = end.index;
                self.spot.vs = end.vs;
                true
            }
        }
    }

    /// One more event: answers what is wrong with it, if anything is.
    #[inline(always)]
    fn step<T: Tables>(
        &mut self,
        tables: &T,
        bytes: &[u8],
        front: &str,
        event: &Event,
    ) -> Result<Option<FaultKind>, AllocError>
        requires front { IsFront bytes.now front.now }
        requires cells { self.old.inner.cells + 1 < 2 ^ 64 }
        requires stands { StandsAt bytes.now self.old.spot self.old.known }
        ensures step { IfOk result (λ wrong. Steps wrong (check_view self.new) (step (T.reference_of tables.now) bytes.now (check_view self.old) event.now)) }
        ensures stands { IfOk result (λ wrong. wrong ≡ None → StandsAt bytes.now self.new.spot self.new.known) }
    {
        match event.kind {
            Kind::Enter => self.step_in(bytes, front, event),
            Kind::Exit => Ok(self.step_out(tables, bytes, front, event)),
        }
    }

    /// Enters an event: answers what is wrong with it, if anything is.
    #[inline(always)]
    fn step_in(
        &mut self,
        bytes: &[u8],
        front: &str,
        event: &Event,
    ) -> Result<Option<FaultKind>, AllocError>
        requires kind { event.now.kind ≡ Enter }
        requires front { IsFront bytes.now front.now }
        requires cells { self.old.inner.cells + 1 < 2 ^ 64 }
        requires stands { StandsAt bytes.now self.old.spot self.old.known }
        ensures step { (names : List ℕ → Option (List ℕ)) →
            IfOk result (λ wrong. Steps wrong (check_view self.new) (step names bytes.now (check_view self.old) event.now)) }
        ensures stands { IfOk result (λ wrong. wrong ≡ None → StandsAt bytes.now self.new.spot self.new.known) }
    {
        if is_mdx(event.name) {
            return Ok(Some(FaultKind::Mdx));
        }
        let at = spot_of(event);
        if !is_next(front, self.spot, at) {
            return self.step_far_in(bytes, front, event);
        }
        if self.enter(event.name, at)? {
            Ok(None)
        } else {
            Ok(Some(FaultKind::Child))
        }
    }

    /// The same, at a place that may be none, or may be in a tab.
    #[inline(never)]
    fn step_far_in(
        &mut self,
        bytes: &[u8],
        front: &str,
        event: &Event,
    ) -> Result<Option<FaultKind>, AllocError>
        requires kind { event.now.kind ≡ Enter }
        requires name { is_listed mdx_names event.now.name ≡ false }
        requires front { IsFront bytes.now front.now }
        requires cells { self.old.inner.cells + 1 < 2 ^ 64 }
        requires stands { StandsAt bytes.now self.old.spot self.old.known }
        ensures step { (names : List ℕ → Option (List ℕ)) →
            IfOk result (λ wrong. Steps wrong (check_view self.new) (step names bytes.now (check_view self.old) event.now)) }
        ensures stands { IfOk result (λ wrong. wrong ≡ None → StandsAt bytes.now self.new.spot self.new.known) }
    {
        let from = self.spot;
        if !self.enter(event.name, spot_of(event))? {
            return Ok(Some(FaultKind::Child));
        }
        if !self.settle(bytes, front, from) {
            return Ok(Some(FaultKind::Place));
        }
        Ok(None)
    }

    /// Exits an event: answers what is wrong with it, if anything is.
    #[inline(always)]
    fn step_out<T: Tables>(
        &mut self,
        tables: &T,
        bytes: &[u8],
        front: &str,
        event: &Event,
    ) -> Option<FaultKind>
        requires kind { event.now.kind ≡ Exit }
        requires front { IsFront bytes.now front.now }
        requires stands { StandsAt bytes.now self.old.spot self.old.known }
        ensures step { Steps result (check_view self.new) (step (T.reference_of tables.now) bytes.now (check_view self.old) event.now) }
        ensures stands { result ≡ None → StandsAt bytes.now self.new.spot self.new.known }
    {
        if is_mdx(event.name) {
            return Some(FaultKind::Mdx);
        }
        let at = spot_of(event);
        if !is_next(front, self.spot, at) {
            return self.step_far_out(tables, bytes, front, event);
        }
        let has_fact = self.has_fact(tables, bytes, event.name, at);
        if !self.exit(event.name, at) {
            return Some(FaultKind::Child);
        }
        if !has_fact {
            return Some(FaultKind::Place);
        }
        None
    }

    /// The same, at a place that may be none, or may be in a tab.
    #[inline(never)]
    fn step_far_out<T: Tables>(
        &mut self,
        tables: &T,
        bytes: &[u8],
        front: &str,
        event: &Event,
    ) -> Option<FaultKind>
        requires kind { event.now.kind ≡ Exit }
        requires name { is_listed mdx_names event.now.name ≡ false }
        requires front { IsFront bytes.now front.now }
        requires stands { StandsAt bytes.now self.old.spot self.old.known }
        ensures step { Steps result (check_view self.new) (step (T.reference_of tables.now) bytes.now (check_view self.old) event.now) }
        ensures stands { result ≡ None → StandsAt bytes.now self.new.spot self.new.known }
    {
        let from = self.spot;
        let at = spot_of(event);
        let has_fact = self.has_fact(tables, bytes, event.name, at);
        if !self.exit(event.name, at) {
            return Some(FaultKind::Child);
        }
        if !self.settle(bytes, front, from) {
            return Some(FaultKind::Place);
        }
        if !has_fact {
            return Some(FaultKind::Place);
        }
        None
    }

    /// Whether the last event may be where it is, after a place.
    #[inline(always)]
    fn settle(&mut self, bytes: &[u8], front: &str, from: Spot) -> bool
        requires front { IsFront bytes.now front.now }
        requires stands { StandsAt bytes.now from self.old.known }
        ensures answer { result ≡ (reaches from self.old.spot && is_spot bytes.now self.old.spot) }
        ensures stands { result ≡ true → StandsAt bytes.now self.new.spot self.new.known }
        ensures same { check_view self.new ≡ check_view self.old }
    {
        is_next(front, from, self.spot) || self.settle_far(bytes, front, from)
    }

    /// The same, anywhere.
    #[inline(never)]
    fn settle_far(&mut self, bytes: &[u8], front: &str, from: Spot) -> bool
        requires front { IsFront bytes.now front.now }
        requires stands { StandsAt bytes.now from self.old.known }
        ensures answer { result ≡ (reaches from self.old.spot && is_spot bytes.now self.old.spot) }
        ensures stands { result ≡ true → StandsAt bytes.now self.new.spot self.new.known }
        ensures same { check_view self.new ≡ check_view self.old }
    {
        match place(bytes, front, from, self.known, self.spot) {
            None => false,
            Some(known) => {
                self.known = known;
                true
            }
        }
    }
}

/// Whether the bytes of an event from a place to another are what is asked.
#[inline(always)]
fn is_fact_between<T: Tables>(
    void: Void,
    tables: &T,
    bytes: &[u8],
    name: Name,
    form: Form,
    sibling: Option<Name>,
    start: Spot,
    end: Spot,
) -> bool
    requires void { void ≡ void_of name }
    requires held { is_not void ≡ false }
    ensures { result ≡ is_fact (T.reference_of tables.now) name form sibling (bytes_between bytes.now start end) }
{
    !void.asks()
        || is_line_feed(void, bytes, start, end)
        || is_fact(
            tables,
            name,
            form,
            sibling,
            bytes_between(bytes, start, end),
        )
}

/// Whether it is a line ending, and an LF, as most are.
#[inline(always)]
fn is_line_feed(void: Void, bytes: &[u8], start: Spot, end: Spot) -> bool
    ensures { (names : List ℕ → Option (List ℕ)) (name : Name) (form : Form) (sibling : Option Name) → void ≡ void_of name → result ≡ true
        → is_fact names name form sibling (bytes_between bytes.now start end) ≡ true }
{
    match void {
        Void::Ending => is_byte(b'\n', bytes, start, end),
        _ => false,
    }
}

/// Whether one byte is between two places, and is this one.
#[inline(always)]
fn is_byte(byte: u8, bytes: &[u8], start: Spot, end: Spot) -> bool
    ensures { result ≡ true → bytes_between bytes.now start end ≡ byte ∷ [] }
{
    if start.vs != 0 {
        return false;
    }
    if end.vs != 0 {
        return false;
    }
    if start.index >= end.index {
        return false;
    }
    if end.index - start.index != 1 {
        return false;
    }
    if start.index >= bytes.len() {
        return false;
    }
    bytes[start.index] == byte
}

/// Notes the index of an event of this name, if it is marked.
#[inline(always)]
fn note<A: Allocator>(
    marked: &mut Vec<usize, A>,
    name: Name,
    index: usize,
) -> Result<(), AllocError>
    ensures { OnOk result (marked.new.items ≡ marked.old.items ++ mark_of name index) }
{
    if is_marked(name) {
        marked.push(index)?;
    }
    Ok(())
}

/// What is wrong with a list of events of a text, by their names, their order and their places
/// alone: the first fault, if there is one. Appends the indices of events that decide which labels
/// need a definition.
pub fn first_fault<T: Tables, A: Allocator>(
    alloc: A,
    events: &[Event],
    bytes: &[u8],
    tables: &T,
    marked: &mut Vec<usize, A>,
) -> Result<Option<EventFault>, AllocError>
    ensures fault { IfOk result (λ found. found ≡ fault_from (T.reference_of tables.now) bytes.now at_start 0 events.now) }
    ensures marked { IfOk result (λ found. found ≡ None → marked.new.items ≡ marked.old.items ++ marked_from 0 events.now) }
{
    let front = front_of(bytes);
    let mut check = Check::new(alloc);
    let mut left = events;
    while let Some((event, others)) = left.split_first() {
        if let Some((exit, after)) = others.split_first() {
            if check.pass(tables, bytes, front, event, exit) {
                left = after;
                continue;
            }
        }
        let index = events.len() - left.len();
        note(marked, event.name, index)?;
        if let Some(kind) = check.step(tables, bytes, front, event)? {
            return Ok(Some(EventFault { kind, index }));
        }
        left = others;
    }
    Ok(check.fault_at_end(events.len()))
}
