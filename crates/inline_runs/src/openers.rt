//! The runs that may open spans and that no pair crosses, and how the nearest one is found.
//!
//! A search goes from the nearest opener back. Where one finds nothing, a floor is kept: no opener
//! that stood before it fits such a closer. So each opener is passed over only a few times.
ghost use Rattle.std.specs.Prelude.{◌≡◌, ◌++◌, ◌-◌, ◌<◌, ◌≤◌, ℕ, true, false, length, take, slice_index_or, OnOk, IfOk, []};
ghost use Rattle.definition_inline.specs.Pairing.{OpenRun as PlacedOf, openers_of, without};
ghost use Rattle.inline_runs.specs.FoundPairs.{up_to_nearest};
ghost use Rattle.inline_runs.specs.View.{run_view, bytes_by};
ghost use Rattle.inline_runs.specs.Floors.{placed_view, whole_size, want_of, can_close, fits, FitsAt, IsFloor};

use crate::pair::bytes_by;
use crate::run::{Run, are_fitting, is_whole};
use std::alloc::{AllocError, Allocator};

/// A run with its place among the runs of its container.
#[derive(Clone, Copy)]
pub(crate) struct PlacedRun {
    pub(crate) run: Run,
    pub(crate) place: usize,
}

impl PlacedRun {
    /// What is left of it when it opens or closes a span.
    pub(crate) fn without(self, double: bool) -> PlacedRun
        requires { bytes_by double ≤ self.run.size }
        ensures { placed_view result ≡ without (bytes_by double) (placed_view self) }
    {
        PlacedRun {
            run: Run {
                size: self.run.size - bytes_by(double),
                ..self.run
            },
            ..self
        }
    }
}

/// A run that may open spans, as it is since a run was read.
#[derive(Clone, Copy)]
pub(crate) struct Opener {
    pub(crate) placed: PlacedRun,
    /// The place of the run since which so many of its bytes are left.
    pub(crate) since: usize,
}

/// What an opener has to know of a closer.
#[derive(Clone, Copy)]
pub(crate) struct Want {
    marker: u8,
    may_open: bool,
    /// What is left of the size where it is divided by three.
    rest: usize,
    /// The size of a run that goes with as many alone, and otherwise 0.
    whole: usize,
}

/// The place of a run: no opener that is as it is since an earlier run fits.
#[derive(Clone, Copy)]
pub(crate) struct Floor {
    want: Want,
    place: usize,
}

/// What an opener has to know of this closer.
fn want_of(closer: &Run) -> Want
    ensures { result ≡ want_of (run_view closer.now) }
{
    Want {
        marker: closer.marker,
        may_open: closer.may_open,
        rest: closer.size % 3,
        whole: whole_size(closer),
    }
}

/// The size of a run that goes with as many alone (GFM 6.5), and otherwise 0.
fn whole_size(closer: &Run) -> usize
    ensures { result ≡ whole_size (run_view closer.now) }
{
    if is_whole(closer.marker) {
        closer.size
    } else {
        0
    }
}

/// Whether a run may close a span, and has a byte left.
fn can_close(closer: &Run) -> bool
    ensures { result ≡ can_close (run_view closer.now) }
{
    closer.may_close && closer.size >= 1
}

fn is_same(want: &Want, other: &Want) -> bool
    ensures { result ≡ true → want.now ≡ other.now }
{
    want.marker == other.marker
        && want.may_open == other.may_open
        && want.rest == other.rest
        && want.whole == other.whole
}

/// Whether an opener may pair with such a closer (CommonMark 6.2): of one byte, something left of it,
/// and where one of the two may both open and close, what is left of them makes a multiple of three
/// together only if it does so of each alone. Of some bytes both have one size.
fn fits(opener: &Run, want: &Want) -> bool
    ensures { result ≡ fits (run_view opener.now) want.now }
{
    if opener.marker != want.marker || !opener.may_open || opener.size == 0 {
        return false;
    }
    if !are_fitting(opener.marker, opener.size, want.whole) {
        return false;
    }
    let both = opener.may_close || want.may_open;
    !(both && want.rest != 0 && (opener.size % 3 + want.rest % 3) % 3 == 0)
}

/// How many openers stand up to the nearest that fits. None does up to one that is older than the
/// floor.
fn up_to_nearest(openers: &[Opener], floor: usize, want: &Want) -> usize
    requires { IsFloor openers.now want.now floor }
    ensures within { result ≤ length openers.now }
    ensures none { (k : ℕ) → result ≤ k → k < length openers.now → FitsAt openers.now k want.now false }
    ensures fits { 0 < result → FitsAt openers.now (result - 1) want.now true }
{
    let mut count = openers.len();
    while count > 0 {
        let opener = openers[count - 1];
        if opener.since < floor {
            return 0;
        }
        if fits(&opener.placed.run, want) {
            return count;
        }
        count -= 1;
    }
    0
}

/// The runs that may open spans and that no pair crosses, the nearest last.
#[derive(Drop)]
pub(crate) struct Openers<A: Allocator> {
    openers: Vec<Opener, A>,
    floors: Vec<Floor, A>,
}

impl<A: Allocator> Openers<A> {
    ghost use Rattle.std.specs.Prelude.{◌≤◌, ◌<◌};
    ghost use Rattle.inline_runs.specs.Floors.{AreOpenersAt, openers_view};

    pub(crate) fn new(openers: Vec<Opener, A>, floors: Vec<Floor, A>) -> Openers<A>
        ensures { result.openers ≡ openers }
    {
        Openers { openers, floors }
    }

    /// No runs.
    pub(crate) fn clear(&mut self)
        ensures none { openers_view self.new ≡ [] }
        ensures known { AreOpenersAt self.new 0 }
    {
        self.openers.clear();
        self.floors.clear();
    }

    /// A run that has something left and may open is an opener from now on.
    pub(crate) fn open(&mut self, placed: PlacedRun, now: usize) -> Result<(), AllocError>
        requires { AreOpenersAt self.old now }
        ensures openers { OnOk result (openers_view self.new ≡ openers_view self.old ++ openers_of (placed_view placed)) }
        ensures known { (n : ℕ) → now ≤ n → placed.place < n → OnOk result (AreOpenersAt self.new n) }
    {
        if placed.run.may_open && placed.run.size != 0 {
            self.openers.push(Opener { placed, since: now })?;
        }
        Ok(())
    }

    /// The nearest opener, which is the last of so many, goes, and all those after it.
    pub(crate) fn take(&mut self, count: usize) -> PlacedRun
        requires some { 0 < count }
        requires within { count ≤ length (openers_view self.old) }
        ensures opener { (d : PlacedOf) → placed_view result ≡ slice_index_or (openers_view self.old) (count - 1) d }
        ensures openers { openers_view self.new ≡ take (count - 1) (openers_view self.old) }
        ensures place { (n : ℕ) → AreOpenersAt self.old n → result.place < n }
        ensures known { (n : ℕ) → AreOpenersAt self.old n → AreOpenersAt self.new n }
    {
        let opener = self.openers[count - 1].placed;
        self.openers.truncate(count - 1);
        opener
    }

    /// How many openers stand up to the nearest that may pair with a run; 0 if none may.
    pub(crate) fn up_to_nearest(&mut self, closer: &PlacedRun) -> Result<usize, AllocError>
        requires { AreOpenersAt self.old closer.now.place }
        ensures nearest { IfOk result (λ count. count ≡ up_to_nearest (openers_view self.old) (placed_view closer.now)) }
        ensures openers { OnOk result (openers_view self.new ≡ openers_view self.old) }
        ensures known { OnOk result (AreOpenersAt self.new closer.now.place) }
    {
        if !can_close(&closer.run) {
            return Ok(0);
        }
        let want = want_of(&closer.run);
        let count = up_to_nearest(&self.openers, self.floor_of(&want), &want);
        if count == 0 {
            self.raise(want, closer.place)?;
        }
        Ok(count)
    }

    /// Up to an opener that is older than this none fits.
    fn floor_of(&self, want: &Want) -> usize
        requires { (n : ℕ) × AreOpenersAt self.now n }
        ensures { IsFloor self.now.openers.items want.now result }
    {
        for floor in &self.floors {
            if is_same(&floor.want, want) {
                return floor.place;
            }
        }
        0
    }

    /// No opener fits.
    fn raise(&mut self, want: Want, now: usize) -> Result<(), AllocError>
        requires known { AreOpenersAt self.old now }
        requires none { (k : ℕ) → k < length self.old.openers.items → FitsAt self.old.openers.items k want false }
        ensures openers { OnOk result (self.new.openers ≡ self.old.openers) }
        ensures known { OnOk result (AreOpenersAt self.new now) }
    {
        let floor = Floor { want, place: now };
        for i in 0..self.floors.len() {
            if is_same(&self.floors[i].want, &want) {
                self.floors[i] = floor;
                return Ok(());
            }
        }
        self.floors.push(floor)?;
        Ok(())
    }
}
