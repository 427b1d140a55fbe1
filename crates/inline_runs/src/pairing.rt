//! The pairs of the runs of one container (CommonMark 6.2).
//!
//! The runs are read from left to right. Each closes what it can with the nearest opener that may
//! pair with it, which takes the openers between away; what is left of it may open. The time is
//! linear in the number of runs and their bytes.
ghost use Rattle.std.specs.Prelude.{◌≡◌, ◌<◌, ◌+◌, List, [], length, reverse, OnOk, IfOk};
ghost use Rattle.definition_inline.specs.Attention.{Run as RunOf};
ghost use Rattle.inline_runs.specs.FoundPairs.{next_run, up_to_nearest, with_pair};
ghost use Rattle.inline_runs.specs.View.{runs_view, pairs_view};
ghost use Rattle.inline_runs.specs.Floors.{placed_view, openers_view};
ghost use Rattle.inline_runs.specs.Paired.{IsPaired, BecomesRows, closed_at, opened_at};

use crate::openers::{Openers, PlacedRun};
use crate::pair::is_double;
use crate::pairs::Pairs;
use crate::run::Run;
use crate::spans::{OpenedPairs, RunSpans};
use std::alloc::{AllocError, Allocator};

/// The pairs of the runs of one container. Its memory is used again for the next container.
#[derive(Drop)]
pub struct Pairing<A: Allocator> {
    openers: Openers<A>,
    pairs: Pairs<A>,
    opened: OpenedPairs<A>,
}

impl<A: Allocator + Clone> Pairing<A> {
    /// The pairs of no runs.
    pub fn new(alloc: A) -> Result<Pairing<A>, AllocError>
        ensures { IfOk result (λ pairing. IsPaired pairing []) }
    {
        Ok(Pairing {
            openers: Openers::new(Vec::new(alloc.clone()?), Vec::new(alloc.clone()?)),
            pairs: Pairs::new(Vec::new(alloc.clone()?), Vec::new(alloc.clone()?)),
            opened: OpenedPairs::new(Vec::new(alloc.clone()?), Vec::new(alloc)),
        })
    }
}

impl<A: Allocator> Pairing<A> {
    ghost use Rattle.inline_runs.specs.Paired.{nearest_opener, rest_of_closer, state, IsSound, IsComplete, run_count, run_sizes};
    ghost use Rattle.inline_runs.specs.Threads.{HasThreads};
    ghost use Rattle.inline_runs.specs.Laid.{AreTexts};

    /// What the run at a place becomes (CommonMark 6.2).
    pub fn spans(&self, place: usize) -> RunSpans<'_>
        requires complete { IsComplete self.now }
        requires place { place < run_count self.now }
        ensures closed { (runs : List RunOf) → IsPaired self.now runs → pairs_view result.closed.now ≡ closed_at place runs }
        ensures opened { (runs : List RunOf) → IsPaired self.now runs → pairs_view result.opened.now ≡ reverse (opened_at place runs) }
        ensures rows { (runs : List RunOf) → IsPaired self.now runs → BecomesRows runs place result }
    {
        let ends = self.pairs.ends[place];
        let laid = self.opened.laid[place];
        RunSpans {
            closed: &self.pairs.pairs[ends.first_closed..ends.closed_end],
            text: laid.text,
            opened: &self.opened.opened[laid.start..laid.end],
        }
    }

    /// What each run becomes, now that all pairs are known.
    fn lay_out(&mut self, runs: &[Run]) -> Result<(), AllocError>
        requires threads { HasThreads self.old.pairs }
        requires count { length self.old.pairs.ends.items ≡ length runs.now }
        ensures pairs { OnOk result (self.new.pairs ≡ self.old.pairs) }
        ensures complete { OnOk result (IsComplete self.new) }
        ensures count { OnOk result (run_count self.new ≡ length runs.now) }
        ensures texts { OnOk result (AreTexts self.new.pairs.pairs.items (run_sizes (runs_view runs.now)) self.new.opened.laid.items) }
    {
        self.opened.clear();
        for run in runs {
            self.opened.add(&self.pairs, run.size)?;
        }
        Ok(())
    }

    /// One more run: it closes what it can, and what is left of it may open.
    fn next_run(&mut self, run: PlacedRun) -> Result<(), AllocError>
        requires { IsSound self.old run.place }
        ensures state { OnOk result (state self.new ≡ next_run (state self.old) (placed_view run)) }
        ensures sound { OnOk result (IsSound self.new (run.place + 1)) }
    {
        let now = run.place;
        let mut closer = run;
        loop {
            let count = self.openers.up_to_nearest(&closer)?;
            if count == 0 {
                self.pairs.finish()?;
                return self.openers.open(closer, now);
            }
            closer = self.close(count, closer)?;
        }
    }

    /// A run closes a span of the nearest opener, which is the last of so many, and is answered
    /// as it is then.
    fn close(&mut self, count: usize, closer: PlacedRun) -> Result<PlacedRun, AllocError>
        requires sound { IsSound self.old closer.place }
        requires nearest { count ≡ up_to_nearest (openers_view self.old.openers) (placed_view closer) }
        requires some { 0 < count }
        ensures state { OnOk result (state self.new ≡ with_pair (state self.old) (nearest_opener self.old closer) (placed_view closer)) }
        ensures sound { OnOk result (IsSound self.new closer.place) }
        ensures closer { IfOk result (λ rest. placed_view rest ≡ rest_of_closer self.old closer) }
        ensures less { IfOk result (λ rest. rest.run.size < closer.run.size) }
    {
        let opener = self.openers.take(count);
        let double = is_double(&opener.run, &closer.run);
        self.pairs.add_pair(opener.place, double)?;
        self.openers.open(opener.without(double), closer.place)?;
        Ok(closer.without(double))
    }
}

/// Finds the pairs of the runs of one container (CommonMark 6.2). Without memory it holds nothing
/// that is of use.
pub fn pair_runs<A: Allocator>(runs: &[Run], pairing: &mut Pairing<A>) -> Result<(), AllocError>
    ensures { OnOk result (IsPaired pairing.new (runs_view runs.now)) }
{
    pairing.openers.clear();
    pairing.pairs.clear();
    for (place, run) in runs.iter().enumerate() {
        pairing.next_run(PlacedRun { run: *run, place })?;
    }
    pairing.lay_out(runs)
}
