//! The pairs so far, and which of them each run is in.
ghost use Rattle.std.specs.Prelude.{◌≡◌, ◌<◌, ◌+◌, [], length, OnOk};
ghost use Rattle.inline_runs.specs.View.{bytes_by};

use crate::pair::Pair;
use std::alloc::{AllocError, Allocator};

/// Which pairs a run is in, after it was read.
#[derive(Clone, Copy)]
pub(crate) struct Ends {
    /// The first pair that it closes.
    pub(crate) first_closed: usize,
    /// The pair after the last that it closes.
    pub(crate) closed_end: usize,
    /// One more than the last pair that it opens; 0 if it opens none.
    pub(crate) last_opened: usize,
}

/// The pairs so far, in the order in which they are found.
#[derive(Drop)]
pub(crate) struct Pairs<A: Allocator> {
    pub(crate) pairs: Vec<Pair, A>,
    /// One for each run that was read.
    pub(crate) ends: Vec<Ends, A>,
    /// The first pair that the run which is being read closes.
    first: usize,
}

impl<A: Allocator> Pairs<A> {
    ghost use Rattle.inline_runs.specs.Threads.{Adds, HasThreads, pair_between};

    pub(crate) fn new(pairs: Vec<Pair, A>, ends: Vec<Ends, A>) -> Pairs<A>
        requires pairs { pairs.items ≡ [] }
        requires ends { ends.items ≡ [] }
        ensures pairs { result.pairs.items ≡ [] }
        ensures ends { result.ends.items ≡ [] }
        ensures threaded { HasThreads result }
    {
        Pairs {
            pairs,
            ends,
            first: 0,
        }
    }

    /// No pairs.
    pub(crate) fn clear(&mut self)
        ensures pairs { self.new.pairs.items ≡ [] }
        ensures ends { self.new.ends.items ≡ [] }
        ensures threaded { HasThreads self.new }
    {
        self.pairs.clear();
        self.ends.clear();
        self.first = 0;
    }

    /// The run that is being read closes a span of this opener.
    pub(crate) fn add_pair(&mut self, opener: usize, double: bool) -> Result<(), AllocError>
        requires threaded { HasThreads self.old }
        requires opener { opener < length self.old.ends.items }
        ensures pairs { OnOk result (Adds self.old self.new (pair_between opener (length self.old.ends.items) (bytes_by double))) }
        ensures ends { OnOk result (length self.new.ends.items ≡ length self.old.ends.items) }
        ensures threaded { OnOk result (HasThreads self.new) }
    {
        self.pairs.push(Pair {
            opener,
            closer: self.ends.len(),
            double,
            earlier: self.ends[opener].last_opened,
        })?;
        self.ends[opener].last_opened = self.pairs.len();
        Ok(())
    }

    /// The run that is being read closes nothing more.
    pub(crate) fn finish(&mut self) -> Result<(), AllocError>
        requires { HasThreads self.old }
        ensures pairs { OnOk result (self.new.pairs.items ≡ self.old.pairs.items) }
        ensures ends { OnOk result (length self.new.ends.items ≡ length self.old.ends.items + 1) }
        ensures threaded { OnOk result (HasThreads self.new) }
    {
        let end = self.pairs.len();
        self.ends.push(Ends {
            first_closed: self.first,
            closed_end: end,
            last_opened: 0,
        })?;
        self.first = end;
        Ok(())
    }
}
