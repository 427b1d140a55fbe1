//! Which runs form pairs, and what the spans of a container depend on.
ghost use Rattle.laws_inline.specs.Emphasis.{RunOfItsNeighbours, RunsOfTheContent, SpansOfRuns};
ghost use Rattle.laws_inline.specs.Pairs.{RunsPair, EachPairIsNext};

/// The runs of a container from left to right form pairs with the nearest openers that may pair with them, and no pair crosses another.
#[tactic(auto, using(crate::proofs::Pairs::runs_pair))]
pub fn pairs_law()
    ensures { RunsPair }
{}

/// From the pairs before it, each pair is the eligible one with the leftmost closer and then the nearest opener, and after the last none is eligible.
#[tactic(auto, using(crate::proofs::Pairs::each_pair_is_next))]
pub fn next_pair_law()
    ensures { EachPairIsNext }
{}

/// A run, and whether it may open and close, is told by its byte, its size and the characters beside it alone.
#[tactic(auto, using(crate::proofs::Emphasis::run_of_its_neighbours))]
pub fn run_law()
    ensures { RunOfItsNeighbours }
{}

/// Each run of the outermost container of a content stands in the content.
#[tactic(auto, using(crate::proofs::Emphasis::runs_of_the_content))]
pub fn content_runs_law()
    ensures { RunsOfTheContent }
{}

/// The spans of a container are those that its runs form, whatever stands between them.
#[tactic(auto, using(crate::proofs::Emphasis::spans_of_runs))]
pub fn spans_law()
    ensures { SpansOfRuns }
{}
