//! Runs of `*`, `_`, `~` and `=`: which of them go together, and what each becomes.
#![tactic(auto)]

mod gfm_strikethrough;
mod mark;
mod openers;
mod pair;
mod pairing;
mod pairs;
mod run;
mod spans;

pub use pair::{Pair, Span, bytes_by};
pub use pairing::{Pairing, pair_runs};
pub use run::{Run, run_between};
pub use spans::RunSpans;
