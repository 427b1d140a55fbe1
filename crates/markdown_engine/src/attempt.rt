//! Attempts that wait for how a part of the text is read.
use engine_events::Point;
use engine_states::State;

/// An attempt that waits, with the mark to go back to.
#[derive(Clone, Copy, Debug, PartialEq, Eq)]
pub struct Attempt {
    /// Whether it only looks ahead, and goes back in either case.
    pub check: bool,
    /// The state after it succeeds.
    pub ok: State,
    /// The state after it fails.
    pub nok: State,
    /// How many events there were.
    pub events: usize,
    pub point: Point,
    pub next: Point,
    pub line_start: Point,
    pub previous: Option<u8>,
    pub current: Option<u8>,
}
