//! The columns of tabs that places cut (CommonMark 2.2).
ghost use Rattle.std.specs.Prelude.{◌≡◌, ◌<◌, ◌≤◌, ℕ, List};
ghost use Rattle.event_grammar.specs.Phases.{phase_at};
ghost use Rattle.event_meaning.specs.Children.{columns_after};
ghost use Rattle.compile_strings.specs.Columns.{AreCounted};

use event_grammar::Spot;
use event_grammar::phase::phase_after;

/// An index whose column is known. Columns are counted on from it.
#[derive(Clone, Copy)]
pub struct Columns {
    /// How many bytes are before it.
    index: usize,
    /// How many columns are between it and the tab stop before it: 0 to 3.
    phase: u8,
}

impl Columns {
    /// The start of a text.
    pub fn new() -> Columns
        ensures counted { (bytes : List ℕ) → AreCounted bytes result }
        ensures start { result.index ≡ 0 }
    {
        Columns { index: 0, phase: 0 }
    }

    /// How many columns of a tab are after a place that cuts it; none if the place cuts no tab. Time
    /// is linear in the bytes if no place is before an earlier one.
    pub fn after(&mut self, bytes: &[u8], at: Spot) -> u8
        requires { AreCounted bytes.now self.old }
        ensures columns { result ≡ columns_after bytes.now at }
        ensures counted { AreCounted bytes.now self.new }
    {
        if at.vs == 0 {
            return 0;
        }
        let size = 4 - self.reach(bytes, at.index);
        size.saturating_sub(at.vs)
    }

    /// Moves to an index, or to the end if the index is past it, and returns its phase.
    fn reach(&mut self, bytes: &[u8], index: usize) -> u8
        requires { AreCounted bytes.now self.old }
        ensures phase { result ≡ phase_at bytes.now index }
        ensures small { result < 4 }
        ensures counted { AreCounted bytes.now self.new }
    {
        let end = index.min(bytes.len());
        let known = self.up_to(end);
        *self = Columns {
            index: end,
            phase: phase_after(bytes, known.index, known.phase, end),
        };
        self.phase
    }

    /// What is known, or the start of the text if that is after an index.
    fn up_to(self, index: usize) -> Columns
        ensures counted { (bytes : List ℕ) → AreCounted bytes self → AreCounted bytes result }
        ensures order { result.index ≤ index }
    {
        if self.index <= index {
            self
        } else {
            Columns::new()
        }
    }
}
