//! How a run ends.

/// How a run ends.
#[derive(Clone, Copy)]
pub(crate) enum Outcome {
    /// All files are formatted.
    Clean,
    /// Files would change, and were only to be checked.
    Changes,
    /// A file can't be read or written, or the run can't go on.
    Fault,
}

impl Outcome {
    /// The exit status.
    pub(crate) fn status(self) -> u8 {
        match self {
            Outcome::Clean => 0,
            Outcome::Changes => 1,
            Outcome::Fault => 2,
        }
    }

    /// The outcome of two files: the one with the higher status.
    pub(crate) fn and(self, other: Outcome) -> Outcome {
        if self.status() < other.status() {
            other
        } else {
            self
        }
    }
}
