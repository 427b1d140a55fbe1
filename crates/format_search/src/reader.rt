//! How texts are read and compared.
ghost use Rattle.std.specs.Prelude.{◌≡◌, ℕ, List, true, IfOk};

use engine_events::Event;
use format_edits::Window;
use std::alloc::AllocError;

/// A text as it was read.
#[derive(Drop)]
pub struct ReadText {
    /// The events of the text.
    pub events: Vec<Event>,
    /// The parts of the text that no edit may change: in their order, and apart.
    pub closed: Vec<Window>,
}

/// How texts are read and compared.
pub trait Reader {
    /// What holds of a text that was found to be the same document as the one that is edited.
    ghost is_kept: { Self → List ℕ → Type 0 };

    /// A text as it is read, or none if it can't be read.
    fn read(&self, text: &str) -> Result<Option<ReadText>, AllocError>;

    /// Whether a text is the same document as the one that is edited.
    fn is_same(&self, text: &str) -> Result<bool, AllocError>
        ensures { IfOk result (λ same. same ≡ true → is_kept self.now text.now) };

    /// Whether two parts of texts have the same pages.
    fn have_same_pages(&self, one: &str, other: &str) -> Result<bool, AllocError>;
}
