//! Names that begin in vain, since `_` stands in their domains (GFM 6.9): a domain ends at one place
//! wherever in it a name begins, so that what is known of a name is known of those that begin later
//! in its domain, up to that `_`.
ghost use Rattle.std.specs.Prelude.{◌≡◌, ◌≤◌, ℕ, Bool, List, None, true, length};
ghost use Rattle.inline_links.specs.Codes.{IsRest};
ghost use Rattle.inline_literals.specs.Literals.{size_after, AreInVain, KnowsNames};

/// Places of a content at which no name of a literal begins, by how many bytes are left there.
#[derive(Clone, Copy, Debug)]
pub struct NamesInVain {
    /// The most bytes that are left at such a place.
    most: usize,
    /// The fewest; no place is known where these are more.
    fewest: usize,
}

impl NamesInVain {
    /// Before any is known.
    pub fn new() -> NamesInVain
        ensures { (p : ℕ → Bool) (content : List ℕ) → KnowsNames p content result }
    {
        NamesInVain { most: 0, fewest: 1 }
    }

    /// The places from a rest of a content on, so many after it.
    pub(crate) fn from_rest(after: &str, more: usize) -> NamesInVain
        requires { more ≤ length after.now }
        ensures { (p : ℕ → Bool) (content : List ℕ) → IsRest content after.now → AreInVain p after.now more → KnowsNames p content result }
    {
        NamesInVain {
            most: after.len(),
            fewest: after.len() - more,
        }
    }

    /// Whether no name is known to begin at a rest of a content.
    pub(crate) fn has(self, after: &str) -> bool
        ensures { result ≡ true → (p : ℕ → Bool) (content : List ℕ) → IsRest content after.now → KnowsNames p content self → size_after p after.now ≡ None }
    {
        self.fewest <= after.len() && after.len() <= self.most
    }
}
