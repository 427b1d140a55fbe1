//! Texts in which some bytes are printed as something else.
ghost use Rattle.std.specs.Prelude.{◌≡◌, ◌++◌, ℕ, List, [], ◌∷◌, ◌<◌, OnOk, OnSome, MatchOption, false, string_bytes};
ghost use Rattle.html_escape.specs.Replaced.{replace_bytes};
ghost use Rattle.text_search.specs.Sets.{holds};

use std::alloc::{AllocError, Allocator};
use text_search::{ByteSet, next_of};

/// How bytes are printed.
pub(crate) trait Replacement {
    // What a byte is printed as, given those after it.
    ghost printed: { Self → ℕ → List ℕ → List ℕ };

    /// A set that has each byte that is replaced.
    fn candidates(&self) -> ByteSet
        ensures { (byte : ℕ) (after : List ℕ) → holds result byte ≡ false → printed self.now byte after ≡ byte ∷ [] };

    /// The text that replaces a byte before others, if it is replaced. Only ASCII bytes are.
    fn replacement(&self, byte: u8, after: &[u8]) -> Option<&'static str>
        ensures printed { MatchOption result (printed self.now byte after.now ≡ byte ∷ []) (λ text. printed self.now byte after.now ≡ text.now) }
        ensures ascii { OnSome result (byte < 128) };
}

/// Appends a text in which the tool replaces bytes.
pub(crate) fn push_replaced<R: Replacement, A: Allocator>(
    tool: &R,
    out: &mut String<A>,
    text: &str,
) -> Result<(), AllocError>
    ensures { OnOk result (string_bytes out.new ≡ string_bytes out.old ++ replace_bytes (R.printed tool.now) text.now) }
{
    let bytes = text.as_bytes();
    let candidates = tool.candidates();
    let mut start = 0;
    let mut at = next_of(bytes, candidates);
    while at < bytes.len() {
        let after = &bytes[at + 1..];
        if let Some(printed) = tool.replacement(bytes[at], after) {
            out.push_str(&text[start..at])?;
            out.push_str(printed)?;
            start = at + 1;
        }
        at += 1 + next_of(after, candidates);
    }
    out.push_str(&text[start..])
}
