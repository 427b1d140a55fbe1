//! Tables that reading a text depends on.
ghost use Rattle.std.specs.Prelude.{◌≡◌, ℕ, ◌<◌, List, Option, Some, length, Bool, true, false, IsTrue, IsUtf8};
ghost use Rattle.std.specs.Option.{option_copied};
ghost use Rattle.std.specs.Char.{is_ascii_alphanumeric, is_ascii_punctuation};
ghost use Rattle.markdown_options.specs.References.{IsReferenceName};

/// The names of character references, and which characters are punctuation.
pub trait Tables {
    // The text of a name, if it has one.
    ghost reference_of: { Self → List ℕ → Option (List ℕ) };

    // Whether a code is punctuation.
    ghost punctuation_of: { Self → ℕ → Bool };

    /// Returns the text of a name, if the tables have it (CommonMark 2.5).
    ///
    /// The name is without `&` and `;`, such as `amp` for `&amp;`.
    fn reference(&self, name: &str) -> Option<&str>
        ensures { option_copied result ≡ reference_of self.now name.now };

    /// Returns whether a character is Unicode punctuation (CommonMark 2.1).
    fn is_punctuation(&self, character: char) -> bool
        ensures { result ≡ punctuation_of self.now character };

    // A name with a text is 1 to 31 ASCII letters or digits.
    ghost reference_named: { (tables : Self) (name text : List ℕ)
        → reference_of tables name ≡ Some text → IsReferenceName name };

    // The text of a name is not empty.
    ghost reference_nonempty: { (tables : Self) (name text : List ℕ)
        → reference_of tables name ≡ Some text → 0 < length text };

    // The text of a name is UTF-8.
    ghost reference_utf8: { (tables : Self) (name text : List ℕ)
        → reference_of tables name ≡ Some text → IsUtf8 text };

    // The 32 bytes 21-2F, 3A-40, 5B-60 and 7B-7E are punctuation.
    ghost punctuation_ascii: { (tables : Self) (code : ℕ)
        → IsTrue (is_ascii_punctuation code) → punctuation_of tables code ≡ true };

    // ASCII letters and digits are no punctuation.
    ghost alphanumeric_ascii: { (tables : Self) (code : ℕ)
        → IsTrue (is_ascii_alphanumeric code) → punctuation_of tables code ≡ false };
}
