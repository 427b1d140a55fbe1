//! Small indents (CommonMark 4.4).
ghost use Rattle.std.specs.Prelude.{◌≡◌, ◌||◌, leb, not};

use markdown_options::Constructs;
use markdown_options::constants::CODE_INDENT;

/// Whether so many columns are a small indent: at most 3, or any number where no code is read by
/// its indent.
pub fn is_small(on: &Constructs, columns: usize) -> bool
    ensures { result ≡ (leb columns 3 || not on.now.code_indented) }
{
    columns < CODE_INDENT || !on.code_indented
}
