//! Runs of tildes, which may form strikethrough (GFM 6.5).
//!
//!     strikethrough ::= '~~' text '~~' | '~' text '~'
ghost use Rattle.std.specs.Prelude.{◌≡◌};
ghost use Rattle.definition_inline.specs.GfmStrikethrough.{is_strikethrough_size, is_tilde};

use markdown_options::ParseOptions;

pub(crate) fn is_tilde(marker: u8) -> bool
    ensures { result ≡ is_tilde marker }
{
    marker == b'~'
}

/// Whether a run of so many tildes may form a span: of two, or of one where that is asked for.
pub(crate) fn is_strikethrough_size(options: &ParseOptions, size: usize) -> bool
    ensures { result ≡ is_strikethrough_size options.now size }
{
    size == 2 || (options.gfm_strikethrough_single_tilde && size == 1)
}
