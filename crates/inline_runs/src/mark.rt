//! Runs of equals signs, which may form marked text.
//!
//!     mark ::= '==' text '=='
ghost use Rattle.std.specs.Prelude.{◌≡◌};
ghost use Rattle.definition_inline.specs.Mark.{is_equals, is_mark_size};

pub(crate) fn is_equals(marker: u8) -> bool
    ensures { result ≡ is_equals marker }
{
    marker == b'='
}

/// Whether a run of so many equals signs may form a span.
pub(crate) fn is_mark_size(size: usize) -> bool
    ensures { result ≡ is_mark_size size }
{
    size == 2
}
