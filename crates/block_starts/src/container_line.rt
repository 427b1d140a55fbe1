//! What a container leaves of a line (CommonMark 5).
ghost use Rattle.std.specs.Prelude.{◌≡◌};
ghost use Rattle.definition_block.specs.ContainerLine.{kind_before_content as kind_before};
ghost use Rattle.block_starts.specs.View.{rest_of};

use crate::cursor::Cursor;
use markdown_options::Kind;

/// The rest of a line after what a container has on it, and the kind of the character before that
/// rest.
#[derive(Clone, Copy)]
pub struct ContainerLine<'a> {
    pub rest: Cursor<'a>,
    pub before: Kind,
}

/// The kind of the character before the content after a `>` or a `:`: that of white space that
/// belongs to the mark, or of the mark.
pub(crate) fn kind_before_content(rest: Cursor<'_>) -> Kind
    ensures { result ≡ kind_before (rest_of rest.entry) }
{
    if rest.indent() > 0 {
        Kind::Whitespace
    } else {
        Kind::Punctuation
    }
}
