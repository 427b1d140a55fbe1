//! Block quotes (CommonMark 5.1).
//!
//!     prefix ::= small_indent '>' column_of_space?
ghost use Rattle.std.specs.Prelude.{◌≡◌};
ghost use Rattle.definition_block.specs.BlockQuote.{quote_prefix as after_quote_prefix};
ghost use Rattle.block_starts.specs.View.{rest_of, line_if};

use crate::container_line::{ContainerLine, kind_before_content};
use crate::cursor::Cursor;
use crate::indent::is_small;
use markdown_options::Constructs;

/// What is left after the prefix of a quote, with which it starts and goes on.
pub(crate) fn quote_prefix<'a>(on: &Constructs, rest: Cursor<'a>) -> Option<ContainerLine<'a>>
    ensures { line_if result ≡ after_quote_prefix on.now (rest_of rest.entry) }
{
    let (columns, bare) = rest.split_bare();
    if !on.block_quote || !is_small(on, columns) {
        return None;
    }
    let Some((byte, after)) = bare.split_first() else {
        return None;
    };
    if byte != b'>' {
        return None;
    }
    Some(ContainerLine {
        rest: after.outdent(1),
        before: kind_before_content(after),
    })
}
