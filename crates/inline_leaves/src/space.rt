//! Spaces and tabs at the front of a content (CommonMark 2.1).
ghost use Rattle.std.specs.Prelude.{◌≡◌};
ghost use Rattle.definition_text.specs.Columns.{indent};
ghost use Rattle.inline_leaves.specs.Leaves.{IsWhite};

/// How many spaces and tabs bytes begin with, which are as many codes.
pub fn white_size(bytes: &[u8]) -> usize
    ensures size { result ≡ indent bytes.now }
    ensures codes { IsWhite bytes.now result }
{
    text_bytes::white_size(bytes)
}
