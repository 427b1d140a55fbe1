//! Classes of bytes, and how far they reach.
ghost use Rattle.std.specs.Prelude.{◌≡◌};
ghost use Rattle.std.specs.List.{prefix_len};
ghost use Rattle.inline_constructs.specs.Leaves.{is_of};
ghost use Rattle.inline_leaves.specs.Leaves.{IsPlain};

/// A class of bytes.
#[derive(Clone, Copy)]
pub(crate) enum ByteClass {
    /// Of a URI's scheme: a letter, a digit, `+`, `.` or `-` (CommonMark 6.5).
    Scheme,
    /// Of a URI after its scheme: no control character, space, `<` or `>` (CommonMark 6.5).
    Uri,
    /// Of an email address before its `@` (CommonMark 6.5).
    Email,
    /// Of a domain: a letter, a digit, `-`, or `.` between its labels (CommonMark 6.5).
    Domain,
}

/// Whether a byte is of a class.
pub(crate) fn is_of(class: ByteClass, byte: u8) -> bool
    ensures { result ≡ is_of class byte }
{
    match class {
        ByteClass::Scheme => {
            byte.is_ascii_alphanumeric() || byte == b'+' || byte == b'.' || byte == b'-'
        }
        ByteClass::Uri => byte > b' ' && byte != b'<' && byte != b'>' && byte != 127,
        ByteClass::Email => {
            byte.is_ascii_alphanumeric() || b".!#$%&'*+/=?^_`{|}~-".contains(&byte)
        }
        ByteClass::Domain => byte.is_ascii_alphanumeric() || byte == b'-' || byte == b'.',
    }
}

/// How many bytes of a class come first.
pub(crate) fn prefix_size(class: ByteClass, bytes: &[u8]) -> usize
    ensures size { result ≡ prefix_len (is_of class) bytes.now }
    ensures plain { IsPlain bytes.now result }
{
    for (i, b) in bytes.iter().enumerate() {
        if !is_of(class, *b) {
            return i;
        }
    }
    bytes.len()
}
