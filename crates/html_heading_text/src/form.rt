//! How a text is printed.
ghost use Rattle.html_heading_text.specs.Forms.{form_bytes};
ghost use Rattle.html_escape.specs.Prints.{Prints};

use html_escape::{push_encoded, push_raw};
use std::alloc::{AllocError, Allocator};

/// How a text is printed.
#[derive(Clone, Copy)]
pub enum Form {
    /// The text as it is.
    Bytes,
    /// The text with U+FFFD for NUL.
    Plain,
    /// The text with U+FFFD for NUL, and with references for `"`, `&`, `<` and `>`.
    Encoded,
}

/// Prints a text.
pub fn push_formed<A: Allocator>(
    out: &mut String<A>,
    form: Form,
    text: &str,
) -> Result<(), AllocError>
    ensures { Prints result out.old out.new (form_bytes form text.now) }
{
    match form {
        Form::Bytes => out.push_str(text),
        Form::Plain => push_raw(out, text, false),
        Form::Encoded => push_encoded(out, text),
    }
}
