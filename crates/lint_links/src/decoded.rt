//! What texts and strings say, with escapes and character references decoded.
use engine_events::event::{Kind, Name};
use inline_references::push_decoded;
use lint_document::document::Step;
use lint_document::{Document, Span};
use markdown_tables::Builtin;
use std::alloc::AllocError;
use std::str::from_utf8;

/// Reads the events of a text or a string.
#[derive(Clone, Copy, Default)]
pub(crate) struct Decoder {
    /// Where the character reference starts that is read.
    reference: usize,
}

impl Decoder {
    /// Appends what an event says (CommonMark 2.4 and 2.5).
    pub(crate) fn read(
        &mut self,
        document: &Document<'_>,
        step: &Step<'_>,
        out: &mut String,
    ) -> Result<(), AllocError> {
        match (step.kind, step.name) {
            (Kind::Enter, Name::CharacterReference) => {
                self.reference = step.index;
                Ok(())
            }
            (Kind::Exit, Name::CharacterReference) => {
                let span = Span {
                    start: self.reference,
                    end: step.index,
                };
                push_decoded(out, text_of(document.bytes_of(span)), &Builtin)
            }
            (Kind::Exit, name) if is_said(name) => out.push_str(text_of(step.bytes)),
            _ => Ok(()),
        }
    }
}

/// Bytes as text, or an empty text where they are none.
pub(crate) fn text_of(bytes: &[u8]) -> &str {
    match from_utf8(bytes) {
        Ok(text) => text,
        Err(_) => "",
    }
}

/// Whether the bytes of a void event of this name are said as they are.
fn is_said(name: Name) -> bool {
    matches!(
        name,
        Name::Data
            | Name::CharacterEscapeValue
            | Name::CodeTextData
            | Name::MathTextData
            | Name::AutolinkEmail
            | Name::AutolinkProtocol
            | Name::GfmAutolinkLiteralEmail
            | Name::GfmAutolinkLiteralMailto
            | Name::GfmAutolinkLiteralProtocol
            | Name::GfmAutolinkLiteralWww
            | Name::GfmAutolinkLiteralXmpp
    )
}
