//! Where the links, images and definitions of a text lead.
use crate::decoded::Decoder;
use engine_events::event::{Kind, Name};
use lint_document::document::Step;
use lint_document::{Document, Span};
use percent_encoding::percent_decode;
use std::alloc::{AllocError, Global};

/// Reads the destinations of links, images and definitions.
#[derive(Drop)]
pub(crate) struct Targets {
    decoder: Decoder,
    /// Where the destination starts that is open.
    start: Option<usize>,
    /// The URL of the last destination, with escapes and character references decoded (CommonMark 2.4 and 2.5).
    url: String,
}

impl Targets {
    /// No event was read.
    pub(crate) fn new(alloc: Global) -> Targets {
        Targets {
            decoder: Decoder::default(),
            start: None,
            url: String::new(alloc),
        }
    }

    /// Reads the next event. Returns where the destination is that ends there. Its URL is `url`.
    pub(crate) fn read(
        &mut self,
        document: &Document<'_>,
        step: &Step<'_>,
    ) -> Result<Option<Span>, AllocError> {
        if is_destination(step.name) {
            return Ok(self.read_destination(step));
        }
        if self.start.is_some() {
            self.decoder.read(document, step, &mut self.url)?;
        }
        Ok(None)
    }

    /// Reads the enter or the exit of a destination.
    fn read_destination(&mut self, step: &Step<'_>) -> Option<Span> {
        match step.kind {
            Kind::Enter => {
                self.start = Some(step.index);
                self.url.clear();
                None
            }
            Kind::Exit => {
                let start = self.start.take()?;
                Some(Span {
                    start,
                    end: step.index,
                })
            }
        }
    }

    /// The URL of the last destination.
    pub(crate) fn url(&self) -> &str {
        self.url.as_str()
    }
}

fn is_destination(name: Name) -> bool {
    matches!(
        name,
        Name::ResourceDestinationString | Name::DefinitionDestinationString
    )
}

/// Bytes with `%` and two hexadecimal digits replaced by the byte that they stand for (RFC 3986, 2.1).
pub(crate) fn unescaped(alloc: Global, text: &str) -> Result<Vec<u8>, AllocError> {
    let mut bytes = Vec::new(alloc);
    percent_decode(text.as_bytes()).append_to(&mut bytes)?;
    Ok(bytes)
}
