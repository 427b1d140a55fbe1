//! The fragments of a text: those of its headings, and those that tags of raw HTML give.
use crate::decoded::{Decoder, text_of};
use crate::html_id::id_at;
use engine_events::event::{Kind, Name};
use lint_document::document::{Depth, Step};
use lint_document::heading::HeadingText;
use lint_document::{Document, Heading, Headings};
use std::alloc::{AllocError, Global};
use std::collections::BTreeSet;
use text_slugs::Slugs;

/// The fragments of a text.
#[derive(Drop)]
pub struct Fragments {
    headings: Slugs<Global>,
    tags: BTreeSet<String>,
    alloc: Global,
}

impl Fragments {
    /// The fragments of a text. Fails if memory runs out.
    pub fn of(alloc: Global, document: &Document<'_>) -> Result<Fragments, AllocError> {
        let mut fragments = Fragments {
            headings: Slugs::new(alloc)?,
            tags: BTreeSet::new(alloc),
            alloc,
        };
        fragments.read(document)?;
        Ok(fragments)
    }

    /// Whether a link to this fragment leads somewhere.
    pub fn has(&self, fragment: &str) -> bool {
        fragment == "top" || self.headings.has(fragment) || self.tags.contains(fragment)
    }

    fn read(&mut self, document: &Document<'_>) -> Result<(), AllocError> {
        let mut headings = Headings::default();
        for (number, step) in document.steps().enumerate() {
            if let Some(heading) = headings.read(&step, number) {
                self.add_heading(document, &heading)?;
            }
            if is_html(&step) {
                self.add_ids(step.bytes)?;
            }
        }
        Ok(())
    }

    fn add_heading(
        &mut self,
        document: &Document<'_>,
        heading: &Heading,
    ) -> Result<(), AllocError> {
        let mut said = String::new(self.alloc);
        if let Some(text) = heading.text {
            push_said(document, text, &mut said)?;
        }
        let mut slug = String::new(self.alloc);
        self.headings.add(&mut slug, said.as_str())
    }

    /// Adds the values of the attributes `id` and `name` in a line of raw HTML.
    fn add_ids(&mut self, html: &[u8]) -> Result<(), AllocError> {
        let mut end = 0;
        for index in 0..html.len() {
            if index < end {
                continue;
            }
            if let Some(value) = id_at(html, index) {
                end = value.end;
                self.add_tag(html.get(value.start..value.end))?;
            }
        }
        Ok(())
    }

    fn add_tag(&mut self, id: Option<&[u8]>) -> Result<(), AllocError> {
        if let Some(id) = id {
            let id = String::from_str(self.alloc, text_of(id))?;
            self.tags.insert(id)?;
        }
        Ok(())
    }
}

/// Whether a line of raw HTML ends here.
fn is_html(step: &Step<'_>) -> bool {
    step.kind == Kind::Exit && matches!(step.name, Name::HtmlFlowData | Name::HtmlTextData)
}

/// Appends what the text of a heading says: its letters, without tags, destinations and images.
fn push_said(
    document: &Document<'_>,
    text: HeadingText,
    said: &mut String,
) -> Result<(), AllocError> {
    let mut decoder = Decoder::default();
    let mut silent = Depth::default();
    for step in document.steps_from(text.number) {
        if step.index > text.span.end {
            break;
        }
        if is_silent(step.name) {
            silent.count(step.kind);
        } else if !silent.is_inside() {
            decoder.read(document, &step, said)?;
        }
    }
    Ok(())
}

/// Whether nothing in an event of this name is text of a heading.
fn is_silent(name: Name) -> bool {
    matches!(
        name,
        Name::Resource | Name::Reference | Name::Image | Name::GfmFootnoteCall
    )
}
