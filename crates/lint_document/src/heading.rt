//! The headings of a text (CommonMark 4.2 and 4.3).
use crate::document::Step;
use crate::span::Span;
use engine_events::event::{Kind, Name};

/// A heading.
#[derive(Clone, Copy)]
pub struct Heading {
    /// Where it is, without its indent.
    pub span: Span,
    /// The line that it starts on, from 1.
    pub line: usize,
    /// Its rank, 1 to 6, or 0 while that isn't read.
    pub rank: usize,
    /// Its text, if there is any.
    pub text: Option<HeadingText>,
}

/// The text of a heading.
#[derive(Clone, Copy)]
pub struct HeadingText {
    /// Where it is.
    pub span: Span,
    /// The number of events before it.
    pub number: usize,
}

/// Reads the events of a text, and finds its headings.
#[derive(Clone, Copy, Default)]
pub struct Headings {
    /// The heading that is open.
    open: Option<Heading>,
}

impl Headings {
    /// Reads an event, before which there are so many. Returns the heading that ends there.
    pub fn read(&mut self, step: &Step<'_>, number: usize) -> Option<Heading> {
        if is_heading(step.name) {
            return self.read_heading(step);
        }
        if let Some(heading) = &mut self.open {
            heading.read(step, number);
        }
        None
    }

    /// Reads the enter or the exit of a heading.
    fn read_heading(&mut self, step: &Step<'_>) -> Option<Heading> {
        match step.kind {
            Kind::Enter => {
                self.open = Some(Heading::starting(step));
                None
            }
            Kind::Exit => {
                let mut heading = self.open.take()?;
                heading.span.end = step.index;
                Some(heading)
            }
        }
    }
}

impl Heading {
    /// A heading that starts where this event is.
    fn starting(step: &Step<'_>) -> Heading {
        Heading {
            span: Span {
                start: step.index,
                end: step.index,
            },
            line: step.line,
            rank: 0,
            text: None,
        }
    }

    /// Reads an event in the heading.
    fn read(&mut self, step: &Step<'_>, number: usize) {
        match step.kind {
            Kind::Enter if is_heading_text(step.name) => self.text = Some(HeadingText::starting(
                step.index, number,
            )),
            Kind::Enter => {}
            Kind::Exit => self.read_exit(step),
        }
    }

    fn read_exit(&mut self, step: &Step<'_>) {
        if is_heading_text(step.name) {
            if let Some(text) = &mut self.text {
                text.span.end = step.index;
            }
        } else if self.rank == 0 {
            // A closing sequence of an ATX heading is no rank.
            self.rank = rank_at(step);
        }
    }
}

impl HeadingText {
    fn starting(start: usize, number: usize) -> HeadingText {
        HeadingText {
            span: Span { start, end: start },
            number,
        }
    }
}

fn is_heading(name: Name) -> bool {
    matches!(name, Name::HeadingAtx | Name::HeadingSetext)
}

fn is_heading_text(name: Name) -> bool {
    matches!(name, Name::HeadingAtxText | Name::HeadingSetextText)
}

/// The rank that a sequence gives a heading, if a sequence ends here, and otherwise 0.
fn rank_at(step: &Step<'_>) -> usize {
    match step.name {
        Name::HeadingAtxSequence => step.bytes.len(),
        Name::HeadingSetextUnderlineSequence if step.bytes.starts_with(b"=") => 1,
        Name::HeadingSetextUnderlineSequence => 2,
        _ => 0,
    }
}
