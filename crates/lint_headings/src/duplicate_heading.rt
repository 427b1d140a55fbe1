//! duplicate-heading (MD024): a heading with the same text as an earlier one.
//!
//! Links go to a heading by its text, and a table of contents lists two entries that look alike. Texts are
//! compared as labels are: in source form, with case folded and white space joined. In a change log each
//! version has a heading such as `Fixed`: there only headings of one section should be compared.
//!
//! Example: `## Usage` twice.
use event_references::label::push_text_at;
use inline_labels::LabelTable;
use lint_document::heading::{Heading, HeadingText};
use lint_document::{Document, Report, Rule};
use std::alloc::{AllocError, Global};

/// Reads the texts of headings.
#[derive(Drop)]
pub(crate) struct DuplicateHeading {
    /// Whether only headings of one section are compared.
    siblings: bool,
    sections: Sections,
    earlier: Earlier,
}

impl DuplicateHeading {
    /// No heading was read. If `siblings`, headings of different sections aren't compared.
    pub(crate) fn new(alloc: Global, siblings: bool) -> Result<DuplicateHeading, AllocError> {
        Ok(DuplicateHeading {
            siblings,
            sections: Sections::new(alloc),
            earlier: Earlier::new(alloc)?,
        })
    }

    /// Reports the next heading if it has the text of an earlier one.
    pub(crate) fn check(
        &mut self,
        document: &Document<'_>,
        heading: &Heading,
        report: &mut Report,
    ) -> Result<(), AllocError> {
        if !report.has(Rule::DuplicateHeading) {
            return Ok(());
        }
        if self.siblings {
            self.sections.enter(heading)?;
        }
        let section = self.sections.section();
        match self.earlier.add(document, section, heading)? {
            Some(line) => {
                let what = format!(in report.alloc(); "same heading as on line {line}")?;
                report.add_made(Rule::DuplicateHeading, heading.span, what)
            }
            None => Ok(()),
        }
    }
}

/// A section: what is below a heading.
#[derive(Clone, Copy)]
struct Section {
    rank: usize,
    /// The line of its heading.
    line: usize,
}

/// The sections that are open.
#[derive(Drop)]
struct Sections {
    /// The innermost is last.
    open: Vec<Section>,
    /// The line of the heading of the section around the last heading, or 0.
    around: usize,
}

impl Sections {
    fn new(alloc: Global) -> Sections {
        Sections {
            open: Vec::new(alloc),
            around: 0,
        }
    }

    /// Begins the section of a heading.
    fn enter(&mut self, heading: &Heading) -> Result<(), AllocError> {
        let rank = heading.rank;
        self.open.retain(|section| section.rank < rank);
        self.around = match self.open.last() {
            Some(section) => section.line,
            None => 0,
        };
        self.open.push(Section {
            rank,
            line: heading.line,
        })?;
        Ok(())
    }

    /// A number for the section that the last heading is in.
    fn section(&self) -> usize {
        self.around
    }
}

/// The headings so far.
#[derive(Drop)]
struct Earlier {
    /// The number of a section and a text, for each different heading.
    headings: LabelTable<Global>,
    /// The line of each.
    lines: Vec<usize>,
    /// The section and the text of the last heading.
    last: Vec<u8>,
}

impl Earlier {
    fn new(alloc: Global) -> Result<Earlier, AllocError> {
        Ok(Earlier {
            headings: LabelTable::new(alloc)?,
            lines: Vec::new(alloc),
            last: Vec::new(alloc),
        })
    }

    /// Adds a heading of a section. Returns the line of the first one with its text, if there is one.
    fn add(
        &mut self,
        document: &Document<'_>,
        section: usize,
        heading: &Heading,
    ) -> Result<Option<usize>, AllocError> {
        let Some(text) = heading.text else {
            return Ok(None);
        };
        self.read(document, section, text)?;
        if self.headings.insert(&self.last, self.lines.len())? {
            self.lines.push(heading.line)?;
            return Ok(None);
        }
        match self.headings.find(&self.last)? {
            Some(index) => Ok(self.lines.get(index).copied()),
            None => Ok(None),
        }
    }

    /// Reads the text of a heading, after the number of its section.
    fn read(
        &mut self,
        document: &Document<'_>,
        section: usize,
        text: HeadingText,
    ) -> Result<(), AllocError> {
        self.last.clear();
        self.push_number(section)?;
        push_text_at(&mut self.last, document.bytes, document.events, text.number)
    }

    /// Appends the digits of a number, the last one first.
    fn push_number(&mut self, number: usize) -> Result<(), AllocError> {
        let mut left = number;
        for _ in 0..NUMBER_SIZE {
            self.last.push(b'0' + (left % 10) as u8)?;
            left /= 10;
        }
        Ok(())
    }
}

/// No number has more digits.
const NUMBER_SIZE: usize = 20;
