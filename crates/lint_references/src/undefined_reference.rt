//! undefined-reference (MD052): what looks like a reference or a footnote call, without a definition.
//!
//! It is printed as it is written, with its brackets: most often a label is misspelled, or its definition was
//! removed.
//!
//! It finds `[text][label]` and `[label][]` in text, also after `!`, and with `--gfm` `[^label]`. `[label]`
//! alone isn't looked at, since brackets are common in text.
//!
//! Example: `see [a][b]` in a text that doesn't define `b`.
use crate::definitions::Defined;
use crate::label::normal_label;
use engine_events::event::{Kind, Name};
use lint_document::document::{Depth, Step, is_blank, is_white};
use lint_document::{Report, Rule, Span};
use std::alloc::{AllocError, Global};

/// A bracket of a text that is open. Indices are in the text without quote prefixes.
#[derive(Clone, Copy)]
struct Open {
    /// The index of the bracket in the document.
    start: usize,
    /// The index of the bracket.
    index: usize,
    /// Whether there are brackets in it.
    nested: bool,
}

/// Two brackets of a text, the one closing the other.
#[derive(Clone, Copy)]
struct Pair {
    open: Open,
    /// The index after the closing bracket.
    end: usize,
    /// The index after the closing bracket in the document.
    past: usize,
}

impl Pair {
    /// Where the brackets are in the document.
    fn span(self) -> Span {
        Span {
            start: self.open.start,
            end: self.past,
        }
    }
}

/// The text that is read, and its brackets.
#[derive(Drop)]
pub(crate) struct Texts {
    gfm: bool,
    /// The text so far, without quote prefixes and what is outside of brackets.
    text: Vec<u8>,
    /// The brackets that are open, the innermost last.
    open: Vec<Open>,
    /// The last brackets that closed, unless they are part of what was reported, or text came after them.
    last: Option<Pair>,
    /// Quote prefixes.
    prefixes: Depth,
    /// What holds data that is no text.
    strings: Depth,
}

impl Texts {
    /// No event was read.
    pub(crate) fn new(alloc: Global, gfm: bool) -> Texts {
        Texts {
            gfm,
            text: Vec::new(alloc),
            open: Vec::new(alloc),
            last: None,
            prefixes: Depth::default(),
            strings: Depth::default(),
        }
    }

    /// Whether a bracket is open, or closed last, so that each event is asked for.
    pub(crate) fn is_after_bracket(&self) -> bool {
        self.last.is_some() || !self.open.is_empty()
    }

    /// Reads the next event. Reports the references and calls in the data that end there, if they have no
    /// definition.
    pub(crate) fn read(
        &mut self,
        step: &Step<'_>,
        defined: &Defined,
        report: &mut Report,
    ) -> Result<(), AllocError> {
        if step.kind == Kind::Enter && starts_text(step.name) {
            self.start();
        }
        if step.kind == Kind::Exit && step.name == Name::Data && !self.strings.is_inside() {
            self.data(step, defined, report)?;
        } else if !self.prefixes.is_inside() {
            self.push(step.bytes)?;
        }
        if step.name == Name::BlockQuotePrefix {
            self.prefixes.count(step.kind);
        }
        if holds_string(step.name) {
            self.strings.count(step.kind);
        }
        Ok(())
    }

    /// Begins a text.
    fn start(&mut self) {
        self.text.clear();
        self.open.clear();
        self.last = None;
    }

    /// Reads bytes that are no brackets.
    fn push(&mut self, bytes: &[u8]) -> Result<(), AllocError> {
        if bytes.is_empty() {
            return Ok(());
        }
        if self.open.is_empty() {
            self.last = None;
            return Ok(());
        }
        self.text.extend_from_slice(bytes)
    }

    /// Reads the data that end here.
    fn data(
        &mut self,
        step: &Step<'_>,
        defined: &Defined,
        report: &mut Report,
    ) -> Result<(), AllocError> {
        let mut left = step.bytes;
        // Each turn reads a bracket, or what is left.
        for _ in 0..=step.bytes.len() {
            let size = left.iter().take_while(|byte| !is_bracket(**byte)).count();
            let (before, others) = left.split_at(size.min(left.len()));
            self.push(before)?;
            let Some((bracket, after)) = others.split_first() else {
                break;
            };
            let past = step.index.saturating_sub(after.len());
            if *bracket == b'[' {
                self.opens(past.saturating_sub(1))?;
            } else {
                self.closes(past, defined, report)?;
            }
            left = after;
        }
        Ok(())
    }

    /// Reads a `[`, which starts at an index of the document.
    fn opens(&mut self, start: usize) -> Result<(), AllocError> {
        self.open.push(Open {
            start,
            index: self.text.len(),
            nested: false,
        })?;
        self.text.push(b'[')?;
        Ok(())
    }

    /// Reads a `]`, which ends at an index of the document.
    fn closes(
        &mut self,
        past: usize,
        defined: &Defined,
        report: &mut Report,
    ) -> Result<(), AllocError> {
        let Some(open) = self.open.pop() else {
            self.last = None;
            return Ok(());
        };
        self.text.push(b']')?;
        if let Some(outer) = self.open.last_mut() {
            outer.nested = true;
        }
        let pair = Pair {
            open,
            end: self.text.len(),
            past,
        };
        let is_reported = self.reports(pair, defined, report)?;
        self.last = if is_reported { None } else { Some(pair) };
        Ok(())
    }

    /// Reports the reference or call that these brackets end, if it has no definition.
    fn reports(
        &self,
        pair: Pair,
        defined: &Defined,
        report: &mut Report,
    ) -> Result<bool, AllocError> {
        if let Some(label) = self.call_label(pair) {
            if !defined.footnotes.has(label)? {
                let words = "no definition of footnote";
                add(pair.span(), words, label, report)?;
                return Ok(true);
            }
        }
        let Some(before) = self.last else {
            return Ok(false);
        };
        match self.reference_label(before, pair) {
            Some(label) if !defined.links.has(label)? => {
                let span = Span {
                    start: before.open.start,
                    end: pair.past,
                };
                add(span, "no definition of", label, report)?;
                Ok(true)
            }
            _ => Ok(false),
        }
    }

    /// What is between brackets that have no others in them.
    fn label(&self, pair: Pair) -> Option<&[u8]> {
        if pair.open.nested {
            return None;
        }
        let inside = self.text.get(pair.open.index..pair.end)?;
        inside.strip_prefix(b"[")?.strip_suffix(b"]")
    }

    /// The label of a footnote call (in neither standard).
    fn call_label(&self, pair: Pair) -> Option<&[u8]> {
        let label = self.label(pair)?.strip_prefix(b"^")?;
        let is_call = self.gfm && !label.is_empty() && !label.iter().any(|byte| is_white(*byte));
        if is_call { Some(label) } else { None }
    }

    /// The label of a full or collapsed reference of these brackets (CommonMark 6.3).
    fn reference_label(&self, before: Pair, pair: Pair) -> Option<&[u8]> {
        if before.end != pair.open.index {
            return None;
        }
        let mut label = self.label(pair)?;
        if label.is_empty() {
            label = self.label(before)?;
        }
        if is_blank(label) { None } else { Some(label) }
    }
}

/// Reports that a label has no definition.
fn add(span: Span, words: &str, label: &[u8], report: &mut Report) -> Result<(), AllocError> {
    let label = normal_label(report.alloc(), label)?;
    report.add_named(Rule::UndefinedReference, span, words, label.as_str())
}

fn is_bracket(byte: u8) -> bool {
    matches!(byte, b'[' | b']')
}

/// Whether a text begins with an event of this name.
fn starts_text(name: Name) -> bool {
    matches!(
        name,
        Name::Paragraph | Name::HeadingAtxText | Name::HeadingSetextText | Name::GfmTableCellText
    )
}

/// Whether data in an event of this name are no text.
fn holds_string(name: Name) -> bool {
    matches!(
        name,
        Name::Resource
            | Name::Reference
            | Name::Definition
            | Name::GfmFootnoteDefinitionLabel
            | Name::CodeFencedFence
            | Name::MathFlowFence
    )
}
