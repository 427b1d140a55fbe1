//! Passes over the rules.
ghost use Rattle.std.specs.Prelude.{◌≡◌, IfOk, IfSome, string_bytes};

use format_edits::Edits;
use format_rules::{Document, RULES, Style, all_edits};
use format_search::{ReadText, Reader, Search};
use std::alloc::{AllocError, Global};

/// The most passes over the rules. A pass may keep edits that the one before had to leave out.
const PASSES_MAX: usize = 5;

/// The edits that all rules make at once of a text that was read. There are none if it can't be read.
pub fn first_edits(
    alloc: Global,
    text: &str,
    read: Option<ReadText>,
    style: &Style,
) -> Result<Edits, AllocError> {
    match document_of(alloc, text, read)? {
        Some(document) => all_edits(alloc, &document, style),
        None => Ok(Edits::new(alloc)),
    }
}

/// A text with its events, or none if it can't be read.
fn document_of(
    alloc: Global,
    text: &str,
    read: Option<ReadText>,
) -> Result<Option<Document<'_>>, AllocError> {
    match read {
        Some(ReadText { events, closed }) => {
            let document = Document::new(alloc, text.as_bytes(), events, closed)?;
            Ok(Some(document))
        }
        None => Ok(None),
    }
}

/// A text after the rules, in passes over them until one changes nothing. `edits` are those that all rules
/// make of it at once. Returns none if nothing changes.
///
/// Edits are made only if the reader finds the document the same.
pub fn formatted<R: Reader>(
    alloc: Global,
    reader: &R,
    text: &str,
    style: &Style,
    edits: Edits,
) -> Result<Option<String>, AllocError>
    ensures { IfOk result (λ next. IfSome next (λ it. R.is_kept reader.now (string_bytes it))) }
{
    let formatter = Formatter {
        alloc,
        reader,
        style,
    };
    formatter.after_passes(text, edits)
}

/// What texts are formatted by.
#[derive(Drop)]
struct Formatter<'a, R> {
    alloc: Global,
    reader: &'a R,
    style: &'a Style,
}

impl<'a, R: Reader> Formatter<'a, R> {
    /// The edits that all rules make of a text at once. There are none if the text can't be read.
    fn edits(&self, text: &str) -> Result<Edits, AllocError> {
        first_edits(self.alloc, text, self.reader.read(text)?, self.style)
    }

    /// A text with its events, or none if it can't be read.
    fn document<'t>(&self, text: &'t str) -> Result<Option<Document<'t>>, AllocError> {
        document_of(self.alloc, text, self.reader.read(text)?)
    }

    /// A text after passes over the rules until one changes nothing. `edits` are those that all rules make of
    /// it at once. Returns none if nothing changes.
    fn after_passes(&self, text: &str, edits: Edits) -> Result<Option<String>, AllocError>
        ensures { IfOk result (λ next. IfSome next (λ it. R.is_kept self.now.reader.now (string_bytes it))) }
    {
        let mut last: Option<String> = None;
        let mut edits = edits;
        for _ in 0..PASSES_MAX {
            if edits.is_empty() {
                break;
            }
            let Some(next) = self.after_pass(value_of(&last, text), edits)? else {
                break;
            };
            edits = self.edits(&next)?;
            last = Some(next);
        }
        Ok(last)
    }

    /// A text after all edits at once, or, if they change the document, after the rules one after the other.
    /// Returns none if nothing changes.
    fn after_pass(&self, text: &str, edits: Edits) -> Result<Option<String>, AllocError>
        ensures { IfOk result (λ next. IfSome next (λ it. R.is_kept self.now.reader.now (string_bytes it))) }
    {
        let at_once = self.after_all(text, &edits)?;
        if at_once.is_some() {
            return Ok(at_once);
        }
        self.after_rules(text)
    }

    /// A text after all edits at once, or none if they change the document.
    fn after_all(&self, text: &str, edits: &Edits) -> Result<Option<String>, AllocError>
        ensures { IfOk result (λ next. IfSome next (λ it. R.is_kept self.now.reader.now (string_bytes it))) }
    {
        self.search(text, edits).with_all()
    }

    /// A text after the rules one after the other. Returns none if nothing changes.
    fn after_rules(&self, text: &str) -> Result<Option<String>, AllocError>
        ensures { IfOk result (λ next. IfSome next (λ it. R.is_kept self.now.reader.now (string_bytes it))) }
    {
        let mut last: Option<String> = None;
        let mut rule = 0;
        for _ in 0..RULES.len() {
            if let Some(next) = self.after_rule(value_of(&last, text), &mut rule)? {
                last = Some(next);
            }
        }
        if value_of(&last, text) == text {
            return Ok(None);
        }
        Ok(last)
    }

    /// A text after the first rule from a number on that has edits, or none if no edit is made. The
    /// number is then that of the rule after it.
    fn after_rule(&self, text: &str, rule: &mut usize) -> Result<Option<String>, AllocError>
        ensures { IfOk result (λ next. IfSome next (λ it. R.is_kept self.now.reader.now (string_bytes it))) }
    {
        if *rule >= RULES.len() {
            return Ok(None);
        }
        let edits = self.first_edits(text, rule)?;
        if edits.is_empty() {
            return Ok(None);
        }
        self.search(text, &edits).edited()
    }

    /// The edits of the first rule from a number on that has some.
    fn first_edits(&self, text: &str, rule: &mut usize) -> Result<Edits, AllocError> {
        match self.document(text)? {
            Some(document) => self.edits_by(&document, rule),
            None => Ok(Edits::new(self.alloc)),
        }
    }

    /// The edits of the first rule from a number on that has some, by a document.
    fn edits_by(&self, document: &Document<'_>, rule: &mut usize) -> Result<Edits, AllocError> {
        for row in RULES.iter().skip(*rule) {
            *rule = rule.saturating_add(1);
            let edits = row.edits(self.alloc, document, self.style)?;
            if !edits.is_empty() {
                return Ok(edits);
            }
        }
        Ok(Edits::new(self.alloc))
    }

    /// The search among edits of a text.
    fn search<'s>(&'s self, text: &'s str, edits: &'s Edits) -> Search<'s, R>
        ensures { result.reader.now ≡ self.now.reader.now }
    {
        Search {
            alloc: self.alloc,
            reader: self.reader,
            text,
            edits,
        }
    }
}

/// The last text, or the first one if there is no other.
fn value_of<'t>(last: &'t Option<String>, first: &'t str) -> &'t str {
    match last {
        Some(last) => last.as_str(),
        None => first,
    }
}
