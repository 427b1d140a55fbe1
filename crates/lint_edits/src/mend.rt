//! A text, mended rule by rule.
ghost use Rattle.std.specs.Prelude.{IfOk, IfSome, string_bytes};

use crate::edits::edits_of;
use crate::finder::Finder;
use format_edits::Edits;
use format_search::{ReadText, Reader, Search};
use lint_document::{Document, Rule, RuleSet};
use std::alloc::{AllocError, Global};

/// The rules whose findings can be mended, in the order in which they are.
const MENDED: [Rule; 8] = [
    Rule::TrailingSpaces,
    Rule::TabIndent,
    Rule::ListNumbers,
    Rule::BlankLines,
    Rule::HeadingBlankLines,
    Rule::FenceBlankLines,
    Rule::ListBlankLines,
    Rule::FinalNewline,
];

/// The first edits of a text, and the rule that makes the next ones.
#[derive(Drop)]
pub struct FirstEdits {
    edits: Edits,
    /// The number of the rule after the one that makes the edits.
    next: usize,
}

impl FirstEdits {
    /// Whether no rule has an edit.
    pub fn is_empty(&self) -> bool {
        self.edits.is_empty()
    }
}

/// The edits of a text that was read, by the first of these rules that has some. There are none if the text
/// can't be read. `finder` has the rules.
pub fn first_edits<F: Finder>(
    alloc: Global,
    finder: &F,
    text: &str,
    read: Option<ReadText>,
    rules: &RuleSet,
) -> Result<FirstEdits, AllocError> {
    let mut next = 0;
    let edits = edits_by(alloc, finder, text, read, &rules_to_mend(rules), &mut next)?;
    Ok(FirstEdits { edits, next })
}

/// The edits of a text that was read, by the first of these rules from a number on that has some. The number
/// is then that of the rule after it.
fn edits_by<F: Finder>(
    alloc: Global,
    finder: &F,
    text: &str,
    read: Option<ReadText>,
    rules: &RuleSet,
    rule: &mut usize,
) -> Result<Edits, AllocError> {
    let Some(ReadText { events, closed }) = read else {
        return Ok(Edits::new(alloc));
    };
    let document = Document {
        bytes: text.as_bytes(),
        events: &events,
        gfm: false,
    };
    let findings = finder.findings(&document, rules)?;
    for mended in MENDED.iter().skip(*rule) {
        *rule = rule.saturating_add(1);
        let edits = edits_of(alloc, &document, &closed, &findings, *mended)?;
        if !edits.is_empty() {
            return Ok(edits);
        }
    }
    Ok(Edits::new(alloc))
}

/// A text after edits that mend what these rules find, as far as the reader finds the document the same, or none
/// if no edit is made. `first` has the first edits of the text. `finder` has the rules.
pub fn mended<R: Reader, F: Finder>(
    alloc: Global,
    reader: &R,
    finder: &F,
    text: &str,
    rules: &RuleSet,
    first: FirstEdits,
) -> Result<Option<String>, AllocError>
    ensures { IfOk result (λ next. IfSome next (λ it. R.is_kept reader.now (string_bytes it))) }
{
    let mender = Mender {
        alloc,
        reader,
        finder,
        rules: rules_to_mend(rules),
    };
    mender.after_rules(text, first)
}

/// Those of these rules whose findings can be mended.
fn rules_to_mend(rules: &RuleSet) -> RuleSet {
    let mut mended = RuleSet::NONE;
    for rule in MENDED {
        if rules.has(rule) {
            mended.insert(rule);
        }
    }
    mended
}

/// What a text is mended by.
#[derive(Drop)]
struct Mender<'a, R, F> {
    alloc: Global,
    reader: &'a R,
    finder: &'a F,
    /// The rules whose findings are mended.
    rules: RuleSet,
}

impl<'a, R: Reader, F: Finder> Mender<'a, R, F> {
    /// A text after the rules one after the other, or none if no edit is made.
    fn after_rules(&self, text: &str, first: FirstEdits) -> Result<Option<String>, AllocError>
        ensures { IfOk result (λ next. IfSome next (λ it. R.is_kept self.now.reader.now (string_bytes it))) }
    {
        let mut last: Option<String> = None;
        let FirstEdits {
            mut edits,
            next: mut rule,
        } = first;
        for _ in 0..MENDED.len() {
            if edits.is_empty() {
                break;
            }
            if let Some(next) = self.after_edits(value_of(&last, text), &edits)? {
                last = Some(next);
            }
            edits = self.next_edits(value_of(&last, text), &mut rule)?;
        }
        Ok(last)
    }

    /// A text after those of its edits that keep the document the same, or none if no edit does.
    fn after_edits(&self, text: &str, edits: &Edits) -> Result<Option<String>, AllocError>
        ensures { IfOk result (λ next. IfSome next (λ it. R.is_kept self.now.reader.now (string_bytes it))) }
    {
        let search = Search {
            alloc: self.alloc,
            reader: self.reader,
            text,
            edits,
        };
        search.edited()
    }

    /// The edits of a text by the first rule from a number on that has some. The number is then that of the
    /// rule after it.
    fn next_edits(&self, text: &str, rule: &mut usize) -> Result<Edits, AllocError> {
        if *rule >= MENDED.len() {
            return Ok(Edits::new(self.alloc));
        }
        let read = self.reader.read(text)?;
        edits_by(self.alloc, self.finder, text, read, &self.rules, rule)
    }
}

/// The last text, or the first one if there is no other.
fn value_of<'t>(last: &'t Option<String>, first: &'t str) -> &'t str {
    match last {
        Some(last) => last.as_str(),
        None => first,
    }
}
