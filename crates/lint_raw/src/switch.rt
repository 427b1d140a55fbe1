//! The comments that turn rules off and on.
//!
//! | Comment | From where to where the rules are off or on |
//! |---|---|
//! | `<!-- markdown-lint-disable RULE.. -->` | off from there on |
//! | `<!-- markdown-lint-enable RULE.. -->` | on from there on |
//! | `<!-- markdown-lint-disable-line RULE.. -->` | off on the line of the comment |
//! | `<!-- markdown-lint-disable-next-line RULE.. -->` | off on the line after it |
//! | `<!-- markdown-lint-disable-file RULE.. -->` | off from the start of the text on |
//! | `<!-- markdown-lint-capture -->` | keeps which rules are off there |
//! | `<!-- markdown-lint-restore -->` | from there on as was kept last, or as at the start of the text |
//!
//! With no rule it is all of them. A rule is given by its name or its number, and other words do nothing.
//! markdownlint's comments, which begin with `markdownlint-`, do the same.
use engine_events::event::{Kind, Name};
use lint_document::document::Step;
use lint_document::{Document, Rule, RuleSet, Span};
use std::alloc::{AllocError, Global};
use std::str::from_utf8;

/// What a comment changes from there on.
#[derive(Clone, Copy)]
pub enum Effect {
    /// Its rules are off.
    Disable,
    /// Its rules are on.
    Enable,
    /// Which rules are off is kept.
    Capture,
    /// The rules are off that were off when that was kept last, or at the start of the text.
    Restore,
}

/// A comment that holds from there on.
#[derive(Clone, Copy)]
pub struct Switch {
    /// The number of bytes before the end of the comment.
    pub index: usize,
    /// What it changes.
    pub effect: Effect,
    /// For which rules.
    pub rules: RuleSet,
}

/// A line on which rules are off.
#[derive(Clone, Copy)]
pub struct SilentLine {
    /// Where it is, with its line ending.
    pub span: Span,
    /// The rules that are off.
    pub rules: RuleSet,
}

/// What the comments of a text turn off and on.
#[derive(Drop)]
pub struct Comments {
    /// The rules that are off at the start of the text, if there are any.
    pub file: Option<RuleSet>,
    /// The comments that hold from there on, in the order of the text.
    pub switches: Vec<Switch>,
    /// The lines on which rules are off, in the order of the text.
    pub lines: Vec<SilentLine>,
}

/// The comments of a text. Each is on one line.
pub fn comments_of(alloc: Global, document: &Document<'_>) -> Result<Comments, AllocError> {
    let mut reader = CommentReader::new(alloc);
    for step in document.steps() {
        reader.read(&step)?;
    }
    reader.into_comments()
}

/// Reads the comments of a text.
#[derive(Drop)]
pub(crate) struct CommentReader {
    comments: Comments,
    /// Where this line starts.
    start: usize,
    /// The rules that are off on this line, and on the next one.
    here: Option<RuleSet>,
    next: Option<RuleSet>,
}

impl CommentReader {
    /// No event was read.
    pub(crate) fn new(alloc: Global) -> CommentReader {
        CommentReader {
            comments: Comments {
                file: None,
                switches: Vec::new(alloc),
                lines: Vec::new(alloc),
            },
            start: 0,
            here: None,
            next: None,
        }
    }

    /// Reads the next event. Adds the comments of the line of raw HTML that ends there.
    pub(crate) fn read(&mut self, step: &Step<'_>) -> Result<(), AllocError> {
        if step.starts_line() {
            return self.start_line(step.index);
        }
        let is_html = step.kind == Kind::Exit
            && matches!(step.name, Name::HtmlFlowData | Name::HtmlTextData);
        if is_html {
            self.read_html(step)
        } else {
            Ok(())
        }
    }

    /// The comments, after the last event was read.
    pub(crate) fn into_comments(self) -> Result<Comments, AllocError> {
        let mut reader = self;
        reader.start_line(usize::MAX)?;
        let CommentReader { comments, .. } = reader;
        Ok(comments)
    }

    /// Reads the start of a line.
    fn start_line(&mut self, index: usize) -> Result<(), AllocError> {
        if let Some(rules) = self.here.take() {
            let span = Span {
                start: self.start,
                end: index,
            };
            self.comments.lines.push(SilentLine { span, rules })?;
        }
        self.here = self.next.take();
        self.start = index;
        Ok(())
    }

    /// Adds the comments of a line of raw HTML.
    fn read_html(&mut self, step: &Step<'_>) -> Result<(), AllocError> {
        let Ok(html) = from_utf8(step.bytes) else {
            return Ok(());
        };
        // What follows the last comment is left out.
        let Some((comments, _)) = html.rsplit_once(COMMENT_END) else {
            return Ok(());
        };
        let mut end = step.start;
        for part in comments.split(COMMENT_END) {
            end = end
                .saturating_add(part.len())
                .saturating_add(COMMENT_END.len());
            if let Some((_, comment)) = part.split_once("<!--") {
                self.read_comment(end, comment)?;
            }
        }
        Ok(())
    }

    /// Reads a comment that ends at an index.
    fn read_comment(&mut self, index: usize, comment: &str) -> Result<(), AllocError> {
        let mut words = comment.split_ascii_whitespace();
        let Some(verb) = words.next().and_then(verb_of) else {
            return Ok(());
        };
        let mut rules = RuleSet::NONE;
        let mut is_all = true;
        for word in words {
            is_all = false;
            if let Some(rule) = Rule::of_word(word) {
                rules.insert(rule);
            }
        }
        self.add(index, verb, if is_all { RuleSet::ALL } else { rules })
    }

    /// Adds what a comment asks for that ends at an index.
    fn add(&mut self, index: usize, verb: &str, rules: RuleSet) -> Result<(), AllocError> {
        let effect = match verb {
            "disable" => Effect::Disable,
            "enable" => Effect::Enable,
            "capture" => Effect::Capture,
            "restore" => Effect::Restore,
            _ => {
                self.silence(verb, &rules);
                return Ok(());
            }
        };
        self.comments.switches.push(Switch {
            index,
            effect,
            rules,
        })?;
        Ok(())
    }

    /// Turns rules off in a part of the text, if a verb asks for that.
    fn silence(&mut self, verb: &str, rules: &RuleSet) {
        let silent = match verb {
            "disable-line" => &mut self.here,
            "disable-next-line" => &mut self.next,
            "disable-file" => &mut self.comments.file,
            _ => return,
        };
        let mut all = silent.unwrap_or(RuleSet::NONE);
        all.change(rules, true);
        *silent = Some(all);
    }
}

/// What ends a comment (CommonMark 6.6).
const COMMENT_END: &str = "-->";

/// What the first word of a comment asks for, if it asks this linter.
fn verb_of(word: &str) -> Option<&str> {
    match word.strip_prefix("markdown-lint-") {
        Some(verb) => Some(verb),
        None => word.strip_prefix("markdownlint-"),
    }
}
