//! Findings where comments turn their rules off.
use lint_document::{Finding, Rule, RuleSet};
use lint_raw::switch::{Effect, SilentLine};
use lint_raw::{Comments, Switch};
use std::alloc::{AllocError, Global};

/// The findings where their rules aren't off. They are in the order of the text.
pub(crate) fn without_silenced(
    alloc: Global,
    findings: Vec<Finding>,
    comments: &Comments,
) -> Result<Vec<Finding>, AllocError> {
    if comments.file.is_none() && comments.switches.is_empty() && comments.lines.is_empty() {
        return Ok(findings);
    }
    let off = comments.file.unwrap_or(RuleSet::NONE);
    let mut silence = Silence {
        switches: &comments.switches,
        lines: &comments.lines,
        off,
        kept: off,
    };
    let mut kept = Vec::new(alloc);
    for finding in findings {
        let start = finding.span.start;
        silence.go_to(start);
        if !silence.has(start, finding.rule) {
            kept.push(finding)?;
        }
    }
    Ok(kept)
}

/// Which rules are off at a place.
#[derive(Clone, Copy)]
struct Silence<'a> {
    /// The comments after that place.
    switches: &'a [Switch],
    /// The lines on which rules are off, from that place on.
    lines: &'a [SilentLine],
    off: RuleSet,
    /// The rules that a comment turns off that restores.
    kept: RuleSet,
}

impl Silence<'_> {
    /// Whether a rule is off at an index, to which this has gone.
    fn has(&self, index: usize, rule: Rule) -> bool {
        let is_silent = match self.lines.first() {
            Some(line) => line.span.start <= index && line.rules.has(rule),
            None => false,
        };
        is_silent || self.off.has(rule)
    }

    /// Goes on to a later place.
    fn go_to(&mut self, index: usize) {
        for _ in 0..self.switches.len() {
            let Some((switch, others)) = self.switches.split_first() else {
                break;
            };
            if switch.index > index {
                break;
            }
            self.change(switch);
            self.switches = others;
        }
        let over = self
            .lines
            .iter()
            .take_while(|line| line.span.end <= index)
            .count();
        if let Some(lines) = self.lines.get(over..) {
            self.lines = lines;
        }
    }

    /// Does what a comment asks for.
    fn change(&mut self, switch: &Switch) {
        match switch.effect {
            Effect::Disable => self.off.change(&switch.rules, true),
            Effect::Enable => self.off.change(&switch.rules, false),
            Effect::Capture => self.kept = self.off,
            Effect::Restore => self.off = self.kept,
        }
    }
}
