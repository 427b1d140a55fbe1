//! The findings of a text, as the rules add them.
ghost use Rattle.std.specs.Prelude.{◌≡◌, ◌↔◌, ◌+◌, [], IfOk, IsPermutation, IsTrue, OnOk, vec_len};
ghost use Rattle.lint_document.specs.RuleSet.{IsMember};

use crate::finding::Finding;
use crate::rule::Rule;
use crate::rule_set::RuleSet;
use crate::span::Span;
use std::alloc::{AllocError, Global};

/// The findings of a text.
#[derive(Drop)]
pub struct Report {
    findings: Vec<Finding>,
    /// The rules that are on.
    rules: RuleSet,
    alloc: Global,
}

impl Report {
    /// No findings, to which these rules may add.
    pub fn new(alloc: Global, rules: RuleSet) -> Report
        ensures findings { result.findings.items ≡ [] }
        ensures rules { result.rules ≡ rules }
    {
        Report {
            findings: Vec::new(alloc),
            rules,
            alloc,
        }
    }

    /// The allocator.
    pub fn alloc(&self) -> Global {
        self.alloc
    }

    /// Whether a rule is on.
    pub fn has(&self, rule: Rule) -> bool
        ensures { IsTrue result ↔ IsMember self.now.rules rule }
    {
        self.rules.has(rule)
    }

    /// Adds what a rule finds at a place, in these words, if the rule is on.
    pub fn add(&mut self, rule: Rule, span: Span, words: &str) -> Result<(), AllocError>
        ensures on { OnOk result (IsMember self.old.rules rule → vec_len self.new.findings ≡ vec_len self.old.findings + 1) }
        ensures off { OnOk result (¬ IsMember self.old.rules rule → self.new.findings.items ≡ self.old.findings.items) }
        ensures rules { self.new.rules ≡ self.old.rules }
    {
        if !self.has(rule) {
            return Ok(());
        }
        let what = String::from_str(self.alloc, words)?;
        self.push(rule, span, what)
    }

    /// Adds what a rule finds at a place, in these words and a name in quotes, if the rule is on.
    pub fn add_named(
        &mut self,
        rule: Rule,
        span: Span,
        words: &str,
        name: &str,
    ) -> Result<(), AllocError>
        ensures on { OnOk result (IsMember self.old.rules rule → vec_len self.new.findings ≡ vec_len self.old.findings + 1) }
        ensures off { OnOk result (¬ IsMember self.old.rules rule → self.new.findings.items ≡ self.old.findings.items) }
        ensures rules { self.new.rules ≡ self.old.rules }
    {
        if !self.has(rule) {
            return Ok(());
        }
        let what = format!(in self.alloc; "{words} {name:?}")?;
        self.push(rule, span, what)
    }

    /// Adds what a rule finds at a place, in words with a number after each, if the rule is on.
    pub fn add_numbers(
        &mut self,
        rule: Rule,
        span: Span,
        words: [&str; 2],
        numbers: [usize; 2],
    ) -> Result<(), AllocError>
        ensures on { OnOk result (IsMember self.old.rules rule → vec_len self.new.findings ≡ vec_len self.old.findings + 1) }
        ensures off { OnOk result (¬ IsMember self.old.rules rule → self.new.findings.items ≡ self.old.findings.items) }
        ensures rules { self.new.rules ≡ self.old.rules }
    {
        if !self.has(rule) {
            return Ok(());
        }
        let [before, between] = words;
        let [first, second] = numbers;
        let what = format!(in self.alloc; "{before} {first}{between} {second}")?;
        self.push(rule, span, what)
    }

    /// Adds a finding, in words that were made for it, if its rule is on.
    pub fn add_made(&mut self, rule: Rule, span: Span, what: String) -> Result<(), AllocError>
        ensures on { OnOk result (IsMember self.old.rules rule → vec_len self.new.findings ≡ vec_len self.old.findings + 1) }
        ensures off { OnOk result (¬ IsMember self.old.rules rule → self.new.findings.items ≡ self.old.findings.items) }
        ensures rules { self.new.rules ≡ self.old.rules }
    {
        if self.has(rule) {
            self.push(rule, span, what)
        } else {
            Ok(())
        }
    }

    /// Adds a finding.
    fn push(&mut self, rule: Rule, span: Span, what: String) -> Result<(), AllocError>
        ensures added { OnOk result (vec_len self.new.findings ≡ vec_len self.old.findings + 1) }
        ensures rules { self.new.rules ≡ self.old.rules }
    {
        self.findings.push(Finding { span, rule, what })?;
        Ok(())
    }

    /// The findings by their starts; at one place they are in the order of the rules.
    pub fn into_findings(self) -> Result<Vec<Finding>, AllocError>
        ensures { IfOk result (λ findings. IsPermutation self.findings.items findings.items) }
    {
        let Report { mut findings, .. } = self;
        findings.sort_by_key(|finding| (finding.span.start, finding.rule as usize))?;
        Ok(findings)
    }
}
