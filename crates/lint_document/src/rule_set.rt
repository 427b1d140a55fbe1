//! Sets of rules.
ghost use Rattle.std.specs.Prelude.{◌↔◌, IsTrue};
ghost use Rattle.lint_document.specs.RuleSet.{IsMember};

use crate::rule::Rule;

/// A set of rules.
#[derive(Clone, Copy)]
pub struct RuleSet {
    /// Whether each rule is in it, in the order of `Rule::ALL`.
    members: [bool; 29],
}

impl RuleSet {
    /// No rule.
    pub const NONE: RuleSet = RuleSet {
        members: [false; 29],
    };

    /// All rules.
    pub const ALL: RuleSet = RuleSet {
        members: [true; 29],
    };

    /// Whether a rule is in it.
    pub fn has(&self, rule: Rule) -> bool
        ensures { IsTrue result ↔ IsMember self.now rule }
    {
        match self.members.get(rule as usize) {
            Some(is_member) => *is_member,
            None => false,
        }
    }

    /// Adds a rule.
    pub fn insert(&mut self, rule: Rule) {
        self.set(rule, true);
    }

    /// Removes a rule.
    pub fn remove(&mut self, rule: Rule) {
        self.set(rule, false);
    }

    /// Adds the rules of another set, or removes them.
    pub fn change(&mut self, rules: &RuleSet, adds: bool) {
        for rule in Rule::ALL {
            if rules.has(rule) {
                self.set(rule, adds);
            }
        }
    }

    fn set(&mut self, rule: Rule, is_member: bool) {
        if let Some(member) = self.members.get_mut(rule as usize) {
            *member = is_member;
        }
    }
}
