//! What a rule finds.
use crate::rule::Rule;
use crate::span::Span;

/// What a rule finds at a place of a text.
#[derive(Drop)]
pub struct Finding {
    /// Where it is. The findings of one rule don't overlap.
    pub span: Span,
    /// The rule.
    pub rule: Rule,
    /// What is wrong, in a few words.
    pub what: String,
}
