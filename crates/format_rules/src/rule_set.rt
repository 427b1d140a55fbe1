//! Which rules are on.
use crate::rules::RULES;

/// The number of rules.
const COUNT: usize = RULES.len();

/// The names of the rules, in the order of `RULES`.
pub const RULE_NAMES: [&str; COUNT] = [
    "trailing-spaces",
    "file-ends",
    "blank-lines",
    "code-indented",
    "code-fenced",
    "heading-setext",
    "heading-atx",
    "blank-around",
    "thematic-break",
    "bullet-marker",
    "marker-space",
    "list-indent",
    "list-number",
    "attention",
    "hard-break",
    "gfm-table",
    "definition",
];

/// Which rules are on. By default it is all of them.
#[derive(Clone, Copy, Debug, Default, PartialEq, Eq)]
pub struct RuleSet {
    /// Whether each rule is off, in the order of `RULES`.
    is_off: [bool; COUNT],
}

impl RuleSet {
    /// All rules.
    pub const ALL: RuleSet = RuleSet {
        is_off: [false; COUNT],
    };

    /// Turns the rule of a name on or off. Returns whether there is such a rule.
    pub fn set(&mut self, name: &str, is_on: bool) -> bool {
        match self.is_off.get_mut(place_of(name)) {
            Some(is_off) => {
                *is_off = !is_on;
                true
            }
            None => false,
        }
    }

    /// Whether the rule of a name is on. A name of no rule is off.
    pub fn has(&self, name: &str) -> bool {
        self.is_off.get(place_of(name)) == Some(&false)
    }
}

/// The place of a rule in `RULES` by its name, or one past the last if there is no such rule.
fn place_of(name: &str) -> usize {
    let place = RULE_NAMES.iter().position(|known| *known == name);
    place.unwrap_or(COUNT)
}
