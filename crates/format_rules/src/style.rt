//! What a formatter's caller may choose.
use crate::rule_set::RuleSet;
use format_inline::{BreakStyle, TableStyle};

/// What a caller may choose.
#[derive(Clone, Copy, Debug, Default, PartialEq, Eq)]
pub struct Style {
    /// How tables are written.
    pub tables: TableStyle,
    /// How hard breaks are written.
    pub hard_breaks: BreakStyle,
    /// Which rules are on.
    pub rules: RuleSet,
}
