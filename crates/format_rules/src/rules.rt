//! The rules, and their order.
use crate::ignored::kept;
use crate::rule_set::RuleSet;
use crate::style::Style;
use format_blocks::{
    blank_around, blank_lines, code_fenced, code_indented, definition, file_ends, heading_atx,
    heading_setext, thematic_break, trailing_spaces,
};
use format_document::Document;
use format_edits::Edits;
use format_inline::{attention, gfm_table, hard_break};
use format_lists::bullet_marker;
use format_lists::list_lines::{self, Lines};
use std::alloc::{AllocError, Global};

/// A rule. Its file has its name.
#[derive(Clone, Copy)]
pub enum Rule {
    /// Removes white space at the ends of lines.
    TrailingSpaces,
    /// Removes blank lines at the ends of a file.
    FileEnds,
    /// Leaves one of several blank lines.
    BlankLines,
    /// Puts a fence around indented code.
    CodeIndented,
    /// Makes fences of backticks.
    CodeFenced,
    /// Begins a heading with `#` in place of a line below it.
    HeadingSetext,
    /// Puts one space after the `#` of a heading, and no `#` at its end.
    HeadingAtx,
    /// Puts a blank line around headings, code, lists, tables and breaks.
    BlankAround,
    /// Makes thematic breaks `---`.
    ThematicBreak,
    /// Makes bullets `-`.
    BulletMarker,
    /// Puts one space after the marker of an item, begins a list where the content around it begins, and numbers
    /// items one after the other: all three, or some.
    ListLines(Lines),
    /// Makes the markers of emphasis `*`.
    Attention,
    /// Makes hard breaks alike, if the style says how.
    HardBreak,
    /// Puts bars at the ends of rows, and spaces around cells.
    GfmTable,
    /// Puts one space between the parts of a definition.
    Definition,
}

/// One space after the marker of an item.
const MARKER_SPACE: Rule = Rule::ListLines(Lines {
    marker_space: true,
    indent: false,
    number: false,
});

/// Lists begin where the content around them begins.
const LIST_INDENT: Rule = Rule::ListLines(Lines {
    marker_space: false,
    indent: true,
    number: false,
});

/// Numbers count up.
const LIST_NUMBER: Rule = Rule::ListLines(Lines {
    marker_space: false,
    indent: false,
    number: true,
});

/// All three rules for the lines of lists at once.
const LIST_LINES: Rule = Rule::ListLines(Lines {
    marker_space: true,
    indent: true,
    number: true,
});

/// All rules, in the order in which they are applied one after the other. In this order a second run changes
/// nothing in any text that was tried; in another it does. A new rule is a file, a row here and in
/// `AT_ONCE`, its function in `Rule::add_all`, and its name in `Rule::name` and in `RULE_NAMES`.
pub const RULES: [Rule; 17] = [
    Rule::TrailingSpaces,
    Rule::FileEnds,
    Rule::BlankLines,
    Rule::CodeIndented,
    Rule::CodeFenced,
    Rule::HeadingSetext,
    Rule::HeadingAtx,
    Rule::BlankAround,
    Rule::ThematicBreak,
    Rule::BulletMarker,
    MARKER_SPACE,
    LIST_INDENT,
    LIST_NUMBER,
    Rule::Attention,
    Rule::HardBreak,
    Rule::GfmTable,
    Rule::Definition,
];

/// All rules as they are applied at once. Those for the lines of lists are one, since they edit the same
/// white space.
const AT_ONCE: [Rule; 15] = [
    Rule::TrailingSpaces,
    Rule::FileEnds,
    Rule::BlankLines,
    Rule::CodeIndented,
    Rule::CodeFenced,
    Rule::HeadingSetext,
    Rule::HeadingAtx,
    Rule::BlankAround,
    Rule::ThematicBreak,
    Rule::BulletMarker,
    LIST_LINES,
    Rule::Attention,
    Rule::HardBreak,
    Rule::GfmTable,
    Rule::Definition,
];

impl Rule {
    /// The edits that the rule makes of a document, sorted by place. The page that they make may be
    /// another: the caller must compare.
    pub fn edits(
        self,
        alloc: Global,
        document: &Document<'_>,
        style: &Style,
    ) -> Result<Edits, AllocError> {
        let mut edits = Edits::new(alloc);
        self.add(alloc, document, style, &mut edits);
        finished(alloc, document, edits)
    }

    /// The name of the rule, or none for those for the lines of lists.
    fn name(self) -> Option<&'static str> {
        match self {
            Rule::TrailingSpaces => Some("trailing-spaces"),
            Rule::FileEnds => Some("file-ends"),
            Rule::BlankLines => Some("blank-lines"),
            Rule::CodeIndented => Some("code-indented"),
            Rule::CodeFenced => Some("code-fenced"),
            Rule::HeadingSetext => Some("heading-setext"),
            Rule::HeadingAtx => Some("heading-atx"),
            Rule::BlankAround => Some("blank-around"),
            Rule::ThematicBreak => Some("thematic-break"),
            Rule::BulletMarker => Some("bullet-marker"),
            Rule::ListLines(_) => None,
            Rule::Attention => Some("attention"),
            Rule::HardBreak => Some("hard-break"),
            Rule::GfmTable => Some("gfm-table"),
            Rule::Definition => Some("definition"),
        }
    }

    /// Adds the edits that the rule makes of a document, if it is on.
    fn add(self, alloc: Global, document: &Document<'_>, style: &Style, edits: &mut Edits) {
        match self.name() {
            Some(name) if !style.rules.has(name) => {}
            _ => self.add_all(alloc, document, style, edits),
        }
    }

    /// Adds the edits that the rule makes of a document.
    fn add_all(self, alloc: Global, document: &Document<'_>, style: &Style, edits: &mut Edits) {
        match self {
            Rule::TrailingSpaces => trailing_spaces::edit(document, edits),
            Rule::FileEnds => file_ends::edit(document, edits),
            Rule::BlankLines => blank_lines::edit(document, edits),
            Rule::CodeIndented => code_indented::edit(document, edits),
            Rule::CodeFenced => code_fenced::edit(document, edits),
            Rule::HeadingSetext => heading_setext::edit(document, edits),
            Rule::HeadingAtx => heading_atx::edit(document, edits),
            Rule::BlankAround => blank_around::edit(document, edits),
            Rule::ThematicBreak => thematic_break::edit(document, edits),
            Rule::BulletMarker => bullet_marker::edit(document, edits),
            Rule::ListLines(lines) => {
                list_lines::edit(alloc, document, lines_on(lines, &style.rules), edits);
            }
            Rule::Attention => attention::edit(document, edits),
            Rule::HardBreak => hard_break::edit(document, style.hard_breaks, edits),
            Rule::GfmTable => gfm_table::edit(alloc, document, style.tables, edits),
            Rule::Definition => definition::edit(document, edits),
        }
    }
}

/// Those of the rules for the lines of lists that are on.
fn lines_on(lines: Lines, rules: &RuleSet) -> Lines {
    Lines {
        marker_space: lines.marker_space && rules.has("marker-space"),
        indent: lines.indent && rules.has("list-indent"),
        number: lines.number && rules.has("list-number"),
    }
}

/// The edits that all rules make of a document at once, sorted by place. Those of a rule that overlap
/// others are left out when they are applied.
pub fn all_edits(
    alloc: Global,
    document: &Document<'_>,
    style: &Style,
) -> Result<Edits, AllocError> {
    let mut edits = Edits::new(alloc);
    for rule in AT_ONCE {
        edits.begin_group();
        rule.add(alloc, document, style, &mut edits);
    }
    finished(alloc, document, edits)
}

/// Edits of a document, finished.
fn finished(alloc: Global, document: &Document<'_>, mut edits: Edits) -> Result<Edits, AllocError> {
    let blocks = document.blocks(alloc)?;
    let kept = kept(alloc, document)?;
    edits.finish(alloc, document.bytes(), &blocks, &kept)?;
    Ok(edits)
}
