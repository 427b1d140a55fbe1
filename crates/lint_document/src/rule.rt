//! The rules, by name.

/// A rule.
#[derive(Clone, Copy, PartialEq, Eq)]
pub enum Rule {
    /// A heading whose rank is more than one above that of the heading before.
    HeadingIncrement,
    /// A heading with the same text as an earlier one.
    DuplicateHeading,
    /// A heading of rank 1 after a title, which is a first heading of rank 1.
    SecondTitle,
    /// A heading that ends in punctuation.
    HeadingPunctuation,
    /// A line of a paragraph that begins with `#` signs and no space after them.
    HeadingSpace,
    /// A heading with no blank line before or after it.
    HeadingBlankLines,
    /// A fenced code block with no blank line before or after it.
    FenceBlankLines,
    /// A list with no blank line before or after it.
    ListBlankLines,
    /// More than one blank line in a row.
    BlankLines,
    /// A text that doesn't end with one line ending.
    FinalNewline,
    /// Spaces or tabs at the end of a line that are no hard break.
    TrailingSpaces,
    /// A tab in the indent of a line.
    TabIndent,
    /// A line that is too long. It is off by default.
    LineLength,
    /// White space inside the markers of emphasis.
    EmphasisSpaces,
    /// A list right after a list with another marker.
    ListMarker,
    /// An item that is indented otherwise than the first of its list.
    ListIndent,
    /// A list of bullets in a list that isn't indented by two columns a level.
    NestedListIndent,
    /// A number that doesn't go on with those of its list.
    ListNumbers,
    /// A row of a table with another number of cells than the head.
    TableCells,
    /// A tag of raw HTML.
    RawHtml,
    /// A fenced code block without a language.
    CodeLanguage,
    /// A URL in text that is no link.
    BareUrl,
    /// An image without a description.
    NoAltText,
    /// A link that leads nowhere.
    EmptyLink,
    /// A link with its text in parentheses and its destination in brackets.
    ReversedLink,
    /// A link to a fragment that no heading and no tag has.
    MissingFragment,
    /// A link to a file that isn't there.
    MissingFile,
    /// A reference or footnote call without a definition.
    UndefinedReference,
    /// A definition of a link or a footnote that nothing refers to.
    UnusedDefinition,
}

/// The names of a rule.
#[derive(Clone, Copy)]
struct Names {
    /// Its name in findings.
    name: &'static str,
    /// The number of markdownlint's rule that finds about the same.
    number: Option<&'static str>,
}

impl Rule {
    /// All rules, in the order of their findings at one place.
    pub const ALL: [Rule; 29] = [
        Rule::HeadingIncrement,
        Rule::DuplicateHeading,
        Rule::SecondTitle,
        Rule::HeadingPunctuation,
        Rule::HeadingSpace,
        Rule::HeadingBlankLines,
        Rule::FenceBlankLines,
        Rule::ListBlankLines,
        Rule::BlankLines,
        Rule::FinalNewline,
        Rule::TrailingSpaces,
        Rule::TabIndent,
        Rule::LineLength,
        Rule::EmphasisSpaces,
        Rule::ListMarker,
        Rule::ListIndent,
        Rule::NestedListIndent,
        Rule::ListNumbers,
        Rule::TableCells,
        Rule::RawHtml,
        Rule::CodeLanguage,
        Rule::BareUrl,
        Rule::NoAltText,
        Rule::EmptyLink,
        Rule::ReversedLink,
        Rule::MissingFragment,
        Rule::MissingFile,
        Rule::UndefinedReference,
        Rule::UnusedDefinition,
    ];

    /// Its name in findings, such as `bare-url`.
    pub fn name(self) -> &'static str {
        self.names().name
    }

    /// The number of markdownlint's rule that finds about the same, such as `MD034`, if there is one.
    pub fn number(self) -> Option<&'static str> {
        self.names().number
    }

    /// The rule with this name or number. Letters of a number may be small.
    pub fn of_word(word: &str) -> Option<Rule> {
        for rule in Rule::ALL {
            if rule.is_called(word) {
                return Some(rule);
            }
        }
        None
    }

    fn is_called(self, word: &str) -> bool {
        let Names { name, number } = self.names();
        match number {
            Some(number) => name == word || number.eq_ignore_ascii_case(word),
            None => name == word,
        }
    }

    fn names(self) -> Names {
        match self {
            Rule::HeadingIncrement => numbered("heading-increment", "MD001"),
            Rule::DuplicateHeading => numbered("duplicate-heading", "MD024"),
            Rule::SecondTitle => numbered("second-title", "MD025"),
            Rule::HeadingPunctuation => numbered("heading-punctuation", "MD026"),
            Rule::HeadingSpace => numbered("heading-space", "MD018"),
            Rule::HeadingBlankLines => numbered("heading-blank-lines", "MD022"),
            Rule::FenceBlankLines => numbered("fence-blank-lines", "MD031"),
            Rule::ListBlankLines => numbered("list-blank-lines", "MD032"),
            Rule::BlankLines => numbered("blank-lines", "MD012"),
            Rule::FinalNewline => numbered("final-newline", "MD047"),
            Rule::TrailingSpaces => numbered("trailing-spaces", "MD009"),
            Rule::TabIndent => numbered("tab-indent", "MD010"),
            Rule::LineLength => numbered("line-length", "MD013"),
            Rule::EmphasisSpaces => numbered("emphasis-spaces", "MD037"),
            Rule::ListMarker => numbered("list-marker", "MD004"),
            Rule::ListIndent => numbered("list-indent", "MD005"),
            Rule::NestedListIndent => numbered("nested-list-indent", "MD007"),
            Rule::ListNumbers => numbered("list-numbers", "MD029"),
            Rule::TableCells => numbered("table-cells", "MD056"),
            Rule::RawHtml => numbered("raw-html", "MD033"),
            Rule::CodeLanguage => numbered("code-language", "MD040"),
            Rule::BareUrl => numbered("bare-url", "MD034"),
            Rule::NoAltText => numbered("no-alt-text", "MD045"),
            Rule::EmptyLink => numbered("empty-link", "MD042"),
            Rule::ReversedLink => numbered("reversed-link", "MD011"),
            Rule::MissingFragment => numbered("missing-fragment", "MD051"),
            Rule::MissingFile => Names {
                name: "missing-file",
                number: None,
            },
            Rule::UndefinedReference => numbered("undefined-reference", "MD052"),
            Rule::UnusedDefinition => numbered("unused-definition", "MD053"),
        }
    }
}

fn numbered(name: &'static str, number: &'static str) -> Names {
    Names {
        name,
        number: Some(number),
    }
}
