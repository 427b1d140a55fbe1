//! Which constructs are on, and how a text is read.
ghost use Rattle.std.specs.Prelude.{◌≡◌};
ghost use Rattle.markdown_options.specs.Defaults.{no_constructs, default_constructs, gfm_constructs, mdx_constructs};
ghost use Rattle.markdown_options.specs.Defaults.{default_parse_options, gfm_parse_options, mdx_parse_options};
ghost use Rattle.markdown_options.specs.Mdx.{has_mdx};

/// The constructs of Markdown, each on or off. A construct that is off never occurs.
#[derive(Clone, Copy, Debug, PartialEq, Eq)]
pub struct Constructs {
    /// Emphasis and strong emphasis by `*` and `_` (CommonMark 6.2).
    pub attention: bool,
    /// Links in angle brackets, such as `<https://example.com>` (CommonMark 6.5).
    pub autolink: bool,
    /// Block quotes by `>` (CommonMark 5.1).
    pub block_quote: bool,
    /// A backslash before ASCII punctuation (CommonMark 2.4).
    pub character_escape: bool,
    /// Characters by name or number, as `&amp;` and `&#38;` (CommonMark 2.5).
    pub character_reference: bool,
    /// Code blocks by indentation (CommonMark 4.4).
    pub code_indented: bool,
    /// Code blocks between fences of backticks or tildes (CommonMark 4.5).
    pub code_fenced: bool,
    /// Code spans between backticks (CommonMark 6.1).
    pub code_text: bool,
    /// Definitions of links, as `[a]: b` (CommonMark 4.7).
    pub definition: bool,
    /// Metadata at the start of a text, between lines of `---` or `+++`; in neither standard.
    pub frontmatter: bool,
    /// Bare links, such as `www.example.com`, and email addresses (GFM 6.9).
    pub gfm_autolink_literal: bool,
    /// Definitions of footnotes, as `[^a]: b`; GitHub has them, and GFM has no section on them.
    pub gfm_footnote_definition: bool,
    /// Calls of footnotes, as `[^a]`; GitHub has them, and GFM has no section on them.
    pub gfm_label_start_footnote: bool,
    /// Strikethrough by `~` (GFM 6.5).
    pub gfm_strikethrough: bool,
    /// Tables (GFM 4.10).
    pub gfm_table: bool,
    /// Check boxes at the start of an item, such as `[x]` (GFM 5.3).
    pub gfm_task_list_item: bool,
    /// Line breaks by a backslash (CommonMark 6.7).
    pub hard_break_escape: bool,
    /// Line breaks by spaces at a line's end (CommonMark 6.7).
    pub hard_break_trailing: bool,
    /// Headings that begin with `#` (CommonMark 4.2).
    pub heading_atx: bool,
    /// Headings with a line of `=` or `-` below (CommonMark 4.3).
    pub heading_setext: bool,
    /// HTML blocks (CommonMark 4.6).
    pub html_flow: bool,
    /// Raw HTML in text (CommonMark 6.6).
    pub html_text: bool,
    /// The start `![` of an image (CommonMark 6.4).
    pub label_start_image: bool,
    /// The start `[` of a link (CommonMark 6.3).
    pub label_start_link: bool,
    /// The end `]` of a link or an image (CommonMark 6.3 and 6.4).
    pub label_end: bool,
    /// List items (CommonMark 5.2).
    pub list_item: bool,
    /// Marked text by `==`; in neither standard.
    pub mark: bool,
    /// Blocks of math between fences of dollars; in neither standard.
    pub math_flow: bool,
    /// Math within text, between dollars; in neither standard.
    pub math_text: bool,
    /// Imports and exports of MDX; in neither standard.
    pub mdx_esm: bool,
    /// Expressions of MDX as blocks, such as `{1 + 1}`; in neither standard.
    pub mdx_expression_flow: bool,
    /// Expressions of MDX within text; in neither standard.
    pub mdx_expression_text: bool,
    /// Tags of MDX as blocks; in neither standard.
    pub mdx_jsx_flow: bool,
    /// Tags of MDX within text; in neither standard.
    pub mdx_jsx_text: bool,
    /// Breaks by a line of `*`, `-` or `_` (CommonMark 4.1).
    pub thematic_break: bool,
}

impl Constructs {
    /// Returns every construct off.
    pub fn none() -> Constructs
        ensures { result ≡ no_constructs }
    {
        Constructs {
            attention: false,
            autolink: false,
            block_quote: false,
            character_escape: false,
            character_reference: false,
            code_indented: false,
            code_fenced: false,
            code_text: false,
            definition: false,
            frontmatter: false,
            gfm_autolink_literal: false,
            gfm_footnote_definition: false,
            gfm_label_start_footnote: false,
            gfm_strikethrough: false,
            gfm_table: false,
            gfm_task_list_item: false,
            hard_break_escape: false,
            hard_break_trailing: false,
            heading_atx: false,
            heading_setext: false,
            html_flow: false,
            html_text: false,
            label_start_image: false,
            label_start_link: false,
            label_end: false,
            list_item: false,
            mark: false,
            math_flow: false,
            math_text: false,
            mdx_esm: false,
            mdx_expression_flow: false,
            mdx_expression_text: false,
            mdx_jsx_flow: false,
            mdx_jsx_text: false,
            thematic_break: false,
        }
    }

    /// Returns the default constructs, and those of GFM and GitHub's footnotes.
    pub fn gfm() -> Constructs
        ensures { result ≡ gfm_constructs }
    {
        Constructs {
            gfm_autolink_literal: true,
            gfm_footnote_definition: true,
            gfm_label_start_footnote: true,
            gfm_strikethrough: true,
            gfm_table: true,
            gfm_task_list_item: true,
            ..Constructs::default()
        }
    }

    /// Returns the default constructs, with MDX in place of autolinks, indented code and HTML. No
    /// call of this library accepts it, since none reads MDX.
    pub fn mdx() -> Constructs
        ensures { result ≡ mdx_constructs }
    {
        Constructs {
            autolink: false,
            code_indented: false,
            html_flow: false,
            html_text: false,
            mdx_esm: true,
            mdx_expression_flow: true,
            mdx_expression_text: true,
            mdx_jsx_flow: true,
            mdx_jsx_text: true,
            ..Constructs::default()
        }
    }

    /// Returns whether a construct of MDX is on.
    pub fn has_mdx(&self) -> bool
        ensures { result ≡ has_mdx self.now }
    {
        self.mdx_esm
            || self.mdx_expression_flow
            || self.mdx_expression_text
            || self.mdx_jsx_flow
            || self.mdx_jsx_text
    }
}

/// The constructs of CommonMark.
impl Default for Constructs {
    ghost is_default = { λ c. c ≡ default_constructs };

    fn default() -> Constructs {
        Constructs {
            attention: true,
            autolink: true,
            block_quote: true,
            character_escape: true,
            character_reference: true,
            code_indented: true,
            code_fenced: true,
            code_text: true,
            definition: true,
            frontmatter: false,
            gfm_autolink_literal: false,
            gfm_footnote_definition: false,
            gfm_label_start_footnote: false,
            gfm_strikethrough: false,
            gfm_table: false,
            gfm_task_list_item: false,
            hard_break_escape: true,
            hard_break_trailing: true,
            heading_atx: true,
            heading_setext: true,
            html_flow: true,
            html_text: true,
            label_start_image: true,
            label_start_link: true,
            label_end: true,
            list_item: true,
            mark: false,
            math_flow: false,
            math_text: false,
            mdx_esm: false,
            mdx_expression_flow: false,
            mdx_expression_text: false,
            mdx_jsx_flow: false,
            mdx_jsx_text: false,
            thematic_break: true,
        }
    }
}

/// How a text is read.
#[derive(Clone, Copy, Debug, PartialEq, Eq)]
pub struct ParseOptions {
    /// The constructs that are on.
    pub constructs: Constructs,
    /// Whether one tilde strikes text too, as in `~a~`, and not only two (GFM 6.5).
    pub gfm_strikethrough_single_tilde: bool,
    /// Whether one dollar makes math within text too, as in `$a$`, and not only two or more.
    pub math_text_single_dollar: bool,
}

impl ParseOptions {
    /// Returns the options that read GitHub Flavored Markdown.
    pub fn gfm() -> ParseOptions
        ensures { result ≡ gfm_parse_options }
    {
        ParseOptions {
            constructs: Constructs::gfm(),
            ..ParseOptions::default()
        }
    }

    /// Returns the options of MDX. No call of this library accepts them, since none reads MDX.
    pub fn mdx() -> ParseOptions
        ensures { result ≡ mdx_parse_options }
    {
        ParseOptions {
            constructs: Constructs::mdx(),
            ..ParseOptions::default()
        }
    }
}

/// The options that read CommonMark.
impl Default for ParseOptions {
    ghost is_default = { λ options. options ≡ default_parse_options };

    fn default() -> ParseOptions {
        ParseOptions {
            constructs: Constructs::default(),
            gfm_strikethrough_single_tilde: true,
            math_text_single_dollar: true,
        }
    }
}
