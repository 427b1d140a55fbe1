//! The options that texts are read and printed with.
ghost use Rattle.std.specs.Prelude.{◌≡◌, false};
ghost use Rattle.markdown_options.specs.Mdx.{has_mdx};
ghost use Rattle.markdown_compile_options.specs.Mdx.{HasNoMdx};

use markdown_compile_options::{CompileOptions, Options};
use markdown_options::{Constructs, ParseOptions};
use std::alloc::Global;

/// Options by name: a constant has no `Options`, some of which own texts.
#[derive(Clone, Copy)]
pub enum OptionSet {
    /// Every construct off.
    Plain,
    /// Four leaf blocks, and nothing else.
    Leaves,
    /// Math as a block, and nothing else.
    MathAlone,
    /// All blocks of CommonMark, and no inline construct.
    Blocks,
    /// Blocks without definitions.
    BlocksWithoutDefinitions,
    /// Blocks and frontmatter.
    BlocksAndFrontmatter,
    /// Blocks and math.
    BlocksAndMath,
    /// Blocks, with raw HTML printed.
    BlocksAndRawHtml,
    /// Blocks, with raw HTML printed except the tags that GFM filters.
    BlocksAndFilteredHtml,
    /// The default options.
    CommonMark,
    /// The default options, with raw HTML and any URL printed, as the standard does.
    Standard,
    /// The default options, with tables.
    CommonMarkAndTables,
    /// The default options, with frontmatter.
    CommonMarkAndFrontmatter,
    /// The default options, with marked text.
    Mark,
    /// CommonMark with math, frontmatter and marked text.
    Extended,
    /// CommonMark with strikethrough, task list items, math and frontmatter.
    Extensions,
    /// Those extensions, where one tilde is no mark.
    ExtensionsByTwoTildes,
    /// Those extensions, where one dollar is no mark.
    ExtensionsByTwoDollars,
    /// Those extensions, where a reader may check items.
    ExtensionsCheckable,
    /// The options of GitHub.
    Gfm,
    /// The options of GitHub, with marked text.
    GfmAndMark,
    /// The options of GitHub, with raw HTML printed except the tags that GFM filters.
    GfmAndRawHtml,
    /// CommonMark with every extension.
    Everything,
    /// CommonMark with every extension, and with raw HTML printed except the tags that GFM filters.
    EverythingAndRawHtml,
    /// The options of GitHub, with another prefix of the ids of footnotes.
    FootnotesPrefixed,
    /// The options of GitHub, with no prefix of the ids of footnotes.
    FootnotesBare,
    /// The options of GitHub, with another label of the section of footnotes.
    FootnotesNamed,
    /// The options of GitHub, with another element for that label.
    FootnotesTagged,
    /// The options of GitHub, with other attributes of that label.
    FootnotesShown,
    /// The options of GitHub, with another label of the ways back from footnotes.
    FootnotesReturned,
}

/// The options, each with its name.
const NAMED: &[(&str, OptionSet)] = &[
    ("Plain", OptionSet::Plain),
    ("Leaves", OptionSet::Leaves),
    ("MathAlone", OptionSet::MathAlone),
    ("Blocks", OptionSet::Blocks),
    (
        "BlocksWithoutDefinitions",
        OptionSet::BlocksWithoutDefinitions,
    ),
    ("BlocksAndFrontmatter", OptionSet::BlocksAndFrontmatter),
    ("BlocksAndMath", OptionSet::BlocksAndMath),
    ("BlocksAndRawHtml", OptionSet::BlocksAndRawHtml),
    ("BlocksAndFilteredHtml", OptionSet::BlocksAndFilteredHtml),
    ("CommonMark", OptionSet::CommonMark),
    ("Standard", OptionSet::Standard),
    ("CommonMarkAndTables", OptionSet::CommonMarkAndTables),
    (
        "CommonMarkAndFrontmatter",
        OptionSet::CommonMarkAndFrontmatter,
    ),
    ("Mark", OptionSet::Mark),
    ("Extended", OptionSet::Extended),
    ("Extensions", OptionSet::Extensions),
    ("ExtensionsByTwoTildes", OptionSet::ExtensionsByTwoTildes),
    ("ExtensionsByTwoDollars", OptionSet::ExtensionsByTwoDollars),
    ("ExtensionsCheckable", OptionSet::ExtensionsCheckable),
    ("Gfm", OptionSet::Gfm),
    ("GfmAndMark", OptionSet::GfmAndMark),
    ("GfmAndRawHtml", OptionSet::GfmAndRawHtml),
    ("Everything", OptionSet::Everything),
    ("EverythingAndRawHtml", OptionSet::EverythingAndRawHtml),
    ("FootnotesPrefixed", OptionSet::FootnotesPrefixed),
    ("FootnotesBare", OptionSet::FootnotesBare),
    ("FootnotesNamed", OptionSet::FootnotesNamed),
    ("FootnotesTagged", OptionSet::FootnotesTagged),
    ("FootnotesShown", OptionSet::FootnotesShown),
    ("FootnotesReturned", OptionSet::FootnotesReturned),
];

impl OptionSet {
    /// The options with a name, if there are any.
    pub fn named(name: &str) -> Option<OptionSet> {
        for (other, set) in NAMED {
            if *other == name {
                return Some(*set);
            }
        }
        None
    }

    /// The options.
    pub fn options(self, alloc: Global) -> Options
        ensures { HasNoMdx result }
    {
        Options {
            parse: ParseOptions {
                constructs: self.constructs(),
                gfm_strikethrough_single_tilde: !matches!(self, OptionSet::ExtensionsByTwoTildes),
                math_text_single_dollar: !matches!(self, OptionSet::ExtensionsByTwoDollars),
            },
            compile: self.compile_options(alloc),
        }
    }

    /// The constructs that are on.
    fn constructs(self) -> Constructs
        ensures { has_mdx result ≡ false }
    {
        match self {
            OptionSet::Plain => Constructs::none(),
            OptionSet::Leaves => Constructs {
                code_fenced: true,
                code_indented: true,
                heading_atx: true,
                thematic_break: true,
                ..Constructs::none()
            },
            OptionSet::MathAlone => Constructs {
                math_flow: true,
                ..Constructs::none()
            },
            OptionSet::Blocks | OptionSet::BlocksAndRawHtml | OptionSet::BlocksAndFilteredHtml =>
                blocks(),
            OptionSet::BlocksWithoutDefinitions => Constructs {
                definition: false,
                ..blocks()
            },
            OptionSet::BlocksAndFrontmatter => Constructs {
                frontmatter: true,
                ..blocks()
            },
            OptionSet::BlocksAndMath => Constructs {
                math_flow: true,
                ..blocks()
            },
            OptionSet::CommonMark | OptionSet::Standard => Constructs::default(),
            OptionSet::CommonMarkAndTables => Constructs {
                gfm_table: true,
                ..Constructs::default()
            },
            OptionSet::CommonMarkAndFrontmatter => Constructs {
                frontmatter: true,
                ..Constructs::default()
            },
            OptionSet::Mark => Constructs {
                mark: true,
                ..Constructs::default()
            },
            OptionSet::Extended => Constructs {
                frontmatter: true,
                mark: true,
                math_flow: true,
                math_text: true,
                ..Constructs::default()
            },
            OptionSet::Extensions
            | OptionSet::ExtensionsByTwoTildes
            | OptionSet::ExtensionsByTwoDollars
            | OptionSet::ExtensionsCheckable => Constructs {
                gfm_strikethrough: true,
                gfm_task_list_item: true,
                math_text: true,
                math_flow: true,
                frontmatter: true,
                ..Constructs::default()
            },
            OptionSet::GfmAndMark => Constructs {
                mark: true,
                ..Constructs::gfm()
            },
            OptionSet::Everything | OptionSet::EverythingAndRawHtml => Constructs {
                mark: true,
                math_text: true,
                math_flow: true,
                frontmatter: true,
                ..Constructs::gfm()
            },
            OptionSet::Gfm
            | OptionSet::GfmAndRawHtml
            | OptionSet::FootnotesPrefixed
            | OptionSet::FootnotesBare
            | OptionSet::FootnotesNamed
            | OptionSet::FootnotesTagged
            | OptionSet::FootnotesShown
            | OptionSet::FootnotesReturned => Constructs::gfm(),
        }
    }

    /// The options of printing.
    fn compile_options(self, alloc: Global) -> CompileOptions {
        match self {
            OptionSet::BlocksAndRawHtml => CompileOptions {
                allow_dangerous_html: true,
                ..CompileOptions::default()
            },
            OptionSet::BlocksAndFilteredHtml
            | OptionSet::GfmAndRawHtml
            | OptionSet::EverythingAndRawHtml => CompileOptions {
                allow_dangerous_html: true,
                ..CompileOptions::gfm()
            },
            OptionSet::Standard => CompileOptions {
                allow_dangerous_html: true,
                allow_dangerous_protocol: true,
                ..CompileOptions::default()
            },
            OptionSet::ExtensionsCheckable => CompileOptions {
                gfm_task_list_item_checkable: true,
                ..CompileOptions::default()
            },
            OptionSet::Gfm | OptionSet::GfmAndMark | OptionSet::Everything => CompileOptions::gfm(),
            OptionSet::FootnotesPrefixed => CompileOptions {
                gfm_footnote_clobber_prefix: text(alloc, "x<"),
                ..CompileOptions::gfm()
            },
            OptionSet::FootnotesBare => CompileOptions {
                gfm_footnote_clobber_prefix: text(alloc, ""),
                ..CompileOptions::gfm()
            },
            OptionSet::FootnotesNamed => CompileOptions {
                gfm_footnote_label: text(alloc, "Notes & more"),
                ..CompileOptions::gfm()
            },
            OptionSet::FootnotesTagged => CompileOptions {
                gfm_footnote_label_tag_name: text(alloc, "h1"),
                ..CompileOptions::gfm()
            },
            OptionSet::FootnotesShown => CompileOptions {
                gfm_footnote_label_attributes: text(alloc, "class=\"x\" hidden"),
                ..CompileOptions::gfm()
            },
            OptionSet::FootnotesReturned => CompileOptions {
                gfm_footnote_back_label: text(alloc, "Zurück \"oben\""),
                ..CompileOptions::gfm()
            },
            _ => CompileOptions::default(),
        }
    }
}

/// All blocks of CommonMark, and no inline construct.
fn blocks() -> Constructs
    ensures { has_mdx result ≡ false }
{
    Constructs {
        block_quote: true,
        code_fenced: true,
        code_indented: true,
        definition: true,
        heading_atx: true,
        heading_setext: true,
        html_flow: true,
        list_item: true,
        thematic_break: true,
        ..Constructs::none()
    }
}

/// A text of an option. Without memory there is none, and the pages are then wrong.
fn text(alloc: Global, text: &str) -> Option<String> {
    String::from_str(alloc, text).ok()
}
