//! The options of a sum of flags.
ghost use Rattle.std.specs.Prelude.{◌≡◌, ◌<◌, false};
ghost use Rattle.markdown_options.specs.Mdx.{has_mdx};
ghost use Rattle.markdown_compile_options.specs.Mdx.{HasNoMdx};
ghost use Rattle.markdown_c_options.specs.Flags.{flagged_constructs, flagged_options, has_flag};

use markdown_compile_options::{CompileOptions, Options};
use markdown_options::{Constructs, ParseOptions};

/// HTML of the text is printed as it is, and URLs may have any protocol.
const DANGEROUS: u64 = 1;

/// Every construct is off.
const PLAIN: u64 = 2;

/// `~~a~~` is struck through (GFM 6.5).
const STRIKETHROUGH: u64 = 4;

/// `$a$` is math, and so is a block between fences of dollars.
const MATH: u64 = 8;

/// Metadata at the front of a text, between lines of `---` or `+++`, is skipped.
const FRONTMATTER: u64 = 16;

/// `- [x] a` has a check box (GFM 5.3).
const TASK_LIST_ITEMS: u64 = 32;

/// A row of delimiters below a line makes a table (GFM 4.10).
const TABLES: u64 = 64;

/// `www.a.b`, `https://a.b` and `a@b.c` are links (GFM 6.9).
const AUTOLINK_LITERALS: u64 = 128;

/// `[^a]` calls the footnote that `[^a]: b` defines.
const FOOTNOTES: u64 = 256;

/// With `DANGEROUS`: the `<` of nine tags is printed as `&lt;` (GFM 6.11).
const TAGFILTER: u64 = 512;

/// `==a==` is marked text.
const MARK: u64 = 1024;

/// All flags together.
pub const ALL: u32 = 2047;

/// Whether a flag is in a sum of flags.
pub(crate) fn has_flag(flag: u64, flags: u64) -> bool
    requires { 0 < flag }
    ensures { result ≡ has_flag flag flags }
{
    flags / flag % 2 == 1
}

/// The default constructs and those of the flags, or none with `PLAIN`.
fn flagged_constructs(flags: u64) -> Constructs
    ensures constructs { result ≡ flagged_constructs flags }
    ensures without_mdx { has_mdx result ≡ false }
{
    if has_flag(PLAIN, flags) {
        return Constructs::none();
    }
    Constructs {
        gfm_autolink_literal: has_flag(AUTOLINK_LITERALS, flags),
        gfm_footnote_definition: has_flag(FOOTNOTES, flags),
        gfm_label_start_footnote: has_flag(FOOTNOTES, flags),
        gfm_strikethrough: has_flag(STRIKETHROUGH, flags),
        gfm_table: has_flag(TABLES, flags),
        gfm_task_list_item: has_flag(TASK_LIST_ITEMS, flags),
        mark: has_flag(MARK, flags),
        math_text: has_flag(MATH, flags),
        math_flow: has_flag(MATH, flags),
        frontmatter: has_flag(FRONTMATTER, flags),
        ..Constructs::default()
    }
}

/// How a text is read by the flags.
pub fn flagged_parse_options(flags: u32) -> ParseOptions
    ensures options { result ≡ (flagged_options flags).parse }
    ensures without_mdx { has_mdx result.constructs ≡ false }
{
    ParseOptions {
        constructs: flagged_constructs(u64::from(flags)),
        ..ParseOptions::default()
    }
}

/// The default options, changed by the flags.
pub fn flagged_options(flags: u32) -> Options
    ensures options { result ≡ flagged_options flags }
    ensures without_mdx { HasNoMdx result }
{
    let parse = flagged_parse_options(flags);
    let flags = u64::from(flags);
    Options {
        parse,
        compile: CompileOptions {
            allow_dangerous_html: has_flag(DANGEROUS, flags),
            allow_dangerous_protocol: has_flag(DANGEROUS, flags),
            gfm_tagfilter: has_flag(TAGFILTER, flags),
            ..CompileOptions::default()
        },
    }
}
