//! The options of numbers: constructs, switches and a line ending.
ghost use Rattle.std.specs.Prelude.{◌≡◌, ◌<◌, ◌↔◌, IsTrue, false};
ghost use Rattle.markdown_options.specs.Mdx.{has_mdx};
ghost use Rattle.markdown_compile_options.specs.Mdx.{HasNoMdx};
ghost use Rattle.markdown_c_options.specs.Switches.{ending_of, options_of_numbers, parse_options_of, AreNumbers};

use crate::constructs::{self, constructs_of};
use crate::flags::has_flag;
use markdown_compile_options::{CompileOptions, Options};
use markdown_options::{LineEnding, ParseOptions};

/// An image may have any protocol.
const ALLOW_ANY_IMG_SRC: u64 = 1;

/// HTML of the text is printed as it is.
const ALLOW_DANGEROUS_HTML: u64 = 2;

/// Links and images may have any protocol.
const ALLOW_DANGEROUS_PROTOCOL: u64 = 4;

/// The `<` of nine tags is printed as `&lt;` in HTML that is printed as it is (GFM 6.11).
const GFM_TAGFILTER: u64 = 8;

/// Check boxes of items aren't `disabled` (GFM 5.3).
const GFM_TASK_LIST_ITEM_CHECKABLE: u64 = 16;

/// One tilde strikes text too, as in `~a~` (GFM 6.5).
const GFM_STRIKETHROUGH_SINGLE_TILDE: u64 = 32;

/// One dollar makes math within text too, as in `$a$`.
const MATH_TEXT_SINGLE_DOLLAR: u64 = 64;

/// Headings have ids, as GitHub makes them.
const HEADING_IDS: u64 = 128;

/// Images have `loading="lazy"`.
const LAZY_IMAGES: u64 = 256;

/// HTML of the text is kept by a list of elements and attributes.
const ALLOW_LISTED_HTML: u64 = 512;

/// All switches together.
pub(crate) const ALL: u32 = 1023;

/// The largest number of a line ending.
pub(crate) const LAST_ENDING: u32 = 2;

/// The line ending of a number: 0 for a line feed, 1 for a carriage return, 2 for both.
fn ending_of(number: u32) -> LineEnding
    ensures { result ≡ ending_of number }
{
    match number {
        0 => LineEnding::LineFeed,
        1 => LineEnding::CarriageReturn,
        _ => LineEnding::CarriageReturnLineFeed,
    }
}

/// Whether numbers of options are known.
pub fn are_known(constructs: u64, switches: u32, ending: u32) -> bool
    ensures { IsTrue result ↔ AreNumbers constructs switches ending }
{
    constructs <= constructs::ALL && switches <= ALL && ending <= LAST_ENDING
}

/// How a text is read by these numbers.
pub fn parse_options_of(constructs: u64, switches: u32) -> ParseOptions
    ensures options { result ≡ parse_options_of constructs switches }
    ensures without_mdx { has_mdx result.constructs ≡ false }
{
    let switches = u64::from(switches);
    ParseOptions {
        constructs: constructs_of(constructs),
        gfm_strikethrough_single_tilde: has_flag(GFM_STRIKETHROUGH_SINGLE_TILDE, switches),
        math_text_single_dollar: has_flag(MATH_TEXT_SINGLE_DOLLAR, switches),
    }
}

/// The options of these numbers, with the default texts.
pub fn options_of_numbers(constructs: u64, switches: u32, ending: u32) -> Options
    ensures options { result ≡ options_of_numbers constructs switches ending }
    ensures without_mdx { HasNoMdx result }
{
    let parse = parse_options_of(constructs, switches);
    let switches = u64::from(switches);
    Options {
        parse,
        compile: CompileOptions {
            allow_any_img_src: has_flag(ALLOW_ANY_IMG_SRC, switches),
            allow_dangerous_html: has_flag(ALLOW_DANGEROUS_HTML, switches),
            allow_dangerous_protocol: has_flag(ALLOW_DANGEROUS_PROTOCOL, switches),
            allow_listed_html: has_flag(ALLOW_LISTED_HTML, switches),
            default_line_ending: ending_of(ending),
            gfm_tagfilter: has_flag(GFM_TAGFILTER, switches),
            gfm_task_list_item_checkable: has_flag(GFM_TASK_LIST_ITEM_CHECKABLE, switches),
            heading_ids: has_flag(HEADING_IDS, switches),
            lazy_images: has_flag(LAZY_IMAGES, switches),
            ..CompileOptions::default()
        },
    }
}
