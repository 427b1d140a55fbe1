//! The constructs of a sum of their numbers.
ghost use Rattle.std.specs.Prelude.{◌≡◌, false};
ghost use Rattle.markdown_options.specs.Mdx.{has_mdx};
ghost use Rattle.markdown_c_options.specs.Constructs.{constructs_of};

use crate::flags::has_flag;
use markdown_options::Constructs;

/// Emphasis and strong emphasis by `*` and `_` (CommonMark 6.2).
const ATTENTION: u64 = 1;

/// Links in angle brackets, such as `<https://example.com>` (CommonMark 6.5).
const AUTOLINK: u64 = 2;

/// Block quotes by `>` (CommonMark 5.1).
const BLOCK_QUOTE: u64 = 4;

/// A backslash before ASCII punctuation (CommonMark 2.4).
const CHARACTER_ESCAPE: u64 = 8;

/// Characters by name or number, as `&amp;` and `&#38;` (CommonMark 2.5).
const CHARACTER_REFERENCE: u64 = 16;

/// Code blocks by indentation (CommonMark 4.4).
const CODE_INDENTED: u64 = 32;

/// Code blocks between fences of backticks or tildes (CommonMark 4.5).
const CODE_FENCED: u64 = 64;

/// Code spans between backticks (CommonMark 6.1).
const CODE_TEXT: u64 = 128;

/// Definitions of links, as `[a]: b` (CommonMark 4.7).
const DEFINITION: u64 = 256;

/// Metadata at the start of a text, between lines of `---` or `+++`; in neither standard.
const FRONTMATTER: u64 = 512;

/// Bare links, such as `www.example.com`, and email addresses (GFM 6.9).
const GFM_AUTOLINK_LITERAL: u64 = 1024;

/// Definitions of footnotes, as `[^a]: b`; GitHub has them, and GFM has no section on them.
const GFM_FOOTNOTE_DEFINITION: u64 = 2048;

/// Calls of footnotes, as `[^a]`; GitHub has them, and GFM has no section on them.
const GFM_LABEL_START_FOOTNOTE: u64 = 4096;

/// Strikethrough by `~` (GFM 6.5).
const GFM_STRIKETHROUGH: u64 = 8192;

/// Tables (GFM 4.10).
const GFM_TABLE: u64 = 16384;

/// Check boxes at the start of an item, such as `[x]` (GFM 5.3).
const GFM_TASK_LIST_ITEM: u64 = 32768;

/// Line breaks by a backslash (CommonMark 6.7).
const HARD_BREAK_ESCAPE: u64 = 65536;

/// Line breaks by spaces at a line's end (CommonMark 6.7).
const HARD_BREAK_TRAILING: u64 = 131072;

/// Headings that begin with `#` (CommonMark 4.2).
const HEADING_ATX: u64 = 262144;

/// Headings with a line of `=` or `-` below (CommonMark 4.3).
const HEADING_SETEXT: u64 = 524288;

/// HTML blocks (CommonMark 4.6).
const HTML_FLOW: u64 = 1048576;

/// Raw HTML in text (CommonMark 6.6).
const HTML_TEXT: u64 = 2097152;

/// The start `![` of an image (CommonMark 6.4).
const LABEL_START_IMAGE: u64 = 4194304;

/// The start `[` of a link (CommonMark 6.3).
const LABEL_START_LINK: u64 = 8388608;

/// The end `]` of a link or an image (CommonMark 6.3 and 6.4).
const LABEL_END: u64 = 16777216;

/// List items (CommonMark 5.2).
const LIST_ITEM: u64 = 33554432;

/// Marked text by `==`; in neither standard.
const MARK: u64 = 67108864;

/// Blocks of math between fences of dollars; in neither standard.
const MATH_FLOW: u64 = 134217728;

/// Math within text, between dollars; in neither standard.
const MATH_TEXT: u64 = 268435456;

/// Breaks by a line of `*`, `-` or `_` (CommonMark 4.1).
const THEMATIC_BREAK: u64 = 536870912;

/// All constructs together.
pub(crate) const ALL: u64 = 2 * THEMATIC_BREAK - 1;

/// The constructs of a sum, and none of MDX.
pub(crate) fn constructs_of(sum: u64) -> Constructs
    ensures constructs { result ≡ constructs_of sum }
    ensures without_mdx { has_mdx result ≡ false }
{
    Constructs {
        attention: has_flag(ATTENTION, sum),
        autolink: has_flag(AUTOLINK, sum),
        block_quote: has_flag(BLOCK_QUOTE, sum),
        character_escape: has_flag(CHARACTER_ESCAPE, sum),
        character_reference: has_flag(CHARACTER_REFERENCE, sum),
        code_indented: has_flag(CODE_INDENTED, sum),
        code_fenced: has_flag(CODE_FENCED, sum),
        code_text: has_flag(CODE_TEXT, sum),
        definition: has_flag(DEFINITION, sum),
        frontmatter: has_flag(FRONTMATTER, sum),
        gfm_autolink_literal: has_flag(GFM_AUTOLINK_LITERAL, sum),
        gfm_footnote_definition: has_flag(GFM_FOOTNOTE_DEFINITION, sum),
        gfm_label_start_footnote: has_flag(GFM_LABEL_START_FOOTNOTE, sum),
        gfm_strikethrough: has_flag(GFM_STRIKETHROUGH, sum),
        gfm_table: has_flag(GFM_TABLE, sum),
        gfm_task_list_item: has_flag(GFM_TASK_LIST_ITEM, sum),
        hard_break_escape: has_flag(HARD_BREAK_ESCAPE, sum),
        hard_break_trailing: has_flag(HARD_BREAK_TRAILING, sum),
        heading_atx: has_flag(HEADING_ATX, sum),
        heading_setext: has_flag(HEADING_SETEXT, sum),
        html_flow: has_flag(HTML_FLOW, sum),
        html_text: has_flag(HTML_TEXT, sum),
        label_start_image: has_flag(LABEL_START_IMAGE, sum),
        label_start_link: has_flag(LABEL_START_LINK, sum),
        label_end: has_flag(LABEL_END, sum),
        list_item: has_flag(LIST_ITEM, sum),
        mark: has_flag(MARK, sum),
        math_flow: has_flag(MATH_FLOW, sum),
        math_text: has_flag(MATH_TEXT, sum),
        thematic_break: has_flag(THEMATIC_BREAK, sum),
        ..Constructs::none()
    }
}
